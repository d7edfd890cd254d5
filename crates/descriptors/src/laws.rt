//! Laws of what a definition makes of a property.

ghost use Rattle.std.specs.Prelude.{◌≡◌, ◌↔◌, Bool, Option, Some, IsTrue, IsFalse};
ghost use Rattle.descriptors.specs.declared.fields.Descriptor.{Descriptor};
ghost use Rattle.descriptors.specs.declared.property.Complete.{Complete};
ghost use Rattle.descriptors.specs.declared.validation.Verdict.{Verdict};
ghost use Rattle.descriptors.specs.declared.validation.Verdict.TheVariants as verdict;
ghost use Rattle.descriptors.specs.Kinds.{is_sound};
ghost use Rattle.descriptors.specs.Validation.{is_configurable, applied, verdict_of, IsFixedStep};

/// The verdict is Keep exactly where the property that the definition makes is the one that stands there: what changes
/// nothing is never refused, and what changes something is never Keep.
pub fn keep_changes_nothing()
    ensures { (extensible : Bool) (wanted : Descriptor) (current : Complete) → IsTrue (is_sound wanted)
        → (verdict_of extensible wanted (Some current) ≡ verdict.Keep) ↔ (applied wanted current ≡ current) }
{}

/// A definition that was made may be made again, also where the object is no longer extensible, and then nothing changes.
pub fn applied_is_kept()
    ensures { (extensible again : Bool) (wanted : Descriptor) (current : Option Complete) (property : Complete) → IsTrue (is_sound wanted)
        → verdict_of extensible wanted current ≡ verdict.Apply property
        → verdict_of again wanted (Some property) ≡ verdict.Keep }
{}

/// Of a property that is not configurable only a writable data property ever changes (6.1.7.3). It stays a data property,
/// not configurable, and as enumerable as before, and once it is not writable it is what it is for good.
pub fn fixed_property_stays()
    ensures { (extensible : Bool) (wanted : Descriptor) (current property : Complete) → IsFalse (is_configurable current)
        → verdict_of extensible wanted (Some current) ≡ verdict.Apply property
        → IsFixedStep current property }
{}
