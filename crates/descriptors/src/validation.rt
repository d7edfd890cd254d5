//! ValidateAndApplyPropertyDescriptor (10.1.6.3), as a verdict.

ghost use Rattle.std.specs.Prelude.{◌≡◌, option_copied};
ghost use Rattle.descriptors.specs.Validation.{change_of, verdict_of, is_allowed};

use crate::completing::{applied, complete};
use crate::refusals::is_refused;
use crate::unchanged::changes_nothing;
use crate::{Complete, Descriptor};

/// What becomes of a property that is to be defined.
#[derive(Clone, Copy, Debug, PartialEq, Eq)]
pub enum Verdict {
    /// It may not be defined so.
    Refuse,
    /// It may, and nothing changes.
    Keep,
    /// It may, and this is the property from then on.
    Apply(Complete),
}

/// What a definition makes of the property that stands there, if one does (ValidateAndApplyPropertyDescriptor,
/// ECMA-262, 10.1.6.3).
pub fn validate(extensible: bool, wanted: &Descriptor, current: Option<&Complete>) -> Verdict
    ensures { result ≡ verdict_of extensible wanted.now (option_copied current.entry) }
{
    match current {
        Some(current) => change(wanted, current),
        None if extensible => Verdict::Apply(complete(wanted)),
        None => Verdict::Refuse,
    }
}

/// Whether a property may be defined so (IsCompatiblePropertyDescriptor, ECMA-262, 10.1.6.2).
pub fn is_compatible(extensible: bool, wanted: &Descriptor, current: Option<&Complete>) -> bool
    ensures { result ≡ is_allowed (verdict_of extensible wanted.now (option_copied current.entry)) }
{
    !matches!(validate(extensible, wanted, current), Verdict::Refuse)
}

/// What a definition makes of a property that stands there.
fn change(wanted: &Descriptor, current: &Complete) -> Verdict
    ensures { result ≡ change_of wanted.now current.now }
{
    if wanted.is_without_fields() {
        return Verdict::Keep;
    }
    if is_refused(wanted, current) {
        return Verdict::Refuse;
    }
    if changes_nothing(wanted, current) {
        return Verdict::Keep;
    }
    let property = applied(wanted, current);
    Verdict::Apply(property)
}
