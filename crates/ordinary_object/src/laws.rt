//! Laws of the ordinary methods.

ghost use Rattle.ordinary_object.specs.Laws.{RoundsSuffice};

/// In a sound world `[[SetPrototypeOf]]` has rounds enough for every chain of prototypes.
pub fn rounds_suffice()
    ensures { RoundsSuffice }
{}
