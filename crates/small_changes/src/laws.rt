//! A law of the changes.

ghost use Rattle.small_changes.specs.Laws.{StoringKeepsOutlines};

/// A stored value changes no flag, no key's place and no object but in that value.
pub fn storing_keeps_outlines()
    ensures { StoringKeepsOutlines }
{}
