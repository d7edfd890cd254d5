//! A place in a source.

ghost use Rattle.std.specs.Prelude.{◌≡◌};
ghost use Rattle.es_source.specs.Places.{is_before, same_place};

/// Where something stands in a source: its line and its column, both from 1.
#[derive(Clone, Copy, Debug, PartialEq, Eq, Hash)]
pub struct Place {
    pub line: u32,
    pub column: u32,
}

impl Place {
    /// Whether two places are one.
    pub fn is_same(self, other: Place) -> bool
        ensures { result ≡ same_place self other }
    {
        self.line == other.line && self.column == other.column
    }

    /// Whether this place is before another one.
    pub fn is_before(self, other: Place) -> bool
        ensures { result ≡ is_before self other }
    {
        self.line < other.line || (self.line == other.line && self.column < other.column)
    }
}
