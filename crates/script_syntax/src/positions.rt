//! Where the scanner stands: lines and columns from 1 (ECMA-262, 12.3).

ghost use Rattle.std.specs.Prelude.{◌≡◌, ◌<◌, ◌≤◌, ◌+◌, ◌*◌, ◌^◌, ◌++◌, ◌∷◌, [], ℕ, List, length};
ghost use Rattle.script_syntax.specs.Positions.{position_after};

use crate::characters::is_line_terminator;
use es_source::Place;

/// A place in a source, with whether a CR stands directly before it: an LF there ends the same line.
#[derive(Clone, Copy)]
pub struct Position {
    pub place: Place,
    after_return: bool,
}

impl Position {
    /// The start of a source.
    pub fn start() -> Position
        ensures { result ≡ position_after [] }
    {
        Position {
            place: Place { line: 1, column: 1 },
            after_return: false,
        }
    }

    /// The place after one character more. Columns count bytes of UTF-8.
    fn past_one(self, character: char) -> Position
        requires line { self.place.line + 1 < 2 ^ 32 }
        requires column { self.place.column + 4 < 2 ^ 32 }
        ensures place { (before : List ℕ) → self ≡ position_after before → result ≡ position_after (before ++ character ∷ []) }
        ensures line { result.place.line < self.place.line + 2 }
        ensures column { result.place.column < self.place.column + 5 }
    {
        if !is_line_terminator(character) {
            return Position {
                place: Place {
                    line: self.place.line,
                    column: self.place.column + character.len_utf8() as u32,
                },
                after_return: false,
            };
        }
        // CR LF ends one line, and the CR has ended it.
        if self.after_return && character == '\n' {
            return Position {
                place: Place {
                    line: self.place.line,
                    column: 1,
                },
                after_return: false,
            };
        }
        Position {
            place: Place {
                line: self.place.line + 1,
                column: 1,
            },
            after_return: character == '\r',
        }
    }

    /// The place after these characters more.
    pub fn past(self, characters: &[char]) -> Position
        requires line { self.place.line + length characters.now < 2 ^ 32 }
        requires column { self.place.column + 4 * length characters.now < 2 ^ 32 }
        ensures place { (before : List ℕ) → self ≡ position_after before → result ≡ position_after (before ++ characters.now) }
        ensures line { result.place.line ≤ self.place.line + length characters.now }
        ensures column { result.place.column ≤ self.place.column + 4 * length characters.now }
    {
        let mut position = self;
        for character in characters {
            position = position.past_one(*character);
        }
        position
    }
}
