//! A text of the outside: bytes of UTF-8.

use std::convert::AsStr;
use std::marker::Model;

/// A text, seen as the list of its bytes, which are UTF-8. [`text`](crate::text) makes one, and `as_str` of `AsStr` reads it.
#[derive(Drop)]
pub struct Text {
    pub(crate) string: String,
}

impl Model for Text {
    ghost use Rattle.std.specs.Prelude.{List, ℕ, string_bytes};

    ghost Value = { List ℕ };

    ghost view = { λ t. string_bytes t.string };
}

impl AsStr for Text {
    ghost text = { λ t. t };

    fn as_str(&self) -> &str {
        self.string.as_str()
    }
}
