//! The list of tokens.

ghost use Rattle.std.specs.Prelude.{◌≡◌, ◌<◌, List, length, slice_get, Some};
ghost use Rattle.script_syntax.specs.Readings.{listed};

use crate::positions::Position;
use es_source::{Place, Token};
use std::marker::Model;

/// The tokens of a source in their order, and the place one past its last character. Only `tokens` makes them.
#[derive(Drop)]
pub struct Tokens {
    all: Vec<Token>,
    end: Place,
}

impl Model for Tokens {
    ghost use Rattle.es_source.specs.Reading.{Reading};
    ghost use Rattle.script_syntax.specs.Readings.{listed};

    ghost Value = { Reading };

    ghost view = { λ t. listed t.all.items t.end };
}

impl Tokens {
    pub(crate) fn ending_at(all: Vec<Token>, position: Position) -> Tokens
        ensures { result ≡ listed all.items position.place }
    {
        Tokens {
            all,
            end: position.place,
        }
    }

    /// How many tokens there are.
    pub fn len(&self) -> usize
        ensures { result ≡ length self.now.tokens }
    {
        self.all.len()
    }

    /// The token at a place below `len`.
    pub fn at(&self, i: usize) -> &Token
        requires { i < length self.now.tokens }
        ensures { slice_get self.now.tokens i ≡ Some result.now }
    {
        &self.all[i]
    }

    /// The place one past the last byte.
    pub fn end(&self) -> Place
        ensures { result ≡ self.now.ending }
    {
        self.end
    }
}
