//! Tokens, with semicolons put in (ECMA-262, 12.10).

ghost use Rattle.std.specs.Prelude.{◌≡◌, IfOk, true};
ghost use Rattle.script_grammar.specs.Completed.{offends};
ghost use Rattle.script_grammar.specs.Kinds.{kind_of};
ghost use Rattle.script_parser.specs.State.{stack, ids};
ghost use Rattle.script_parser.specs.Progress.{ReadsOne, EndsWith, root_of};

use super::Parser;
use crate::kinds::kind_of;
use es_source::Token;
use property_keys::NoMemory;
use script_grammar::{Bracket, Kind, Sign};

/// The nesting of a token is at most so much.
const MOST_NESTING: u32 = 200;

/// What became of a token.
#[derive(Clone, Copy)]
pub enum Reading {
    Taken,
    Refused,
    Deep,
}

/// Whether a semicolon may be put before this token.
fn may_be_preceded(token: &Token, kind: Kind) -> bool
    requires { kind ≡ kind_of token.now.kind }
    ensures { result ≡ offends token.now }
{
    token.after_break || matches!(kind, Kind::Bracket(Bracket::BraceClose))
}

impl Parser {
    /// Reads the token with this number, with semicolons before it where they are put in.
    fn read(&mut self, token: &Token, number: u32) -> Result<Reading, NoMemory>
        ensures { IfOk result (λ r. ReadsOne self.old self.new number token.now r) }
    {
        let kind = kind_of(&token.kind);
        let x = Sign::Token {
            kind,
            number,
            after_break: token.after_break,
        };
        loop {
            match self.try_take(x)? {
                Some(nesting) => return Ok(if nesting > MOST_NESTING {
                    Reading::Deep
                } else {
                    Reading::Taken
                }),
                None => {}
            }
            if !may_be_preceded(token, kind) {
                return Ok(Reading::Refused);
            }
            match self.try_take(Sign::Inserted)? {
                Some(_) => {}
                None => return Ok(Reading::Refused),
            }
        }
    }

    /// Reads the token at this place.
    pub fn read_at(&mut self, token: &Token, place: usize) -> Result<Reading, NoMemory>
        ensures { IfOk result (λ r. ReadsOne self.old self.new place token.now r) }
    {
        match u32::try_from(place) {
            Ok(number) => self.read(token, number),
            Err(_) => Err(NoMemory),
        }
    }

    /// The number of the script, where nothing is expected any more.
    #[tactic(auto, using(crate::proofs::Whole::expects_below))]
    fn root(&self) -> Option<u32>
        ensures { result ≡ root_of (stack self.now) (ids self.now) }
    {
        match (
            self.symbols.as_slice(),
            self.pending.as_slice(),
            self.values.as_slice(),
        ) {
            ([], [], [root]) => Some(*root),
            _ => None,
        }
    }

    /// Reads the end of the input, with semicolons before it where they are put in.
    pub fn end(&mut self) -> Result<Option<u32>, NoMemory>
        ensures { IfOk result (λ r. EndsWith self.old self.new r) }
    {
        loop {
            self.settle(Sign::Inserted)?;
            match self.root() {
                Some(root) => return Ok(Some(root)),
                None => {}
            }
            match self.shift(Sign::Inserted)? {
                Some(_) => {}
                None => return Ok(None),
            }
        }
    }
}
