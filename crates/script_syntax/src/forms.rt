//! The token at the front of the characters (ECMA-262, 12.6 to 12.9).

ghost use Rattle.std.specs.Prelude.{◌≡◌, ◌<◌, ◌≤◌, ℕ, IfOk, length};
ghost use Rattle.es_source.specs.Reading.{token_at};
ghost use Rattle.script_syntax.specs.Stops.{Scans};

use crate::characters::{is_quote, may_start_name};
use crate::names::name_at;
use crate::numbers::number_at;
use crate::punctuators::punctuator_at;
use crate::stop::TokenStop;
use crate::texts::text_at;
use es_source::TokenKind;
use std::alloc::Global;

/// The token at the front and how many characters it takes.
pub fn token_at(alloc: Global, rest: &[char]) -> Result<(TokenKind, usize), TokenStop>
    requires { 0 < length rest.now }
    ensures value { Scans (token_at rest.now) result }
    ensures bound { IfOk result (λ form. (0 < form.1) × (form.1 ≤ length rest.now)) }
{
    let first = rest[0];
    if may_start_name(first) {
        name_at(alloc, rest)
    } else if first.is_digit(10) {
        number_at(rest).ok_or(TokenStop::Bad)
    } else if is_quote(first) {
        text_at(alloc, rest)
    } else {
        punctuator_at(alloc, rest)
    }
}
