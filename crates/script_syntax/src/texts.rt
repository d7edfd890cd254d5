//! Texts (ECMA-262, 12.9.4).

ghost use Rattle.std.specs.Prelude.{◌≡◌, ◌<◌, ◌≤◌, ℕ, IfOk, IfSome, IsTrue, length, codes, bytes_eq};
ghost use Rattle.es_source.specs.Characters.{begins};
ghost use Rattle.es_source.specs.Texts.{is_quote, units_for, text_from, text_at};
ghost use Rattle.script_syntax.specs.Stops.{Scans, Adds, ScansText};

use crate::escapes::part_at;
use crate::names::push_point;
use crate::stop::TokenStop;
use es_source::TokenKind;
use property_keys::Units;
use std::alloc::Global;

/// The source of a text that makes its code strict.
const USE_STRICT: [char; 10] = ['u', 's', 'e', ' ', 's', 't', 'r', 'i', 'c', 't'];

/// Adds the code units of a code point, if there is one.
fn push_part(units: &mut Units, point: Option<u32>) -> Result<(), TokenStop>
    requires { IfSome point (λ code. code < 0x110000) }
    ensures { Adds units.old (units_for point) units.new result }
{
    match point {
        Some(point) => push_point(units, point),
        None => Ok(()),
    }
}

/// The code units up to the quote that closes a text, and how many characters stand there with that quote.
fn text_from(alloc: Global, quote: char, rest: &[char]) -> Result<(Units, usize), TokenStop>
    ensures value { ScansText (text_from quote 0 rest.now) result }
    ensures bound { IfOk result (λ text. (0 < text.1) × (text.1 ≤ length rest.now)) }
{
    let mut units = Units::new(alloc);
    let mut passed = 0;
    'parts: while passed < rest.len() {
        if rest[passed] == quote {
            return Ok((units, passed + 1));
        }
        let Some((length, point)) = part_at(rest.split_at(passed).1) else {
            return Err(TokenStop::Bad);
        };
        push_part(&mut units, point)?;
        passed += length;
    }
    Err(TokenStop::Bad)
}

fn is_use_strict(source: &[char]) -> bool
    ensures { result ≡ bytes_eq source.now (codes "use strict") }
{
    source == USE_STRICT.as_slice()
}

/// The text at the front.
pub fn text_at(alloc: Global, rest: &[char]) -> Result<(TokenKind, usize), TokenStop>
    requires { IsTrue (begins is_quote rest.now) }
    ensures value { Scans (text_at rest.now) result }
    ensures bound { IfOk result (λ form. (0 < form.1) × (form.1 ≤ length rest.now)) }
{
    let later = rest.split_at(1).1;
    let (units, length) = text_from(alloc, rest[0], later)?;
    let strict = is_use_strict(later.split_at(length - 1).0);
    Ok((TokenKind::Text { units, strict }, 1 + length))
}
