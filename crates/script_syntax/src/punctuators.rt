//! Punctuators (ECMA-262, 12.8).

ghost use Rattle.std.specs.Prelude.{◌≡◌, ◌<◌, ◌≤◌, ◌&&◌, [], ℕ, IfOk, length, drop, map, fold, codes, bytes_eq};
ghost use Rattle.es_source.specs.Characters.{is_digit_of, begins};
ghost use Rattle.es_source.specs.Forms.{longer_at, longest_punctuator, punctuator_at};
ghost use Rattle.script_syntax.specs.Stops.{Scans};

use crate::names::units_of;
use crate::stop::TokenStop;
use es_source::TokenKind;
use std::alloc::Global;

/// The punctuators.
const PUNCTUATORS: [&[char]; 36] = [
    &['{'],
    &['}'],
    &['('],
    &[')'],
    &['['],
    &[']'],
    &['.'],
    &['.', '.', '.'],
    &[';'],
    &[','],
    &['<'],
    &['>'],
    &['<', '='],
    &['>', '='],
    &['=', '='],
    &['!', '='],
    &['=', '=', '='],
    &['!', '=', '='],
    &['+'],
    &['-'],
    &['*'],
    &['%'],
    &['+', '+'],
    &['-', '-'],
    &['!'],
    &['&', '&'],
    &['|', '|'],
    &['?', '?'],
    &['?'],
    &[':'],
    &['='],
    &['+', '='],
    &['-', '='],
    &['*', '='],
    &['%', '='],
    &['=', '>'],
];

/// The longer of two punctuators, where the second stands at the front.
fn longer_at(rest: &[char], best: &'static [char], next: &'static [char]) -> &'static [char]
    ensures value { result.now ≡ longer_at rest.now best.now next.now }
    ensures bound { length best.now ≤ length rest.now → length result.now ≤ length rest.now }
{
    if rest.starts_with(next) && best.len() < next.len() {
        next
    } else {
        best
    }
}

/// The longest of a table that stands at the front, and nothing where none does.
fn longest_of(table: &[&'static [char]], rest: &[char]) -> &'static [char]
    ensures value { result.now ≡ fold (longer_at rest.now) [] (map (λ p. p.now) table.now) }
    ensures bound { length result.now ≤ length rest.now }
{
    let mut best: &'static [char] = &[];
    for next in table {
        best = longer_at(rest, best, next);
    }
    best
}

/// The longest punctuator at the front, and nothing where none stands there.
fn longest_punctuator(rest: &[char]) -> &'static [char]
    ensures value { result.now ≡ longest_punctuator rest.now }
    ensures bound { length result.now ≤ length rest.now }
{
    longest_of(PUNCTUATORS.as_slice(), rest)
}

/// Whether these characters are a `.` that stands directly before a digit, at the front of the rest.
fn is_dot_before_digit(longest: &[char], rest: &[char]) -> bool
    ensures { result ≡ (bytes_eq longest.now (codes ".") && begins (is_digit_of 10) (drop 1 rest.now)) }
{
    longest == ['.'].as_slice() && rest.get(1).is_some_and(|c| c.is_digit(10))
}

/// The punctuator at the front.
pub fn punctuator_at(alloc: Global, rest: &[char]) -> Result<(TokenKind, usize), TokenStop>
    ensures value { Scans (punctuator_at rest.now) result }
    ensures bound { IfOk result (λ form. (0 < form.1) × (form.1 ≤ length rest.now)) }
{
    let longest = longest_punctuator(rest);
    if longest.is_empty() || is_dot_before_digit(longest, rest) {
        return Err(TokenStop::Bad);
    }
    let units = units_of(alloc, longest)?;
    Ok((TokenKind::Punctuator(units), longest.len()))
}
