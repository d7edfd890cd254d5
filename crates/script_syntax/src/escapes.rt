//! The parts of a text: characters and escapes (ECMA-262, 12.9.4).

ghost use Rattle.std.specs.Prelude.{◌≡◌, ◌<◌, ◌≤◌, ◌+◌, ◌*◌, ℕ, IfSome, IsTrue, length, option_map};
ghost use Rattle.std.specs.List.{list_all};
ghost use Rattle.std.specs.Str.Parse.{digits_value};
ghost use Rattle.es_source.specs.Characters.{is_digit_of};
ghost use Rattle.es_source.specs.Texts.{escaped, hexadecimal, braced, unicode_escape, escape_at, part_at};
ghost use Rattle.script_syntax.specs.Limits.{FitsPart};

use crate::characters::is_line_terminator;
use crate::numbers::{digits_at, digits_value};

/// The greatest code point.
const MOST_POINT: u64 = 0x10FFFF;

/// What a character after `\` stands for that begins no other escape.
fn escaped(character: char) -> char
    ensures { result ≡ escaped character }
{
    match character {
        'b' => '\u{8}',
        't' => '\t',
        'n' => '\n',
        'v' => '\u{B}',
        'f' => '\u{C}',
        'r' => '\r',
        _ => character,
    }
}

fn are_hexadecimal(digits: &[char]) -> bool
    ensures { result ≡ list_all (is_digit_of 16) digits.now }
{
    digits.iter().all(|c| c.is_digit(16))
}

/// The number that up to four hexadecimal digits write.
#[tactic(auto, using(crate::proofs::Digits::four_digits))]
fn code_of(digits: &[char]) -> u32
    requires few { length digits.now ≤ 4 }
    requires all { IsTrue (list_all (is_digit_of 16) digits.now) }
    ensures value { result ≡ digits_value 16 digits.now }
    ensures bound { result < 0x10000 }
{
    digits_value(16, digits) as u32
}

/// The number that exactly so many hexadecimal digits at the front write.
fn hexadecimal(count: usize, rest: &[char]) -> Option<u32>
    requires { count ≤ 4 }
    ensures value { result ≡ hexadecimal count rest.now }
    ensures bound { IfSome result (λ code. (code < 0x10000) × (count ≤ length rest.now)) }
{
    if rest.len() < count {
        return None;
    }
    let digits = rest.split_at(count).0;
    if are_hexadecimal(digits) {
        Some(code_of(digits))
    } else {
        None
    }
}

/// What `\u{` is followed by: hexadecimal digits of a code point, and `}`.
fn braced(rest: &[char]) -> Option<(usize, Option<u32>)>
    ensures value { result ≡ braced rest.now }
    ensures bound { IfSome result (FitsPart (length rest.now)) }
{
    let digits = digits_at(16, rest);
    let value = digits_value(16, digits);
    let later = rest.split_at(digits.len()).1;
    if digits.is_empty() || later.first() != Some(&'}') || value > MOST_POINT {
        return None;
    }
    Some((digits.len() + 1, Some(value as u32)))
}

/// What `\u` is followed by.
fn unicode_escape(rest: &[char]) -> Option<(usize, Option<u32>)>
    ensures value { result ≡ unicode_escape rest.now }
    ensures bound { IfSome result (FitsPart (length rest.now)) }
{
    if rest.first() == Some(&'{') {
        let (length, point) = braced(rest.split_at(1).1)?;
        return Some((1 + length, point));
    }
    let code = hexadecimal(4, rest)?;
    Some((4, Some(code)))
}

/// What `\` is followed by: how many characters, and the code point that they stand for, if any.
fn escape_at(rest: &[char]) -> Option<(usize, Option<u32>)>
    ensures value { result ≡ escape_at rest.now }
    ensures bound { IfSome result (FitsPart (length rest.now)) }
{
    let (first, later) = rest.split_first()?;
    match *first {
        '0' => {
            if later.first().is_some_and(|c| c.is_digit(10)) {
                None
            } else {
                Some((1, Some(0)))
            }
        }
        '1'..='9' => None,
        'x' => {
            let code = hexadecimal(2, later)?;
            Some((3, Some(code)))
        }
        'u' => {
            let (length, point) = unicode_escape(later)?;
            Some((1 + length, point))
        }
        '\r' if later.first() == Some(&'\n') => Some((2, None)),
        other if is_line_terminator(other) => Some((1, None)),
        other => Some((1, Some(u32::from(escaped(other))))),
    }
}

/// One part of a text: how many characters, and the code point that they stand for, if any.
pub fn part_at(rest: &[char]) -> Option<(usize, Option<u32>)>
    ensures value { result ≡ part_at rest.now }
    ensures bound { IfSome result (FitsPart (length rest.now)) }
{
    let (first, later) = rest.split_first()?;
    match *first {
        '\n' | '\r' => None,
        '\\' => {
            let (length, point) = escape_at(later)?;
            Some((1 + length, point))
        }
        other => Some((1, Some(u32::from(other)))),
    }
}
