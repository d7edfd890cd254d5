//! The number of a text (7.1.4.1.1).

ghost use Rattle.std.specs.Prelude.{◌≡◌, ◌≢◌, ◌≤◌, ℕ, length, pos, neg_ℤ, ◌≤ℤ◌, option_map, IfSome};
ghost use Rattle.std.specs.Char.{digit_value};
ghost use Rattle.property_keys.specs.Numbers.{natural_of, decimal_of, radix_of_letter, radix_of, literal_of, number_of};
ghost use Rattle.property_keys.specs.Wholes.{IsWhole};

use crate::blanks::trim;

/// The greatest whole number, 2^53 - 1.
const MOST_WHOLE: u64 = crate::MOST_WHOLE as u64;

const PLUS: u16 = 43;

const MINUS: u16 = 45;

pub const ZERO: u16 = 48;

/// The number of a text (ECMA-262, 7.1.4.1.1), where it is a whole number.
pub fn number(text: &[u16]) -> Option<i64>
    ensures value { result ≡ number_of text.now }
    ensures range { IfSome result IsWhole }
{
    match trim(text) {
        [] => Some(0),
        rest => literal(rest),
    }
}

fn literal(text: &[u16]) -> Option<i64>
    ensures value { result ≡ literal_of text.now }
    ensures range { IfSome result IsWhole }
{
    match radix(text) {
        10 => decimal(text),
        radix => natural(radix, text.split_at(2).1),
    }
}

/// The base that a prefix names.
fn radix(text: &[u16]) -> u64
    ensures value { result ≡ radix_of text.now }
    ensures known { result ≤ 16 }
    ensures prefix { result ≢ 10 → 2 ≤ length text.now }
{
    match text {
        [ZERO, letter, ..] => radix_of_letter(*letter),
        _ => 10,
    }
}

fn radix_of_letter(letter: u16) -> u64
    ensures value { result ≡ radix_of_letter letter }
    ensures known { result ≤ 16 }
{
    match letter {
        88 | 120 => 16,
        79 | 111 => 8,
        66 | 98 => 2,
        _ => 10,
    }
}

fn decimal(text: &[u16]) -> Option<i64>
    ensures value { result ≡ decimal_of text.now }
    ensures range { IfSome result IsWhole }
{
    match text {
        [MINUS, digits @ ..] => negated(natural(10, digits)),
        [PLUS, digits @ ..] => natural(10, digits),
        digits => natural(10, digits),
    }
}

fn negated(number: Option<i64>) -> Option<i64>
    requires { IfSome number IsWhole }
    ensures value { result ≡ option_map neg_ℤ number }
    ensures range { IfSome result IsWhole }
{
    match number {
        Some(n) => Some(-n),
        None => None,
    }
}

/// The number that one digit or more of a base write, where it is at most 2^53 - 1.
pub fn natural(radix: u64, digits: &[u16]) -> Option<i64>
    requires { radix ≤ 16 }
    ensures value { result ≡ natural_of radix digits.now }
    ensures sign { IfSome result (λ n. pos 0 ≤ℤ n) }
    ensures range { IfSome result IsWhole }
{
    if digits.is_empty() {
        return None;
    }
    let mut value = 0;
    for unit in digits {
        let digit = digit(*unit);
        if digit >= radix {
            return None;
        }
        value = value * radix + digit;
        if value > MOST_WHOLE {
            return None;
        }
    }
    Some(value as i64)
}

/// The value of a digit or letter in a base up to 36, and 36 for everything else.
fn digit(unit: u16) -> u64
    ensures value { result ≡ digit_value unit }
    ensures bound { result ≤ 36 }
{
    match unit {
        48..=57 => u64::from(unit) - 48,
        65..=90 => u64::from(unit) - 55,
        97..=122 => u64::from(unit) - 87,
        _ => 36,
    }
}
