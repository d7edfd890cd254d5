//! Numbers and digits (ECMA-262, 12.9.3).

ghost use Rattle.std.specs.Prelude.{◌≡◌, ◌<◌, ◌≤◌, ◌+◌, ◌-◌, ◌^◌, ℕ, IfSome, IsTrue, length, take_while, min, option_map};
ghost use Rattle.std.specs.Char.{digit_value};
ghost use Rattle.std.specs.Str.Parse.{digits_value};
ghost use Rattle.es_source.specs.Characters.{is_digit_of, begins};
ghost use Rattle.es_source.specs.Forms.{base_named, digits_at, number_in, prefixed_number, decimal_number, number_of, number_at, spoils_number};
ghost use Rattle.script_syntax.specs.Limits.{limited};

use crate::characters::may_start_name;
use es_source::TokenKind;

/// The greatest number that a token may have.
const MOST: u64 = (1 << 53) - 1;

/// How many digits of a base stand at the front.
fn digit_count(base: u32, rest: &[char]) -> usize
    requires { (2 ≤ base) × (base ≤ 16) }
    ensures value { result ≡ length (digits_at base rest.now) }
    ensures bound { result ≤ length rest.now }
{
    rest.iter().take_while(|c| c.is_digit(base)).count()
}

/// The longest run of digits of a base at the front.
pub fn digits_at(base: u32, rest: &[char]) -> &[char]
    requires { (2 ≤ base) × (base ≤ 16) }
    ensures value { result.now ≡ digits_at base rest.now }
    ensures bound { length result.now ≤ length rest.now }
{
    rest.split_at(digit_count(base, rest)).0
}

/// What a character is worth as a digit of a base up to 36; 36 where it is no such digit.
fn digit_value(character: char) -> u32
    ensures { result ≡ digit_value character }
{
    character.to_digit(36).unwrap_or(36)
}

/// The number that digits write, and 2^64 - 1 for every greater one.
pub fn digits_value(base: u32, digits: &[char]) -> u64
    requires { (2 ≤ base) × (base ≤ 16) }
    ensures { result ≡ min (digits_value base digits.now) (2 ^ 64 - 1) }
{
    let mut value: u64 = 0;
    for digit in digits {
        value = value
            .saturating_mul(u64::from(base))
            .saturating_add(u64::from(digit_value(*digit)));
    }
    value
}

/// The base that the letter after a `0` names.
fn base_named(letter: char) -> Option<u32>
    ensures value { result ≡ base_named letter }
    ensures bound { IfSome result (λ base. (2 ≤ base) × (base ≤ 16)) }
{
    match letter {
        'x' | 'X' => Some(16),
        'o' | 'O' => Some(8),
        'b' | 'B' => Some(2),
        _ => None,
    }
}

/// The number after a prefix of two characters, where digits of its base stand there.
fn number_in(base: u32, rest: &[char]) -> Option<(u64, usize)>
    requires { (2 ≤ base) × (base ≤ 16) }
    ensures value { result ≡ option_map limited (number_in base rest.now) }
    ensures bound { IfSome result (λ number. (0 < number.1) × (number.1 ≤ 2 + length rest.now)) }
{
    let digits = digits_at(base, rest);
    if digits.is_empty() {
        return None;
    }
    Some((digits_value(base, digits), 2 + digits.len()))
}

/// The number with a prefix at the front.
fn prefixed_number(rest: &[char]) -> Option<(u64, usize)>
    ensures value { result ≡ option_map limited (prefixed_number rest.now) }
    ensures bound { IfSome result (λ number. (0 < number.1) × (number.1 ≤ length rest.now)) }
{
    let letter = rest.get(1)?;
    let base = base_named(*letter)?;
    number_in(base, rest.split_at(2).1)
}

/// The number without a prefix at the front.
fn decimal_number(rest: &[char]) -> (u64, usize)
    requires { IsTrue (begins (is_digit_of 10) rest.now) }
    ensures value { result ≡ limited (decimal_number rest.now) }
    ensures bound { (0 < result.1) × (result.1 ≤ length rest.now) }
{
    let digits = digits_at(10, rest);
    (digits_value(10, digits), digits.len())
}

/// The value of the longest number at the front, where that is at most 2^64 - 1, and how many characters it takes.
fn number_of(rest: &[char]) -> (u64, usize)
    requires { IsTrue (begins (is_digit_of 10) rest.now) }
    ensures value { result ≡ limited (number_of rest.now) }
    ensures bound { (0 < result.1) × (result.1 ≤ length rest.now) }
{
    if rest[0] == '0' {
        prefixed_number(rest).unwrap_or((0, 1))
    } else {
        decimal_number(rest)
    }
}

/// Whether the character may not stand directly after a number.
fn spoils_number(character: char) -> bool
    ensures { result ≡ spoils_number character }
{
    character == '.' || character.is_digit(10) || character == '\\' || may_start_name(character)
}

/// The number at the front.
pub fn number_at(rest: &[char]) -> Option<(TokenKind, usize)>
    requires { IsTrue (begins (is_digit_of 10) rest.now) }
    ensures value { result ≡ number_at rest.now }
    ensures bound { IfSome result (λ form. (0 < form.1) × (form.1 ≤ length rest.now)) }
{
    let (value, length) = number_of(rest);
    let later = rest.split_at(length).1;
    if value > MOST || later.first().is_some_and(|c| spoils_number(*c)) {
        return None;
    }
    Some((TokenKind::Number(value as i64), length))
}
