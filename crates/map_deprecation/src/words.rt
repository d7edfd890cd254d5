//! What the word of a field stands for.

ghost use Rattle.std.specs.Prelude.{◌≡◌, ◌<◌, ◌%◌, ◌^◌, ◌≤ℤ◌, ◌<ℤ◌, ◌+ℤ◌, pos, true};
ghost use Rattle.property_keys.specs.Wholes.{IsWhole};
ghost use Rattle.map_deprecation.specs.Classes.{value_class, of_class, is_at_or_above};
ghost use Rattle.map_deprecation.specs.Words.{IsGoodValue, word_of, value_of, small_bits, small_of, raised, lowered, tagged_value};

use map_store::Representation;
use property_keys::{MOST_WHOLE, ObjectId, SymbolId, TextId, Value};

/// The word of a value in a field of a representation that takes it.
pub fn encode(value: Value, representation: Representation) -> u64
    requires good { IsGoodValue value }
    requires taken { is_at_or_above representation (of_class (value_class value)) ≡ true }
    ensures { result ≡ word_of value representation }
{
    match value {
        Value::Undefined => 0,
        Value::Null => 1,
        Value::Bool(truth) => 2 + 8 * u64::from(truth),
        Value::Whole(n) => number_word(n, representation),
        Value::Text(id) => 4 + 8 * u64::from(id.0),
        Value::Symbol(id) => 5 + 8 * u64::from(id.0),
        Value::Object(id) if representation == Representation::Ref => u64::from(id.0),
        Value::Object(id) => 6 + 8 * u64::from(id.0),
    }
}

/// The word of a whole number.
fn number_word(n: i64, representation: Representation) -> u64
    requires good { IsWhole n }
    requires taken { is_at_or_above representation (of_class (value_class (Value.Whole n))) ≡ true }
    ensures { result ≡ word_of (Value.Whole n) representation }
{
    match representation {
        Representation::Smi => small_word(n),
        Representation::Whole => whole_word(n),
        _ => 3 + 8 * whole_word(n),
    }
}

/// The value of a word that `encode` gives for this representation.
pub fn decode(word: u64, representation: Representation) -> Value
    ensures { result ≡ value_of word representation }
{
    match representation {
        Representation::None | Representation::Pair => Value::Undefined,
        Representation::Smi => Value::Whole(small_number(word % 0x1_0000_0000)),
        Representation::Whole => Value::Whole(whole_number(word % 0x40_0000_0000_0000)),
        Representation::Ref => Value::Object(ObjectId(number(word))),
        Representation::Tagged => tagged(word % 8, word / 8),
    }
}

/// The 32 bits of a number.
fn small_word(n: i64) -> u64
    requires low { pos 0 ≤ℤ (n +ℤ pos (2 ^ 31)) }
    requires high { n <ℤ pos (2 ^ 31) }
    ensures { result ≡ small_bits n }
{
    if n < 0 {
        (n + 0x1_0000_0000) as u64
    } else {
        n as u64
    }
}

/// The sum of a number and the greatest number.
fn whole_word(n: i64) -> u64
    requires { IsWhole n }
    ensures { result ≡ raised n }
{
    (n + MOST_WHOLE) as u64
}

/// The number of 32 bits.
fn small_number(bits: u64) -> i64
    requires { bits < 2 ^ 32 }
    ensures { result ≡ small_of bits }
{
    if bits < 0x8000_0000 {
        bits as i64
    } else {
        bits as i64 - 0x1_0000_0000
    }
}

/// The number whose sum with the greatest number this is.
fn whole_number(sum: u64) -> i64
    requires { sum < 2 ^ 63 }
    ensures { result ≡ lowered sum }
{
    sum as i64 - MOST_WHOLE
}

/// The number of a text, a Symbol or an object.
fn number(rest: u64) -> u32
    ensures { result ≡ rest % 2 ^ 32 }
{
    (rest % 0x1_0000_0000) as u32
}

/// The value of a tag and the rest of a word.
fn tagged(tag: u64, rest: u64) -> Value
    requires { rest < 2 ^ 61 }
    ensures { result ≡ tagged_value tag rest }
{
    match tag {
        0 => Value::Undefined,
        1 => Value::Null,
        2 => Value::Bool(rest == 1),
        3 => Value::Whole(whole_number(rest)),
        4 => Value::Text(TextId(number(rest))),
        5 => Value::Symbol(SymbolId(number(rest))),
        _ => Value::Object(ObjectId(number(rest))),
    }
}
