//! What a word of a class stands for.

ghost use Rattle.std.specs.Prelude.{◌≡◌, ◌<◌, ◌-◌, ◌^◌, IfSome, IsTrue};
ghost use Rattle.elements_kinds.specs.Words.{IsGoodValue, decoded, hole_of, smi_of, tagged_of, takes, whole_of};
ghost use Rattle.property_keys.specs.Wholes.{IsWhole};
ghost use Rattle.elements_kinds.specs.Kinds.{is_smi, join};

use crate::kinds::Class;
use property_keys::{MOST_WHOLE, ObjectId, SymbolId, TextId, Value};

/// So many words stand for small numbers.
const SMI_WORDS: u64 = 0x1_0000_0000;

/// So many words stand for whole numbers, 2^54 - 1.
const WHOLE_WORDS: u64 = 0x3F_FFFF_FFFF_FFFF;

/// The word of an absent index.
pub(crate) fn hole(class: Class) -> u64
    ensures { result ≡ hole_of class }
{
    match class {
        Class::Smi => 0x1_0000_0000,
        Class::Whole => 0x8000_0000_0000_0000,
        Class::Tagged => 7,
    }
}

/// The word of a value that a store of this class can hold.
pub(crate) fn encode(class: Class, value: Value) -> u64
    requires takes { IsTrue (takes class value) }
    requires good { IsGoodValue value }
    ensures { decoded class result ≡ Some value }
{
    match (class, value) {
        (Class::Smi, Value::Whole(n)) => smi_word(n),
        (Class::Whole, Value::Whole(n)) => whole_word(n),
        (_, value) => tagged_word(value),
    }
}

/// The 32 bits of a number from -2^31 to 2^31 - 1.
fn smi_word(n: i64) -> u64
    requires { IsTrue (is_smi n) }
    ensures word { decoded Class.Smi result ≡ Some (Value.Whole n) }
{
    if n < 0 {
        (n + 0x1_0000_0000) as u64
    } else {
        n as u64
    }
}

/// The place of a number among all whole numbers.
fn whole_word(n: i64) -> u64
    requires { IsWhole n }
    ensures word { decoded Class.Whole result ≡ Some (Value.Whole n) }
    ensures rest { whole_of result ≡ n }
    ensures bound { result < 2 ^ 54 - 1 }
{
    (n + MOST_WHOLE) as u64
}

/// The low three bits are the kind of a value.
fn tagged_word(value: Value) -> u64
    requires { IsGoodValue value }
    ensures { decoded Class.Tagged result ≡ Some value }
{
    match value {
        Value::Undefined => 0,
        Value::Null => 1,
        Value::Bool(b) => if b { 10 } else { 2 },
        Value::Whole(n) => whole_word(n) * 8 + 3,
        Value::Text(id) => id.0 as u64 * 8 + 4,
        Value::Symbol(id) => id.0 as u64 * 8 + 5,
        Value::Object(id) => id.0 as u64 * 8 + 6,
    }
}

/// The value of a word, or None where it is the hole.
pub(crate) fn decode(class: Class, word: u64) -> Option<Value>
    ensures value { result ≡ decoded class word }
    ensures takes { IfSome result (λ value. IsTrue (takes class value)) }
    ensures good { IfSome result IsGoodValue }
{
    if word == hole(class) {
        return None;
    }
    Some(match class {
        Class::Smi => Value::Whole(smi(word % SMI_WORDS)),
        Class::Whole => Value::Whole(whole(word % WHOLE_WORDS)),
        Class::Tagged => tagged(word % 8, word / 8),
    })
}

/// The word of a class for what the word of a class below it stands for.
pub(crate) fn recoded(from: Class, to: Class, word: u64) -> u64
    requires { join from to ≡ to }
    ensures { decoded to result ≡ decoded from word }
{
    match decode(from, word) {
        Some(value) => encode(to, value),
        None => hole(to),
    }
}

fn smi(word: u64) -> i64
    requires { word < 2 ^ 32 }
    ensures value { result ≡ smi_of word }
    ensures small { IsTrue (is_smi result) }
{
    if word < 0x8000_0000 {
        word as i64
    } else {
        word as i64 - 0x1_0000_0000
    }
}

fn whole(word: u64) -> i64
    requires { word < 2 ^ 54 - 1 }
    ensures value { result ≡ whole_of word }
    ensures good { IsWhole result }
{
    word as i64 - MOST_WHOLE
}

fn tagged(kind: u64, rest: u64) -> Value
    ensures value { result ≡ tagged_of kind rest }
    ensures good { IsGoodValue result }
{
    let id = (rest % SMI_WORDS) as u32;
    match kind {
        0 => Value::Undefined,
        1 => Value::Null,
        2 => Value::Bool(rest == 1),
        3 => Value::Whole(whole(rest % WHOLE_WORDS)),
        4 => Value::Text(TextId(id)),
        5 => Value::Symbol(SymbolId(id)),
        _ => Value::Object(ObjectId(id)),
    }
}
