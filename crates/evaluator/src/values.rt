//! Values in a running body: what needs no question.

ghost use Rattle.std.specs.Prelude.{◌≡◌, ◌≤◌, ◌+ℤ◌, ◌-ℤ◌, ◌*ℤ◌, length, neg_ℤ, IfOk, OnOk};
ghost use Rattle.es_model.specs.Changes.{Interning, changed};
ghost use Rattle.es_model.specs.World.{World, number_of};
ghost use Rattle.evaluator.specs.Assignments.{stepped};
ghost use Rattle.evaluator.specs.Operators.{goes_right};
ghost use Rattle.evaluator.specs.References.{object_or_undefined};
ghost use Rattle.evaluator.specs.declared.references.Arithmetic.TheVariants as arithmetic;
ghost use Rattle.evaluator.specs.Values.{calculate, is_length, is_nullish, is_own_key, is_text, type_name, whole_of};
ghost use Rattle.object_heap.specs.Retains.{Retains};
ghost use Rattle.object_heap.specs.Stands.{Goes, StandsFor};

use crate::references::Arithmetic;
use crate::texts::{text_len, text_unit, units_of};
use es_model::StartText;
use es_tree::ShortOperator;
use object_heap::Heap;
use property_keys::{MOST_WHOLE, NoMemory, ObjectId, PropKey, TextId, Value};

/// A value, or undefined.
pub(crate) fn object_or_undefined(object: Option<ObjectId>) -> Value
    ensures { result ≡ object_or_undefined object }
{
    match object {
        None => Value::Undefined,
        Some(object) => Value::Object(object),
    }
}

fn is_nullish(value: Value) -> bool
    ensures { result ≡ is_nullish value }
{
    match value {
        Value::Undefined | Value::Null => true,
        Value::Bool(_) | Value::Whole(_) | Value::Text(_) | Value::Symbol(_) | Value::Object(_) =>
            false,
    }
}

/// Whether `&&`, `||` or `??` goes on to its right operand (13.13.1).
pub(crate) fn goes_right(heap: &Heap, operator: ShortOperator, value: Value) -> bool
    ensures { (w : World) → StandsFor heap.now w → result ≡ goes_right operator w.lists value }
{
    match operator {
        ShortOperator::And => heap.is_truth(value),
        ShortOperator::Or => !heap.is_truth(value),
        ShortOperator::Coalesce => is_nullish(value),
    }
}

pub(crate) fn is_text(value: Value) -> bool
    ensures { result ≡ is_text value }
{
    match value {
        Value::Text(_) => true,
        Value::Undefined
        | Value::Null
        | Value::Bool(_)
        | Value::Whole(_)
        | Value::Symbol(_)
        | Value::Object(_) => false,
    }
}

/// Whether a text has an own property as a String object has it (10.4.3).
pub(crate) fn is_own_key(heap: &Heap, text: TextId, key: PropKey) -> bool
    ensures { (w : World) → StandsFor heap.now w → result ≡ is_own_key w.lists text key }
{
    match key {
        PropKey::Index(index) => text_unit(heap, text, index).is_some(),
        PropKey::Name(name) => is_length(name),
        PropKey::Sym(_) => false,
    }
}

/// Whether a text is `length`.
pub(crate) fn is_length(text: TextId) -> bool
    ensures { result ≡ is_length text }
{
    text.0 == StartText::Length.number().0
}

// ---- numbers

/// A number, where it is one of the profile.
pub(crate) fn whole_of(n: i64) -> Option<i64>
    ensures { result ≡ whole_of n }
{
    if -MOST_WHOLE <= n && n <= MOST_WHOLE {
        Some(n)
    } else {
        None
    }
}

fn sum_of(a: i64, b: i64) -> Option<i64>
    ensures { result ≡ whole_of (a +ℤ b) }
{
    match a.checked_add(b) {
        Some(n) => whole_of(n),
        None => None,
    }
}

fn difference_of(a: i64, b: i64) -> Option<i64>
    ensures { result ≡ whole_of (a -ℤ b) }
{
    match a.checked_sub(b) {
        Some(n) => whole_of(n),
        None => None,
    }
}

fn product_of(a: i64, b: i64) -> Option<i64>
    ensures { result ≡ whole_of (a *ℤ b) }
{
    match a.checked_mul(b) {
        Some(n) => whole_of(n),
        None => None,
    }
}

fn remainder_of(a: i64, b: i64) -> Option<i64>
    ensures { result ≡ calculate arithmetic.Remainder a b }
{
    if b == 0 {
        return None;
    }
    match a.checked_rem(b) {
        Some(n) => whole_of(n),
        None => Some(0),
    }
}

/// The result of an operator on numbers (6.1.6.1), where it is one of the profile.
pub(crate) fn result_of(operator: Arithmetic, a: i64, b: i64) -> Option<i64>
    ensures { result ≡ calculate operator a b }
{
    match operator {
        Arithmetic::Add => sum_of(a, b),
        Arithmetic::Subtract => difference_of(a, b),
        Arithmetic::Multiply => product_of(a, b),
        Arithmetic::Remainder => remainder_of(a, b),
    }
}

/// The negative of a number.
pub(crate) fn negative_of(n: i64) -> Option<i64>
    ensures { result ≡ whole_of (neg_ℤ n) }
{
    match n.checked_neg() {
        Some(m) => whole_of(m),
        None => None,
    }
}

/// The number after, or before.
pub(crate) fn step(increment: bool, n: i64) -> Option<i64>
    ensures { result ≡ whole_of (stepped increment n) }
{
    if increment {
        sum_of(n, 1)
    } else {
        difference_of(n, 1)
    }
}

// ---- typeof (13.5.3)

/// The name of the value's type (table 41).
fn type_name(heap: &Heap, value: Value) -> &'static [u8]
    ensures name { (w : World) → StandsFor heap.now w → result.now ≡ type_name w.lists value }
    ensures short { length result.now ≤ 100 }
{
    match value {
        Value::Undefined => b"undefined",
        Value::Null => b"object",
        Value::Bool(_) => b"boolean",
        Value::Whole(_) => b"number",
        Value::Text(_) => b"string",
        Value::Symbol(_) => b"symbol",
        Value::Object(object) => {
            if heap.kind(object).is_callable() {
                b"function"
            } else {
                b"object"
            }
        }
    }
}

/// That name as a text.
pub(crate) fn type_text(heap: &mut Heap, value: Value) -> Result<TextId, NoMemory>
    ensures number { IfOk result (λ id. (w : World) → StandsFor heap.old w → id ≡ number_of w.lists (type_name w.lists value)) }
    ensures ok { OnOk result ((w : World) → StandsFor heap.old w → Goes heap.old heap.new w (changed (Interning (type_name w.lists value)) w)) }
    ensures retains { Retains heap.old heap.new }
{
    let name = units_of(heap.alloc(), type_name(heap, value))?;
    heap.intern(name)
}
