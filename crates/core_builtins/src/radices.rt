//! Number.prototype.toString (ECMA-262, 21.1.3.6), and Number::toString (6.1.6.1.20) of a whole number.

ghost use Rattle.std.specs.Prelude.{◌≡◌, ◌+◌, ◌≤◌, ◌<◌, ◌++◌, ◌∷◌, [], IfOk, OnOk, length};
ghost use Rattle.es_model.specs.Completions.{answered};
ghost use Rattle.es_model.specs.World.{World};
ghost use Rattle.object_heap.specs.Retains.{Retains};
ghost use Rattle.object_heap.specs.Turns.{KeepsNamed};
ghost use Rattle.core_builtins.specs.Names.{names_of};
ghost use Rattle.core_builtins.specs.Radices.{digit_unit, is_radix, number_to_string, radix_digits, radix_given, radix_text, radix_units, with_radix};
ghost use Rattle.core_builtins.specs.Turns.{StopsAt};

use crate::arguments::{first_of, inner_value};
use crate::asking::one;
use crate::frame::{CoreFrame, WrapperFrame};
use crate::throwing::{throw_error, wrong_value};
use es_model::{Completion, ErrorKind, Operation, Reply, Request, Stop, Turn, Values};
use object_heap::Heap;
use property_keys::{KeyFault, Ledger, NoMemory, Steps, Units, Value};
use std::alloc::Global;

/// How many digits a number has at most.
const MOST_DIGITS: u32 = 53;

fn digit_unit(digit: u16) -> u16
    requires { digit < 36 }
    ensures { result ≡ digit_unit digit }
{
    if digit < 10 { 48 + digit } else { 87 + digit }
}

/// One unit more.
fn put_unit(units: &mut Units, unit: u16) -> Result<(), NoMemory>
    requires { length units.old ≤ 100 }
    ensures { OnOk result (units.new ≡ units.old ++ unit ∷ []) }
{
    match units.push(unit) {
        Ok(()) => Ok(()),
        Err(KeyFault::NoMemory) => Err(NoMemory),
        Err(KeyFault::TooLong) => unreachable!(),
    }
}

/// Up to so many digits of a number.
#[tactic(auto, using(crate::proofs::RadixDigits::no_digits, crate::proofs::RadixDigits::last_digit, crate::proofs::RadixDigits::more_digits, crate::proofs::RadixDigits::room_after))]
fn put_digits(units: &mut Units, left: u32, radix: u64, n: u64) -> Result<(), NoMemory>
    requires { (2 ≤ radix) × (radix ≤ 36) × (length units.old + left ≤ 100) }
    ensures { OnOk result (units.new ≡ units.old ++ radix_digits left radix n) }
{
    if left == 0 {
        return Ok(());
    }
    let unit = digit_unit((n % radix) as u16);
    if n / radix == 0 {
        return put_unit(units, unit);
    }
    put_digits(units, left - 1, radix, n / radix)?;
    put_unit(units, unit)
}

/// The text of a number in a radix.
fn radix_units(alloc: Global, radix: u64, x: i64) -> Result<Units, NoMemory>
    requires { (2 ≤ radix) × (radix ≤ 36) }
    ensures { IfOk result (λ units. units ≡ radix_units radix x) }
{
    let mut units = Units::new(alloc);
    if x < 0 {
        put_unit(&mut units, 45)?;
    }
    put_digits(&mut units, MOST_DIGITS, radix, x.unsigned_abs())?;
    Ok(units)
}

fn is_radix(radix: i64) -> bool
    ensures { result ≡ is_radix radix }
{
    2 <= radix && radix <= 36
}

/// Steps 4 and 5.
fn radix_text<L: Ledger>(
    alloc: Global,
    heap: &mut Heap,
    x: i64,
    radix: i64,
    steps: &mut Steps<L>,
) -> Result<Turn<CoreFrame>, Stop>
    ensures stops { StopsAt heap.old heap.new (radix_text x radix) result }
    ensures named { (w : World) → KeepsNamed names_of w result }
    ensures retains { Retains heap.old heap.new }
{
    if is_radix(radix) {
        let units = radix_units(alloc, radix.unsigned_abs(), x)?;
        let text = heap.intern(units)?;
        Ok(Turn::Done(Completion::Normal(Reply::Value(Value::Text(text)))))
    } else {
        throw_error(heap, ErrorKind::RangeError, b"invalid radix", steps)
    }
}

/// Steps 2 and 3.
fn with_radix<L: Ledger>(
    alloc: Global,
    heap: &mut Heap,
    radix: Value,
    x: i64,
    steps: &mut Steps<L>,
) -> Result<Turn<CoreFrame>, Stop>
    ensures stops { StopsAt heap.old heap.new (with_radix radix x) result }
    ensures named { (w : World) → KeepsNamed names_of w result }
    ensures retains { Retains heap.old heap.new }
{
    match radix {
        Value::Undefined => radix_text(alloc, heap, x, 10, steps),
        Value::Whole(n) => radix_text(alloc, heap, x, n, steps),
        Value::Null | Value::Bool(_) | Value::Text(_) | Value::Symbol(_) | Value::Object(_) => {
            let request = Request::Work {
                operation: Operation::ToWhole,
                operands: one(alloc, radix)?,
            };
            Ok(Turn::Ask(request, CoreFrame::Wrapper(WrapperFrame::RadixGiven(x))))
        }
    }
}

/// What follows step 3.
pub(crate) fn radix_given<L: Ledger>(
    alloc: Global,
    heap: &mut Heap,
    x: i64,
    answer: Completion,
    steps: &mut Steps<L>,
) -> Result<Turn<CoreFrame>, Stop>
    ensures stops { StopsAt heap.old heap.new (radix_given x (answered answer)) result }
    ensures named { (w : World) → KeepsNamed names_of w result }
    ensures retains { Retains heap.old heap.new }
{
    match answer.value() {
        Ok(Value::Whole(radix)) => radix_text(alloc, heap, x, radix, steps),
        Ok(_) => Ok(Turn::Done(Completion::Throw(Value::Undefined))),
        Err(thrown) => Ok(Turn::Done(Completion::Throw(thrown))),
    }
}

/// Number.prototype.toString (21.1.3.6).
pub(crate) fn number_to_string<L: Ledger>(
    alloc: Global,
    heap: &mut Heap,
    this: Value,
    arguments: &Values,
    steps: &mut Steps<L>,
) -> Result<Turn<CoreFrame>, Stop>
    ensures stops { StopsAt heap.old heap.new (number_to_string this arguments.now) result }
    ensures named { (w : World) → KeepsNamed names_of w result }
    ensures retains { Retains heap.old heap.new }
{
    match inner_value(heap, this) {
        Value::Whole(x) => with_radix(alloc, heap, first_of(arguments), x, steps),
        Value::Undefined
        | Value::Null
        | Value::Bool(_)
        | Value::Text(_)
        | Value::Symbol(_)
        | Value::Object(_) => wrong_value(heap, steps),
    }
}
