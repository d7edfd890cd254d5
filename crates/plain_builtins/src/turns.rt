//! The two calls of the crate: which function begins a request, and which goes on with an answer.

ghost use Rattle.std.specs.Prelude.{◌≡◌, [], ◌∷◌};
ghost use Rattle.es_model.specs.Belongs.{Belongs, HasNames};
ghost use Rattle.es_model.specs.Completions.{answered};
ghost use Rattle.es_model.specs.Fits.{IsKnownCompletion, IsKnownRequest};
ghost use Rattle.es_model.specs.Known.{AreKnown, IsKnown};
ghost use Rattle.es_model.specs.Program.{Of, Task, look};
ghost use Rattle.es_model.specs.Sound.{IsSound};
ghost use Rattle.es_model.specs.Stages.{stage_of};
ghost use Rattle.es_model.specs.World.{Lists, World};
ghost use Rattle.object_heap.specs.Retains.{Retains};
ghost use Rattle.object_heap.specs.Stands.{StandsFor};
ghost use Rattle.object_heap.specs.Stops.{Stops};
ghost use Rattle.object_heap.specs.Turns.{IsTurn, KeepsFor, KeepsNamed, StaysSound, world_after};
ghost use Rattle.plain_builtins.specs.Names.{AreKnownOperands, names_of, names_of_compared, names_of_instance, names_of_listed, names_of_primitive, names_of_printed, names_of_wanted};
ghost use Rattle.plain_builtins.specs.Plain.{call_by, callee_in, callee_of, construct_program, less_than_by, one_operand, operands_in, plain_program, row_program, three_operands, two_operands, work_of, work_program};
ghost use Rattle.plain_builtins.specs.Rests.{after_compared, after_converted, after_instance, after_listed, after_primitive, after_printed, after_wanted, program_after};
ghost use Rattle.plain_builtins.specs.Turns.{StopsAt};

use crate::comparing::{
    left_after, left_converted, left_first, less_than, loosely_equal, right_after, right_converted,
    right_first,
};
use crate::frame::{
    ComparedFrame, ConvertedFrame, InstanceFrame, ListedFrame, PlainFrame, PrimitiveFrame,
    PrintedFrame, WantedFrame,
};
use crate::instances::{
    handler_called, handler_given, instance_of, ordinary_has_instance, parent_given,
    prototype_given,
};
use crate::listing::{element_given, length_given, length_got, list_of};
use crate::numbers::{to_whole, whole_given};
use crate::primitives::{
    exotic_given, first_called, first_given, last_called, second_given, to_primitive,
};
use crate::printing::{argument_given, line_printed, print};
use crate::texts::{key_given, text_given, to_key, to_text};
use crate::throwing::{not_a_constructor, not_a_function};
use crate::wanting::{field_given, field_had, to_wanted};
use crate::words::{Callee, Collected, Hint, Operands};
use es_model::{
    Completion, Intrinsic, KeyList, ObjectKind, Operation, Request, Stop, Turn, Values,
};
use object_heap::Heap;
use property_keys::{Ledger, ObjectId, Steps, Value};
use std::alloc::Global;

/// The first turn of an abstract operation, of a call of a built-in function after its entering, or of a call or construction of what has no such method. An
/// internal method and a line of print are for other crates, and throw undefined here; so does a row that is not written yet.
///
/// Halted comes exactly where a charge does not fit: one turn for each method that OrdinaryToPrimitive tries, for each element of a list, for each round of
/// OrdinaryHasInstance, for each place at which two texts are compared, and for each argument of a line.
#[tactic(auto, using(object_heap::proofs::Turns::turn_of, object_heap::proofs::Turns::sound_of, object_heap::proofs::Turns::named_of, crate::proofs::KeptPlain::plain_kept))]
pub fn start<L: Ledger>(
    alloc: Global,
    heap: &mut Heap,
    request: &Request,
    steps: &mut Steps<L>,
) -> Result<Turn<PlainFrame>, Stop>
    ensures stops { (w : World) → StandsFor heap.old w → Stops program_after heap.old heap.new w (stage_of (plain_program request.now) w) result }
    ensures turn { (w : World) → StandsFor heap.old w → IsTurn program_after heap.old heap.new (plain_program request.now) w result }
    ensures sound { (w : World) → StandsFor heap.old w → IsSound w → IsKnownRequest w.lists request.now → StaysSound program_after (Of request.now) (world_after (plain_program request.now) w) result }
    ensures belongs { (w : World) → StandsFor heap.old w → IsKnownRequest w.lists request.now → KeepsNamed names_of (world_after (plain_program request.now) w) result }
    ensures retains { Retains heap.old heap.new }
{
    first_turn(alloc, heap, request, steps)
}

/// The next turn of a frame, with the answer to what it asked.
///
/// Halted comes exactly where a charge does not fit.
#[tactic(auto, using(object_heap::proofs::Turns::turn_of, object_heap::proofs::Turns::sound_of, object_heap::proofs::Turns::named_of))]
pub fn resume<L: Ledger>(
    alloc: Global,
    heap: &mut Heap,
    frame: PlainFrame,
    answer: Completion,
    steps: &mut Steps<L>,
) -> Result<Turn<PlainFrame>, Stop>
    ensures stops { (w : World) → StandsFor heap.old w → Stops program_after heap.old heap.new w (stage_of (program_after frame (answered answer)) w) result }
    ensures turn { (w : World) → StandsFor heap.old w → IsTurn program_after heap.old heap.new (program_after frame (answered answer)) w result }
    ensures sound { (started : Task) (w : World) → StandsFor heap.old w → KeepsFor started (program_after frame (answered answer)) w → StaysSound program_after started (world_after (program_after frame (answered answer)) w) result }
    ensures belongs { (w : World) → StandsFor heap.old w → Belongs names_of w frame → IsKnownCompletion w.lists (answered answer) → KeepsNamed names_of (world_after (program_after frame (answered answer)) w) result }
    ensures retains { Retains heap.old heap.new }
{
    next_turn(alloc, heap, frame, answer, steps)
}

fn first_turn<L: Ledger>(
    alloc: Global,
    heap: &mut Heap,
    request: &Request,
    steps: &mut Steps<L>,
) -> Result<Turn<PlainFrame>, Stop>
    ensures stops { StopsAt heap.old heap.new (plain_program request.now) result }
    ensures named { (w : World) → IsKnownRequest w.lists request.now → KeepsNamed names_of w result }
    ensures retains { Retains heap.old heap.new }
{
    match request {
        Request::Work {
            operation,
            operands,
        } => work(alloc, heap, *operation, operands, steps),
        Request::Call {
            function,
            arguments,
            ..
        } => call(alloc, heap, *function, arguments, steps),
        Request::Construct { function, .. } => construct(heap, *function, steps),
        Request::GetOwn { .. }
        | Request::Define { .. }
        | Request::Has { .. }
        | Request::Read { .. }
        | Request::Write { .. }
        | Request::Delete { .. }
        | Request::Keys { .. }
        | Request::Proto { .. }
        | Request::SetProto { .. }
        | Request::Extensible { .. }
        | Request::Prevent { .. }
        | Request::Print { .. } => Ok(Turn::Done(Completion::Throw(Value::Undefined))),
    }
}

/// An abstract operation, by the number of its operands.
fn work<L: Ledger>(
    alloc: Global,
    heap: &mut Heap,
    operation: Operation,
    operands: &Values,
    steps: &mut Steps<L>,
) -> Result<Turn<PlainFrame>, Stop>
    ensures stops { StopsAt heap.old heap.new (work_program operation operands.now) result }
    ensures named { (w : World) → AreKnown w.lists operands.now → KeepsNamed names_of w result }
    ensures retains { Retains heap.old heap.new }
{
    match operands_in(operands) {
        Operands::One(value) => one_operand(alloc, heap, operation, value, steps),
        Operands::Two(left, right) => two_operands(alloc, heap, operation, left, right, steps),
        Operands::Three(left, right, last) => {
            three_operands(alloc, heap, operation, left, right, last, steps)
        }
        Operands::OtherCount => Ok(Turn::Done(Completion::Throw(Value::Undefined))),
    }
}

fn operands_in(operands: &Values) -> Operands
    ensures operands { result ≡ operands_in operands.now }
    ensures known { (l : Lists) → AreKnown l operands.now → AreKnownOperands l result }
{
    match operands.len() {
        1 => Operands::One(*operands.at(0)),
        2 => Operands::Two(*operands.at(0), *operands.at(1)),
        3 => Operands::Three(*operands.at(0), *operands.at(1), *operands.at(2)),
        _ => Operands::OtherCount,
    }
}

fn one_operand<L: Ledger>(
    alloc: Global,
    heap: &mut Heap,
    operation: Operation,
    value: Value,
    steps: &mut Steps<L>,
) -> Result<Turn<PlainFrame>, Stop>
    ensures stops { StopsAt heap.old heap.new (one_operand operation value) result }
    ensures named { (w : World) → IsKnown w.lists value → KeepsNamed names_of w result }
    ensures retains { Retains heap.old heap.new }
{
    match operation {
        Operation::ToPrimitiveDefault => to_primitive(heap, Hint::Default, value),
        Operation::ToPrimitiveNumber => to_primitive(heap, Hint::Number, value),
        Operation::ToPrimitiveText => to_primitive(heap, Hint::Text, value),
        Operation::ToText => to_text(alloc, heap, value, steps),
        Operation::ToWhole => to_whole(alloc, heap, value, steps),
        Operation::ToKey => to_key(alloc, heap, value, steps),
        Operation::ToWanted => to_wanted(heap, value, steps),
        Operation::ListFromArrayLike => {
            let values = Collected::Values(Values::new(alloc));
            list_of(heap, value, values, steps)
        }
        Operation::KeysFromArrayLike => {
            let keys = Collected::Keys(KeyList::new(alloc));
            list_of(heap, value, keys, steps)
        }
        Operation::InstanceOf
        | Operation::OrdinaryHasInstance
        | Operation::LooselyEqual
        | Operation::LessThan => Ok(Turn::Done(Completion::Throw(Value::Undefined))),
    }
}

fn two_operands<L: Ledger>(
    alloc: Global,
    heap: &mut Heap,
    operation: Operation,
    left: Value,
    right: Value,
    steps: &mut Steps<L>,
) -> Result<Turn<PlainFrame>, Stop>
    ensures stops { StopsAt heap.old heap.new (two_operands operation left right) result }
    ensures named { (w : World) → IsKnown w.lists left → IsKnown w.lists right → KeepsNamed names_of w result }
    ensures retains { Retains heap.old heap.new }
{
    match operation {
        Operation::InstanceOf => instance_of(heap, left, right, steps),
        Operation::OrdinaryHasInstance => ordinary_has_instance(heap, left, right),
        Operation::LooselyEqual => loosely_equal(alloc, heap, left, right, steps),
        Operation::ToPrimitiveDefault
        | Operation::ToPrimitiveNumber
        | Operation::ToPrimitiveText
        | Operation::ToText
        | Operation::ToWhole
        | Operation::ToKey
        | Operation::ToWanted
        | Operation::ListFromArrayLike
        | Operation::KeysFromArrayLike
        | Operation::LessThan => Ok(Turn::Done(Completion::Throw(Value::Undefined))),
    }
}

/// The last operand is the standard's LeftFirst.
fn three_operands<L: Ledger>(
    alloc: Global,
    heap: &mut Heap,
    operation: Operation,
    left: Value,
    right: Value,
    last: Value,
    steps: &mut Steps<L>,
) -> Result<Turn<PlainFrame>, Stop>
    ensures stops { StopsAt heap.old heap.new (three_operands operation left right last) result }
    ensures named { (w : World) → IsKnown w.lists left → IsKnown w.lists right → KeepsNamed names_of w result }
    ensures retains { Retains heap.old heap.new }
{
    match operation {
        Operation::LessThan => less_than_by(alloc, heap, left, right, last, steps),
        Operation::ToPrimitiveDefault
        | Operation::ToPrimitiveNumber
        | Operation::ToPrimitiveText
        | Operation::ToText
        | Operation::ToWhole
        | Operation::ToKey
        | Operation::ToWanted
        | Operation::ListFromArrayLike
        | Operation::KeysFromArrayLike
        | Operation::InstanceOf
        | Operation::OrdinaryHasInstance
        | Operation::LooselyEqual => Ok(Turn::Done(Completion::Throw(Value::Undefined))),
    }
}

fn less_than_by<L: Ledger>(
    alloc: Global,
    heap: &mut Heap,
    left: Value,
    right: Value,
    last: Value,
    steps: &mut Steps<L>,
) -> Result<Turn<PlainFrame>, Stop>
    ensures stops { StopsAt heap.old heap.new (less_than_by left right last) result }
    ensures named { (w : World) → IsKnown w.lists left → IsKnown w.lists right → KeepsNamed names_of w result }
    ensures retains { Retains heap.old heap.new }
{
    match last {
        Value::Bool(left_first) => less_than(alloc, heap, left, right, left_first, steps),
        Value::Undefined
        | Value::Null
        | Value::Whole(_)
        | Value::Text(_)
        | Value::Symbol(_)
        | Value::Object(_) => Ok(Turn::Done(Completion::Throw(Value::Undefined))),
    }
}

/// A call: of a built-in function after its entering, or of what is no function.
fn call<L: Ledger>(
    alloc: Global,
    heap: &mut Heap,
    function: Value,
    arguments: &Values,
    steps: &mut Steps<L>,
) -> Result<Turn<PlainFrame>, Stop>
    ensures stops { StopsAt heap.old heap.new (look (λ l. call_by (callee_in l function) arguments.now)) result }
    ensures named { (w : World) → AreKnown w.lists arguments.now → KeepsNamed names_of w result }
    ensures retains { Retains heap.old heap.new }
{
    match callee_in(heap, function) {
        Callee::Row(row) => row_turn(alloc, heap, row, arguments),
        Callee::Elsewhere => Ok(Turn::Done(Completion::Throw(Value::Undefined))),
        Callee::NoFunction => not_a_function(heap, steps),
    }
}

fn callee_in(heap: &Heap, function: Value) -> Callee
    ensures { (w : World) → StandsFor heap.now w → result ≡ callee_in w.lists function }
{
    match function {
        Value::Object(object) => callee_of(heap.kind(object)),
        Value::Undefined
        | Value::Null
        | Value::Bool(_)
        | Value::Whole(_)
        | Value::Text(_)
        | Value::Symbol(_) => Callee::NoFunction,
    }
}

fn callee_of(kind: &ObjectKind) -> Callee
    ensures { result ≡ callee_of kind.now }
{
    match kind {
        ObjectKind::Builtin { row, .. } => Callee::Row(*row),
        ObjectKind::Function { .. } => Callee::Elsewhere,
        ObjectKind::Proxy { callable, .. } => {
            if *callable {
                Callee::Elsewhere
            } else {
                Callee::NoFunction
            }
        }
        ObjectKind::Ordinary
        | ObjectKind::Array
        | ObjectKind::Text(_)
        | ObjectKind::Wrapper(_)
        | ObjectKind::Arguments { .. }
        | ObjectKind::Error => Callee::NoFunction,
    }
}

/// A built-in function, by its row.
fn row_turn(
    alloc: Global,
    heap: &mut Heap,
    row: u32,
    arguments: &Values,
) -> Result<Turn<PlainFrame>, Stop>
    ensures stops { StopsAt heap.old heap.new (row_program row arguments.now) result }
    ensures named { (w : World) → AreKnown w.lists arguments.now → KeepsNamed names_of w result }
    ensures retains { Retains heap.old heap.new }
{
    if row == Intrinsic::Print.object().0 {
        print(alloc, heap, arguments)
    } else {
        Ok(Turn::Done(Completion::Throw(Value::Undefined)))
    }
}

/// A construction by what is no constructor. No constructor is written yet.
fn construct<L: Ledger>(
    heap: &mut Heap,
    function: ObjectId,
    steps: &mut Steps<L>,
) -> Result<Turn<PlainFrame>, Stop>
    ensures stops { StopsAt heap.old heap.new (construct_program function) result }
    ensures named { (w : World) → KeepsNamed names_of w result }
    ensures retains { Retains heap.old heap.new }
{
    if heap.kind(function).is_constructor() {
        Ok(Turn::Done(Completion::Throw(Value::Undefined)))
    } else {
        not_a_constructor(heap, steps)
    }
}

fn next_turn<L: Ledger>(
    alloc: Global,
    heap: &mut Heap,
    frame: PlainFrame,
    answer: Completion,
    steps: &mut Steps<L>,
) -> Result<Turn<PlainFrame>, Stop>
    ensures stops { StopsAt heap.old heap.new (program_after frame (answered answer)) result }
    ensures named { (w : World) → StandsFor heap.old w → Belongs names_of w frame → IsKnownCompletion w.lists (answered answer) → KeepsNamed names_of w result }
    ensures retains { Retains heap.old heap.new }
{
    match frame {
        PlainFrame::Primitive(frame) => after_primitive(alloc, heap, frame, answer, steps),
        PlainFrame::Converted(frame) => after_converted(heap, frame, answer, steps),
        PlainFrame::Compared(frame) => after_compared(alloc, heap, frame, answer, steps),
        PlainFrame::Instance(frame) => after_instance(alloc, heap, frame, answer, steps),
        PlainFrame::Wanted(frame) => after_wanted(heap, frame, answer, steps),
        PlainFrame::Listed(frame) => after_listed(alloc, heap, frame, answer, steps),
        PlainFrame::Printed(frame) => after_printed(alloc, heap, frame, answer),
    }
}

fn after_primitive<L: Ledger>(
    alloc: Global,
    heap: &mut Heap,
    frame: PrimitiveFrame,
    answer: Completion,
    steps: &mut Steps<L>,
) -> Result<Turn<PlainFrame>, Stop>
    ensures stops { StopsAt heap.old heap.new (after_primitive frame (answered answer)) result }
    ensures named { (w : World) → HasNames w.script w.lists (names_of_primitive frame) → IsKnownCompletion w.lists (answered answer) → KeepsNamed names_of w result }
    ensures retains { Retains heap.old heap.new }
{
    match frame {
        PrimitiveFrame::ExoticGiven(converting) => {
            exotic_given(alloc, heap, converting, answer, steps)
        }
        PrimitiveFrame::FirstGiven(converting) => first_given(alloc, heap, converting, answer),
        PrimitiveFrame::FirstCalled(converting) => first_called(heap, converting, answer),
        PrimitiveFrame::SecondGiven(object) => second_given(alloc, heap, object, answer, steps),
        PrimitiveFrame::LastCalled => last_called(heap, answer, steps),
    }
}

fn after_converted<L: Ledger>(
    heap: &mut Heap,
    frame: ConvertedFrame,
    answer: Completion,
    steps: &mut Steps<L>,
) -> Result<Turn<PlainFrame>, Stop>
    ensures stops { StopsAt heap.old heap.new (after_converted frame (answered answer)) result }
    ensures named { (w : World) → IsKnownCompletion w.lists (answered answer) → KeepsNamed names_of w result }
    ensures retains { Retains heap.old heap.new }
{
    match frame {
        ConvertedFrame::Text => text_given(heap, answer, steps),
        ConvertedFrame::Whole => whole_given(heap, answer, steps),
        ConvertedFrame::Key => key_given(heap, answer, steps),
    }
}

fn after_compared<L: Ledger>(
    alloc: Global,
    heap: &mut Heap,
    frame: ComparedFrame,
    answer: Completion,
    steps: &mut Steps<L>,
) -> Result<Turn<PlainFrame>, Stop>
    ensures stops { StopsAt heap.old heap.new (after_compared frame (answered answer)) result }
    ensures named { (w : World) → HasNames w.script w.lists (names_of_compared frame) → IsKnownCompletion w.lists (answered answer) → KeepsNamed names_of w result }
    ensures retains { Retains heap.old heap.new }
{
    match frame {
        ComparedFrame::EqualLeft(right) => left_converted(heap, right, answer, steps),
        ComparedFrame::EqualRight(left) => right_converted(heap, left, answer, steps),
        ComparedFrame::LeftFirst(right) => left_first(alloc, heap, right, answer, steps),
        ComparedFrame::RightAfter(left) => right_after(heap, left, answer, steps),
        ComparedFrame::RightFirst(left) => right_first(alloc, heap, left, answer, steps),
        ComparedFrame::LeftAfter(right) => left_after(heap, right, answer, steps),
    }
}

fn after_instance<L: Ledger>(
    alloc: Global,
    heap: &mut Heap,
    frame: InstanceFrame,
    answer: Completion,
    steps: &mut Steps<L>,
) -> Result<Turn<PlainFrame>, Stop>
    ensures stops { StopsAt heap.old heap.new (after_instance frame (answered answer)) result }
    ensures named { (w : World) → HasNames w.script w.lists (names_of_instance frame) → IsKnownCompletion w.lists (answered answer) → KeepsNamed names_of w result }
    ensures retains { Retains heap.old heap.new }
{
    match frame {
        InstanceFrame::HandlerGiven(handling) => {
            handler_given(alloc, heap, handling, answer, steps)
        }
        InstanceFrame::HandlerCalled => handler_called(heap, answer),
        InstanceFrame::PrototypeGiven(object) => prototype_given(heap, object, answer, steps),
        InstanceFrame::ParentGiven(walk) => parent_given(heap, walk, answer),
    }
}

fn after_wanted<L: Ledger>(
    heap: &mut Heap,
    frame: WantedFrame,
    answer: Completion,
    steps: &mut Steps<L>,
) -> Result<Turn<PlainFrame>, Stop>
    ensures stops { StopsAt heap.old heap.new (after_wanted frame (answered answer)) result }
    ensures named { (w : World) → HasNames w.script w.lists (names_of_wanted frame) → IsKnownCompletion w.lists (answered answer) → KeepsNamed names_of w result }
    ensures retains { Retains heap.old heap.new }
{
    match frame {
        WantedFrame::FieldHad(reading) => field_had(heap, reading, answer, steps),
        WantedFrame::FieldGiven(reading) => field_given(heap, reading, answer, steps),
    }
}

fn after_listed<L: Ledger>(
    alloc: Global,
    heap: &mut Heap,
    frame: ListedFrame,
    answer: Completion,
    steps: &mut Steps<L>,
) -> Result<Turn<PlainFrame>, Stop>
    ensures stops { StopsAt heap.old heap.new (after_listed frame (answered answer)) result }
    ensures named { (w : World) → StandsFor heap.old w → HasNames w.script w.lists (names_of_listed frame) → IsKnownCompletion w.lists (answered answer) → KeepsNamed names_of w result }
    ensures retains { Retains heap.old heap.new }
{
    match frame {
        ListedFrame::LengthGot(measuring) => length_got(alloc, heap, measuring, answer),
        ListedFrame::LengthGiven(measuring) => length_given(heap, measuring, answer),
        ListedFrame::ElementGiven(listing) => element_given(heap, listing, answer, steps),
    }
}

fn after_printed(
    alloc: Global,
    heap: &mut Heap,
    frame: PrintedFrame,
    answer: Completion,
) -> Result<Turn<PlainFrame>, Stop>
    ensures stops { StopsAt heap.old heap.new (after_printed frame (answered answer)) result }
    ensures named { (w : World) → HasNames w.script w.lists (names_of_printed frame) → IsKnownCompletion w.lists (answered answer) → KeepsNamed names_of w result }
    ensures retains { Retains heap.old heap.new }
{
    match frame {
        PrintedFrame::ArgumentGiven(line) => argument_given(alloc, heap, line, answer),
        PrintedFrame::LinePrinted => line_printed(heap, answer),
    }
}
