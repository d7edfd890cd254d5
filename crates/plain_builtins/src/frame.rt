//! The points at which an algorithm has asked, with what it needs once the answer is there.

use crate::arguments::Arguments;
use crate::words::{Collected, Field, Hint};
use descriptors::Descriptor;
use es_model::Values;
use property_keys::{ObjectId, Value};

/// A frame, by its subject.
#[derive(Drop)]
pub enum PlainFrame {
    Primitive(PrimitiveFrame),
    Converted(ConvertedFrame),
    Compared(ComparedFrame),
    Instance(InstanceFrame),
    Wanted(WantedFrame),
    Listed(ListedFrame),
    Printed(PrintedFrame),
}

/// An object that is converted, with the preferred type.
#[derive(Clone, Copy)]
pub struct Converting {
    pub hint: Hint,
    pub object: ObjectId,
}

/// ToPrimitive (ECMA-262, 7.1.1, 7.1.1.1).
#[derive(Drop)]
pub enum PrimitiveFrame {
    /// the method under @@toPrimitive (7.1.1, step 1.a)
    ExoticGiven(Converting),
    /// the first method of OrdinaryToPrimitive (7.1.1.1, step 3.a)
    FirstGiven(Converting),
    /// its call (7.1.1.1, step 3.b.i)
    FirstCalled(Converting),
    /// the second method
    SecondGiven(ObjectId),
    /// the call of the method that decides
    LastCalled,
}

/// What waits for ToPrimitive.
#[derive(Drop)]
pub enum ConvertedFrame {
    /// ToString (7.1.17, step 10)
    Text,
    /// ToNumber (7.1.4, step 8)
    Whole,
    /// ToPropertyKey (7.1.19, step 1)
    Key,
}

/// IsLooselyEqual and IsLessThan (ECMA-262, 7.2.14, 7.2.13), each with the other operand.
#[derive(Drop)]
pub enum ComparedFrame {
    /// the left operand is converted (7.2.14, step 12)
    EqualLeft(Value),
    /// the right operand is converted (7.2.14, step 11)
    EqualRight(Value),
    /// the left operand is converted first (7.2.13, step 1.a)
    LeftFirst(Value),
    /// the right operand after it (7.2.13, step 1.b)
    RightAfter(Value),
    /// the right operand is converted first (7.2.13, step 2.b)
    RightFirst(Value),
    /// the left operand after it (7.2.13, step 2.c)
    LeftAfter(Value),
}

/// The value and the target of InstanceofOperator.
#[derive(Clone, Copy)]
pub struct Handling {
    pub value: Value,
    pub target: ObjectId,
}

/// A walk up the prototypes of an object: how many rounds are left, and what is looked for.
#[derive(Clone, Copy)]
pub struct Walk {
    pub left: u64,
    pub wanted: ObjectId,
}

/// InstanceofOperator and OrdinaryHasInstance (ECMA-262, 13.10.2, 7.3.21).
#[derive(Drop)]
pub enum InstanceFrame {
    /// the method under @@hasInstance (13.10.2, step 2)
    HandlerGiven(Handling),
    /// its call (13.10.2, step 3.a)
    HandlerCalled,
    /// the property `prototype`, for this object (7.3.21, step 4)
    PrototypeGiven(ObjectId),
    /// [[GetPrototypeOf]] (7.3.21, step 6.a)
    ParentGiven(Walk),
}

/// A descriptor that is read from an object, up to this field.
#[derive(Clone, Copy)]
pub struct Reading {
    pub field: Field,
    pub object: ObjectId,
    pub descriptor: Descriptor,
}

/// ToPropertyDescriptor (ECMA-262, 6.2.6.5).
#[derive(Drop)]
pub enum WantedFrame {
    /// HasProperty
    FieldHad(Reading),
    /// Get
    FieldGiven(Reading),
}

/// The elements that are collected from an object: so many are left of so many.
#[derive(Drop)]
pub struct Listing {
    pub left: u64,
    pub length: u64,
    pub object: ObjectId,
    pub collected: Collected,
}

/// An object whose length is asked for, and where its elements go.
#[derive(Drop)]
pub struct Measuring {
    pub object: ObjectId,
    pub collected: Collected,
}

/// CreateListFromArrayLike (ECMA-262, 7.3.19).
#[derive(Drop)]
pub enum ListedFrame {
    /// the property `length` (7.3.18, step 1)
    LengthGot(Measuring),
    /// its number (7.1.20, step 1)
    LengthGiven(Measuring),
    /// an element (7.3.19, step 6.b)
    ElementGiven(Listing),
}

/// A line that is made of arguments.
#[derive(Drop)]
pub struct Line {
    pub left: Arguments,
    pub texts: Values,
}

/// The function that prints a line.
#[derive(Drop)]
pub enum PrintedFrame {
    /// the text of an argument
    ArgumentGiven(Line),
    LinePrinted,
}
