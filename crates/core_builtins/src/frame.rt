//! The points at which a built-in function has asked, with what it needs once the answer is there.

use es_model::{Class, ErrorKind};
use property_keys::{ObjectId, TextId, Value};

/// A frame, by its subject.
#[derive(Drop)]
pub enum CoreFrame {
    Function(FunctionFrame),
    Wrapper(WrapperFrame),
    Symbol(SymbolFrame),
    Error(ErrorFrame),
    ErrorText(ErrorTextFrame),
}

/// A function that is called with a receiver.
#[derive(Clone, Copy)]
pub struct Calling {
    pub function: Value,
    pub this: Value,
}

/// Function.prototype.call, apply and @@hasInstance (ECMA-262, 20.2.3.3, 20.2.3.1, 20.2.3.6).
#[derive(Drop)]
pub enum FunctionFrame {
    /// the list of arguments (20.2.3.1, step 4)
    ListGiven(Calling),
    /// the call of the receiver (20.2.3.3, step 4; 20.2.3.1, step 6)
    Called,
    /// OrdinaryHasInstance (20.2.3.6, step 2)
    InstanceGiven,
}

/// The value of a new Number or Boolean object, with the class of its prototype and the new target.
#[derive(Clone, Copy)]
pub struct Wrapping {
    pub class: Class,
    pub value: Value,
    pub target: ObjectId,
}

/// Boolean and Number, and Number.prototype.toString (ECMA-262, 20.3.1.1, 21.1.1.1, 21.1.3.6).
#[derive(Drop)]
pub enum WrapperFrame {
    /// the number that a call gives (21.1.1.1, step 1.a)
    NumberGiven,
    /// the number that is wrapped, with the new target (21.1.1.1, step 1.a)
    NumberToWrap(ObjectId),
    /// the radix in which this number is written (21.1.3.6, step 3)
    RadixGiven(i64),
    /// the value under "prototype" of the new target (10.1.14, step 2)
    PrototypeGiven(Wrapping),
}

/// Symbol (ECMA-262, 20.4.1.1).
#[derive(Drop)]
pub enum SymbolFrame {
    /// the description (step 3)
    DescriptionGiven,
}

/// A new error, before its object is there.
#[derive(Clone, Copy)]
pub struct Erring {
    pub kind: ErrorKind,
    pub target: ObjectId,
    pub message: Value,
    pub options: Value,
}

/// A new error, with the options that may have its cause.
#[derive(Clone, Copy)]
pub struct Installing {
    pub error: ObjectId,
    pub options: Value,
}

/// A new error, with the object that may have its cause.
#[derive(Clone, Copy)]
pub struct Causing {
    pub error: ObjectId,
    pub options: ObjectId,
}

/// The constructors of errors (ECMA-262, 20.5.1.1, 20.5.6.1.1).
#[derive(Drop)]
pub enum ErrorFrame {
    /// the value under "prototype" of the new target (10.1.14, step 2)
    PrototypeGiven(Erring),
    /// the text of the message (20.5.1.1, step 3.a)
    MessageGiven(Installing),
    /// whether there is a cause (20.5.8.1, step 1)
    CauseHad(Causing),
    /// the cause (20.5.8.1, step 1.a)
    CauseGiven(ObjectId),
}

/// Error.prototype.toString (ECMA-262, 20.5.3.4).
#[derive(Drop)]
pub enum ErrorTextFrame {
    /// the name (step 3)
    NameGot(ObjectId),
    /// its text (step 4)
    NameGiven(ObjectId),
    /// the message, with the text of the name (step 5)
    MessageGot(TextId),
    /// its text (step 6)
    MessageGiven(TextId),
}
