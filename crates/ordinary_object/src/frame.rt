//! The frames of the ordinary methods.

use property_keys::{ObjectId, PropKey, Value};

/// A [[Set]] that goes on to an object as its receiver.
#[derive(Clone, Copy, Debug)]
pub struct PendingSet {
    pub key: PropKey,
    pub value: Value,
    pub receiver: ObjectId,
}

/// The points at which an algorithm of an ordinary object has asked, with what it needs once the answer is there.
#[derive(Drop)]
pub enum OrdinaryFrame {
    /// [[HasProperty]] of the prototype (10.1.7.1, step 4.a)
    ParentHas,
    /// [[Get]] of the prototype (10.1.8.1, step 2.c)
    ParentGet,
    /// a getter (10.1.8.1, step 7)
    GetterCalled,
    /// [[Set]] of the prototype (10.1.9.2, step 1.b)
    ParentSet,
    /// [[GetOwnProperty]] of the receiver (10.1.9.2, step 2.c)
    ReceiverHad(PendingSet),
    /// [[DefineOwnProperty]] of the receiver (10.1.9.2, steps 2.d and 2.e)
    ReceiverDefined,
    /// a setter (10.1.9.2, step 6)
    SetterCalled,
}
