//! The requests by which an algorithm asks.

use crate::Values;
use descriptors::Descriptor;
use es_tree::SiteId;
use property_keys::{ObjectId, PropKey, Value};

/// What an algorithm may ask of the dispatcher: an internal method of an object (ECMA-262, 6.1.7.2), an abstract operation, or a line of print.
///
/// A `Read` or `Write` that comes from a member access of the script carries its site.
#[derive(Drop)]
pub enum Request {
    /// [[GetOwnProperty]]
    GetOwn {
        object: ObjectId,
        key: PropKey,
    },
    /// [[DefineOwnProperty]]
    Define {
        object: ObjectId,
        key: PropKey,
        wanted: Descriptor,
    },
    /// [[HasProperty]]
    Has {
        object: ObjectId,
        key: PropKey,
    },
    /// [[Get]]
    Read {
        object: ObjectId,
        key: PropKey,
        receiver: Value,
        site: Option<SiteId>,
    },
    /// [[Set]]
    Write {
        object: ObjectId,
        key: PropKey,
        value: Value,
        receiver: Value,
        site: Option<SiteId>,
    },
    /// [[Delete]]
    Delete {
        object: ObjectId,
        key: PropKey,
    },
    /// [[OwnPropertyKeys]]
    Keys {
        object: ObjectId,
    },
    /// [[GetPrototypeOf]]
    Proto {
        object: ObjectId,
    },
    /// [[SetPrototypeOf]]
    SetProto {
        object: ObjectId,
        proto: Option<ObjectId>,
    },
    /// [[IsExtensible]]
    Extensible {
        object: ObjectId,
    },
    /// [[PreventExtensions]]
    Prevent {
        object: ObjectId,
    },
    /// Call (7.3.13)
    Call {
        function: Value,
        this: Value,
        arguments: Values,
    },
    /// Construct (7.3.14)
    Construct {
        function: ObjectId,
        arguments: Values,
        target: ObjectId,
    },
    /// An abstract operation: two operands for `InstanceOf`, `OrdinaryHasInstance` and `LooselyEqual`, three for `LessThan`, of which the third is the standard's
    /// LeftFirst, and one for every other.
    Work {
        operation: Operation,
        operands: Values,
    },
    /// A line of print. It carries texts only.
    Print {
        line: Values,
    },
}

/// The abstract operations that are asked for (ECMA-262, clause 7).
#[derive(Clone, Copy, Debug, PartialEq, Eq)]
pub enum Operation {
    /// ToPrimitive without a preferred type (7.1.1)
    ToPrimitiveDefault,
    /// ToPrimitive with number
    ToPrimitiveNumber,
    /// ToPrimitive with string
    ToPrimitiveText,
    /// ToString (7.1.17)
    ToText,
    /// ToNumber (7.1.4)
    ToWhole,
    /// ToPropertyKey (7.1.19)
    ToKey,
    /// ToPropertyDescriptor (6.2.6.5)
    ToWanted,
    /// CreateListFromArrayLike (7.3.19)
    ListFromArrayLike,
    /// CreateListFromArrayLike for property keys
    KeysFromArrayLike,
    /// InstanceofOperator (13.10.2)
    InstanceOf,
    /// OrdinaryHasInstance (7.3.21), of the function and the value
    OrdinaryHasInstance,
    /// IsLooselyEqual (7.2.14)
    LooselyEqual,
    /// IsLessThan (7.2.13)
    LessThan,
}
