//! What a body still has to do: the items of the control stack.

use crate::cells::Cells;
use crate::references::{Arithmetic, Finish, Invocation, Reference};
use es_model::{Completion, FunctionName, Part, Request, Running, Values};
use es_tree::{BinaryOperator, NodeId, ShortOperator, SiteId};
use property_keys::{ObjectId, PropKey, TextId, Value};

/// How a part of a body ends: the five kinds of a Completion Record (ECMA-262, 6.2.4). A statement that ends normally gives a value that nobody looks at.
#[derive(Clone, Copy)]
pub(crate) enum Ending {
    Gives(Value),
    Breaks,
    Continues,
    Returns(Value),
    Throws(Value),
}

/// What is done with a reference.
#[derive(Clone, Copy)]
pub(crate) enum Purpose {
    /// Its value is that of the expression.
    Read,
    /// It is the function of the call with this number.
    Call { node: NodeId },
    Delete,
    Typeof,
    /// The value of this node is assigned to it.
    Assign { value: NodeId },
    Compound { operator: Arithmetic, value: NodeId },
    Update { increment: bool, prefix: bool },
}

/// What is done with a value that was got from a reference.
#[derive(Clone, Copy)]
pub(crate) enum Reading {
    Give,
    /// It is the function of the call with this number.
    Callee {
        node: NodeId,
        this: Value,
    },
    Typeof,
    Compound {
        operator: Arithmetic,
        value: NodeId,
        reference: Reference,
    },
    Update {
        increment: bool,
        prefix: bool,
        reference: Reference,
    },
    /// It is the value of the property definition before this number.
    Shorthand {
        node: NodeId,
        next: usize,
        object: ObjectId,
        key: PropKey,
    },
}

/// A point at which a member access waits for a part of it.
#[derive(Clone, Copy)]
pub(crate) enum AccessItem {
    MemberBased {
        key: PropKey,
        read: Option<SiteId>,
        write: Option<SiteId>,
        purpose: Purpose,
    },
    IndexBased {
        key: NodeId,
        read: Option<SiteId>,
        write: Option<SiteId>,
        purpose: Purpose,
    },
    KeyValued {
        base: Value,
        read: Option<SiteId>,
        write: Option<SiteId>,
        purpose: Purpose,
    },
}

/// A point at which an operator waits for an operand.
#[derive(Clone, Copy)]
pub(crate) enum OperatorItem {
    DeleteValued,
    VoidValued,
    PlusValued,
    MinusValued,
    NotValued,
    LeftValued {
        operator: BinaryOperator,
        right: NodeId,
    },
    RightValued {
        operator: BinaryOperator,
        left: Value,
    },
    ShortValued {
        operator: ShortOperator,
        right: NodeId,
    },
    TestValued {
        then: NodeId,
        otherwise: NodeId,
    },
    CommaValued {
        node: NodeId,
        next: usize,
    },
    AssignValued {
        reference: Reference,
    },
    CompoundValued {
        operator: Arithmetic,
        reference: Reference,
        left: Value,
    },
}

/// What a property definition makes of the value: a property with it, or one with an accessor's function.
#[derive(Clone, Copy)]
pub(crate) enum Made {
    Plain,
    Getter,
    Setter,
}

/// A point at which an object literal waits for a part of a property definition: the literal's node, the number of the definition or of the one behind it, and
/// the object. An array literal waits for an element.
#[derive(Clone, Copy)]
pub(crate) enum LiteralItem {
    PropertyValued {
        node: NodeId,
        next: usize,
        object: ObjectId,
        key: PropKey,
        made: Made,
    },
    KeyValued {
        node: NodeId,
        at: usize,
        object: ObjectId,
    },
    ProtoValued {
        node: NodeId,
        next: usize,
        object: ObjectId,
    },
    /// The value of the element with this number, of an array literal.
    ElementValued {
        node: NodeId,
        at: usize,
        array: ObjectId,
    },
}

/// A point at which a statement waits for a part of it.
#[derive(Clone, Copy)]
pub(crate) enum StatementItem {
    AfterStatement {
        list: Part,
        next: usize,
    },
    Declared {
        node: NodeId,
        next: usize,
    },
    IfValued {
        then: NodeId,
        otherwise: Option<NodeId>,
    },
    WhileValued {
        node: NodeId,
        body: NodeId,
    },
    WhileAgain {
        node: NodeId,
    },
    ForBegun {
        node: NodeId,
    },
    ForValued {
        node: NodeId,
        step: Option<NodeId>,
        body: NodeId,
    },
    ForAgain {
        node: NodeId,
        step: Option<NodeId>,
    },
    ForStepped {
        node: NodeId,
    },
    ReturnValued,
    ThrowValued,
    TriedEnded {
        node: NodeId,
    },
    CaughtEnded {
        node: NodeId,
    },
    LastEnded {
        before: Ending,
    },
}

/// A point at which a node waits for a part of it.
#[derive(Drop)]
pub(crate) enum Item {
    Read(Reading),
    Access(AccessItem),
    Operator(OperatorItem),
    Literal(LiteralItem),
    Statement(StatementItem),
    /// An argument, of which those before it have these values. The next one has this number.
    Argument {
        node: NodeId,
        next: usize,
        invocation: Invocation,
        given: Values,
    },
    Constructor {
        node: NodeId,
    },
}

/// A point at which a node waits for the value that a request gives.
#[derive(Clone, Copy)]
pub(crate) enum ValueAsked {
    Read(Reading),
    MinusConverted,
    LeftPrimitive {
        finish: Finish,
        right: Value,
    },
    RightPrimitive {
        finish: Finish,
        left: Value,
    },
    LeftText {
        finish: Finish,
        right: Value,
    },
    RightText {
        finish: Finish,
        left: Value,
    },
    LeftNumber {
        operator: Arithmetic,
        finish: Finish,
        right: Value,
    },
    RightNumber {
        operator: Arithmetic,
        finish: Finish,
        left: Value,
    },
    UpdateConverted {
        increment: bool,
        prefix: bool,
        reference: Reference,
    },
}

/// A point at which a node waits for yes or no.
#[derive(Clone, Copy)]
pub(crate) enum FlagAsked {
    /// The first look at a name of the global object.
    Looked {
        name: TextId,
        key: PropKey,
        purpose: Purpose,
    },
    /// The second look, before a read.
    LookedAgain {
        name: TextId,
        key: PropKey,
        reading: Reading,
    },
    /// The second look, before a write.
    PutLooked {
        name: TextId,
        key: PropKey,
        value: Value,
        given: Value,
    },
    /// A [[Set]] by an expression that gives this value.
    PutAnswered {
        given: Value,
    },
    DeleteAnswered,
    FlagGiven,
    FlagDenied,
    /// The first look at a name of the global object that is read then.
    ReadLooked {
        name: TextId,
        key: PropKey,
        reading: Reading,
    },
    /// An object literal's prototype was set.
    ProtoAnswered {
        node: NodeId,
        next: usize,
        object: ObjectId,
    },
}

/// A point at which a node waits for a property key.
#[derive(Clone, Copy)]
pub(crate) enum KeyAsked {
    KeyConverted {
        base: Value,
        read: Option<SiteId>,
        write: Option<SiteId>,
        purpose: Purpose,
    },
    InKeyed {
        object: ObjectId,
    },
    /// The key of the property definition with this number.
    PropertyKey {
        node: NodeId,
        at: usize,
        object: ObjectId,
    },
}

/// A point at which a node waits for the answer to a request.
#[derive(Clone, Copy)]
pub(crate) enum Asked {
    Value(ValueAsked),
    Flag(FlagAsked),
    Key(KeyAsked),
}

/// What is done inside a body: a node, with the name that an anonymous function gets there, a round of a loop, or the statements of a list from a number on.
#[derive(Clone, Copy)]
pub(crate) enum Job {
    Node {
        name: Option<FunctionName>,
        node: NodeId,
    },
    Round(NodeId),
    Statements(Part, usize),
}

/// What a node or an item does.
#[derive(Drop)]
pub(crate) enum Plan {
    /// A job is done, and the item waits for its end.
    Wait(Job, Item),
    /// The end of the job is the end.
    Last(Job),
    /// The job is done in an inner scope, and the item of the scope around, in which so many cells are in force, waits for its end.
    Enter(Job, StatementItem, usize),
    Ask(Request, Asked),
    Ends(Ending),
}
