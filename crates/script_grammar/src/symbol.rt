//! What a parser still expects.

use crate::{Act, Level, NameRole};

/// A single token.
#[derive(Clone, Copy)]
pub enum Terminal {
    Open,
    Close,
    BraceClose,
    SquareClose,
    Colon,
    /// A `;`; in the head of a `for` only one of the file.
    Semicolon(bool),
}

/// A list with commas in brackets.
#[derive(Clone, Copy)]
pub enum Listing {
    Arguments,
    Parameters,
    Properties,
}

/// A part that must come. A truth value says that no operator `in` is allowed outside of brackets.
#[derive(Clone, Copy)]
pub enum Expected {
    Statement,
    Block,
    Body,
    Parameters,
    Expression(bool),
    Assign(bool),
    Unary,
    /// An operand of a level of operators.
    Operand(Level, bool),
    /// The callee of this `new`.
    Callee(u32),
    /// The target of `++` or `--`.
    Target,
    Binding { constant: bool, head: bool },
    /// The first part of the head of a `for`.
    First,
    /// An expression that may be left out, and a token behind it.
    Maybe(bool, Terminal),
    /// The value of this `throw`.
    Thrown(u32),
}

/// What may go on behind an expression.
#[derive(Clone, Copy)]
pub enum Tail {
    Left,
    /// `++` or `--` behind a target.
    Update,
    Level(Level, bool),
    Short(bool),
    Conditional(bool),
    Assign(bool),
    Expression(bool),
}

/// What may go on behind a part, with work to be done where it does not.
#[derive(Clone, Copy)]
pub enum Loose {
    /// Of a script or a body, else of a block.
    Items(bool),
    /// Behind the statement of this `if`.
    Else(u32),
    /// Behind the catch of this `try`.
    Finally(u32),
    /// Behind the callee of this `new`.
    Callee(u32),
    Target,
    /// Behind a lexical name.
    Binding {
        constant: bool,
        head: bool,
        name: u32,
    },
    /// Behind a name that begins a property definition.
    Property {
        role: NameRole,
        name: u32,
    },
}

/// A point inside a production at which a token must come.
#[derive(Clone, Copy)]
pub enum Stage {
    /// The word behind this `.`.
    Word(u32),
    /// Behind the bracket or a comma of a list.
    Listed(Listing),
    /// Behind a member of a list.
    Rest(Listing),
    Elements,
    AfterElement,
    AfterReturn(u32),
    /// Behind the block of this `try`.
    AfterTry(u32),
    AfterCatch,
    CatchName,
    /// Behind a lexical name of the declaration with this first token.
    MoreBindings {
        constant: bool,
        head: bool,
        first: u32,
    },
    /// The name of a declared function.
    FunctionName(u32),
    AfterFunction(u32),
    AfterKey,
    SetterName(u32),
}

/// What is expected next, with its nesting.
#[derive(Clone, Copy)]
pub enum Symbol {
    Part(Expected, u32),
    Tail(Tail, u32),
    Loose(Loose, u32),
    Stage(Stage, u32),
    Take(Terminal, u32),
    Do(Act),
}
