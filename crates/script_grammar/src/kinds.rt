//! What a token is to the grammar.

use es_tree::{AssignOperator, BinaryOperator, ShortOperator};

/// A word that is reserved and is no operator between two operands (ECMA-262, 12.7.2).
#[derive(Clone, Copy)]
pub enum Word {
    Break,
    Catch,
    Const,
    Continue,
    Delete,
    Else,
    False,
    Finally,
    For,
    Function,
    If,
    Let,
    New,
    Null,
    Return,
    This,
    Throw,
    True,
    Try,
    Typeof,
    Void,
    While,
    /// A word that stands in no production. It can be the name of a property.
    Unused,
}

/// Whether a name may begin an accessor of an object literal (13.2.5).
#[derive(Clone, Copy)]
pub enum NameRole {
    Plain,
    Get,
    Set,
}

/// `{`, `}`, `(`, `)`, `[` and `]`.
#[derive(Clone, Copy)]
pub enum Bracket {
    BraceOpen,
    BraceClose,
    Open,
    Close,
    SquareOpen,
    SquareClose,
}

/// A punctuator that is no bracket and stands between no two operands (12.8).
#[derive(Clone, Copy)]
pub enum Mark {
    Dot,
    Semicolon,
    Comma,
    Question,
    Colon,
    Not,
    /// `...`, which stands in no production.
    Spread,
    /// `=>`, which stands in no production.
    Arrow,
}

/// What a token is to the grammar.
#[derive(Clone, Copy)]
pub enum Kind {
    /// A word that is not reserved.
    Name(NameRole),
    Number,
    Text,
    Word(Word),
    Bracket(Bracket),
    Mark(Mark),
    /// `++` where it is true, else `--`.
    Update(bool),
    /// An operator between two operands; `in` and `instanceof` are words too.
    Infix(BinaryOperator),
    Short(ShortOperator),
    Assign(AssignOperator),
    /// A punctuator that is none of the list of punctuators.
    Unknown,
}

/// The levels of operators that group from the left, by the names of their parts.
#[derive(Clone, Copy)]
pub enum Level {
    Or,
    And,
    Equal,
    Relation,
    Add,
    Multiply,
}
