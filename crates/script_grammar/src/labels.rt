//! The labels of a script's tree, by the number of parts. The numbers in them are those of tokens. A label whose first token is none of its
//! parts' has the number of that token.

use es_tree::{AssignOperator, BinaryOperator, ShortOperator, UnaryOperator};

/// What has no parts of its own.
#[derive(Clone, Copy, Debug)]
pub enum Atom {
    /// An empty list, or a part that is left out.
    Nothing,
    /// `this`, with its word.
    This(u32),
    /// `null`, with its word.
    Null(u32),
    /// `true` or `false`, with its word.
    Bool { value: bool, word: u32 },
    /// A name that is used as an expression or a target.
    Name(u32),
    Number(u32),
    Text(u32),
    /// An element of an array literal that is left out.
    Hole,
    /// A property definition of a name alone.
    Shorthand(u32),
    /// A property name that is written as a word, a text or a number.
    Key(u32),
    /// A parameter, or a lexical name without a value.
    Binding(u32),
    /// The empty statement, with its `;`.
    Empty(u32),
    /// `break`, with its word.
    Break(u32),
    /// `continue`, with its word.
    Continue(u32),
    /// `return` without a value, with its word.
    Return(u32),
}

/// What has one part.
#[derive(Clone, Copy, Debug)]
pub enum Wrap {
    /// An expression in parentheses, with the `(`.
    Parenthesis(u32),
    /// An operator before its operand, with its token.
    Unary(UnaryOperator, u32),
    /// `++` or `--` before or after its target, with its token.
    Update {
        increment: bool,
        prefix: bool,
        token: u32,
    },
    /// A member access with the tokens of the `.` and of the word.
    Member {
        dot: u32,
        word: u32,
    },
    /// A list of elements, with the `[`.
    Array(u32),
    /// A list of property definitions, with the `{`.
    Object(u32),
    /// A property name in square brackets, with the `[`.
    Computed(u32),
    /// A lexical name with its value.
    Binding(u32),
    /// A list of lexical names, with the `let` or `const`.
    Lexical {
        constant: bool,
        first: u32,
    },
    /// A list of statements and lexical declarations, with the `{`.
    Block(u32),
    /// An expression as a statement.
    Evaluate,
    /// `return` with a value, with its word.
    Return(u32),
    /// `throw`, with its word.
    Throw(u32),
    /// The block of a catch without a parameter.
    Catch,
    /// The block of a catch with its parameter.
    CatchName(u32),
}

/// What has two parts.
#[derive(Clone, Copy, Debug)]
pub enum Pair {
    /// A list and its last member.
    And,
    /// Two expressions of a comma list.
    Comma,
    Assign(AssignOperator),
    Short(ShortOperator),
    Binary(BinaryOperator),
    /// A member access by a computed key, with the `[`.
    Index(u32),
    /// A callee and its arguments.
    Call,
    /// The callee of a `new` and its arguments, with the `new`.
    New(u32),
    /// Parameters and body of a function expression without a name, with its first token.
    Function(u32),
    /// The same of one with a name.
    NamedFunction { first: u32, name: u32 },
    /// The same of a declared function.
    DeclaredFunction { first: u32, name: u32 },
    /// The name and the value of a property definition.
    Property,
    /// The name and the body of a getter, with its first token.
    Getter(u32),
    /// The name and the body of a setter, with its first token and its parameter.
    Setter { first: u32, parameter: u32 },
    /// `if` without an `else`: the test and the statement, with the `if`.
    If(u32),
    /// The test and the statement, with the `while`.
    While(u32),
}

/// What has three parts.
#[derive(Clone, Copy, Debug)]
pub enum Triple {
    /// The test and both values.
    Conditional,
    /// The test, the statement and the one after `else`, with the `if`.
    IfElse(u32),
    /// The name, the parameters and the body of a method.
    Method,
    /// The block, the catch and the block after `finally`, with the `try`.
    Try(u32),
}

/// What has four parts.
#[derive(Clone, Copy, Debug)]
pub enum Quad {
    /// The three parts of the head and the statement, with the `for`.
    For(u32),
}
