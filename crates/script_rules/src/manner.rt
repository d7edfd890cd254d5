//! How a name is declared.

/// How a name comes to be declared.
#[derive(Clone, Copy, PartialEq)]
pub enum Manner {
    /// By `let`.
    Let,
    /// By `const`.
    Const,
    /// As a declared function.
    Function,
    /// As a parameter of a function, a method or a setter.
    Parameter,
    /// As the parameter of a catch.
    Catch,
}

/// A declared name, by the number of its token.
#[derive(Clone, Copy, PartialEq)]
pub struct Declared {
    pub name: u32,
    pub manner: Manner,
}
