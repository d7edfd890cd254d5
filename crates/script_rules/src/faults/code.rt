//! The code of a function: what it has of its own.

/// The parameters of a function.
#[derive(Clone, Copy)]
pub enum Parameters {
    /// A getter has none.
    Nothing,
    /// The name of a setter's parameter.
    One(u32),
    /// A parameter list.
    Listed(u32),
}

/// A function of any kind: its property name, the name that is bound at it, its own name in its body, its parameters and its body.
#[derive(Clone, Copy)]
pub struct Code {
    pub key: Option<u32>,
    pub bound: Option<u32>,
    pub callee: Option<u32>,
    pub parameters: Parameters,
    pub body: u32,
}
