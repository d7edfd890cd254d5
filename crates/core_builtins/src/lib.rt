//! Built-in functions of Function, Boolean, Symbol, Error and Number (ECMA-262, clauses 20 and 21), a turn at a time: what a method gives is asked for, and never
//! looked into.
#![tactic(auto, using(object_heap::specs::Stands::goes_none, object_heap::specs::Stands::goes_then, object_heap::specs::Stands::halts_at, object_heap::proofs::Retaining::retains_none, object_heap::proofs::Retaining::retains_then, object_heap::proofs::Turns::named_ask, object_heap::proofs::Turns::named_done, object_heap::proofs::Turns::named_stop))]

mod arguments;
mod asking;
mod booleans;
mod error_texts;
mod errors;
mod frame;
mod functions;
mod numbers;
mod radices;
mod symbols;
mod texts;
mod throwing;
mod turns;
mod wrappers;

pub use frame::{
    Calling, Causing, CoreFrame, Erring, ErrorFrame, ErrorTextFrame, FunctionFrame, Installing,
    SymbolFrame, WrapperFrame, Wrapping,
};
pub use turns::{resume, start};
