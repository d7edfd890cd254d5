//! Abstract operations that algorithms ask for (ECMA-262, clause 7), and built-in functions that stand in no crate of their own, a turn at a time: what a method gives is
//! asked for, and never looked into.
#![tactic(auto, using(object_heap::specs::Stands::goes_none, object_heap::specs::Stands::goes_then, object_heap::specs::Stands::halts_at, object_heap::proofs::Retaining::retains_none, object_heap::proofs::Retaining::retains_then, object_heap::proofs::Turns::named_ask, object_heap::proofs::Turns::named_done, object_heap::proofs::Turns::named_stop))]

mod arguments;
mod asking;
mod comparing;
mod fields;
mod frame;
mod instances;
mod laws;
mod listing;
mod numbers;
mod ordering;
mod primitives;
mod printing;
mod texts;
mod throwing;
mod turns;
mod wanting;
mod words;

pub use arguments::Arguments;
pub use frame::{
    ComparedFrame, ConvertedFrame, Converting, Handling, InstanceFrame, Line, ListedFrame, Listing,
    Measuring, PlainFrame, PrimitiveFrame, PrintedFrame, Reading, Walk, WantedFrame,
};
pub use laws::instance_rounds_suffice;
pub use turns::{resume, start};
pub use words::{Callee, Collected, Field, Hint, NoNumber, Operands};
