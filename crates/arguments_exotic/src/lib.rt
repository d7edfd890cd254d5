//! Arguments objects (ECMA-262, 10.4.4): the internal methods of mapped and unmapped ones, a turn at a time.
#![tactic(auto, using(object_heap::specs::Stands::goes_none, object_heap::specs::Stands::goes_then, object_heap::specs::Stands::halts_at, object_heap::proofs::Retaining::retains_none, object_heap::proofs::Retaining::retains_then, object_heap::proofs::Turns::named_ask, object_heap::proofs::Turns::named_done, object_heap::proofs::Turns::named_stop))]

mod creating;
mod defining;
mod deleting;
mod ordinary;
mod parameter;
mod reading;
mod setting;
mod turns;

pub use creating::{create_mapped_arguments, create_unmapped_arguments};
pub use turns::{ArgumentsFrame, resume, start};
