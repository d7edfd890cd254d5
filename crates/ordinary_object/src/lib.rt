//! The internal methods of ordinary objects and functions (ECMA-262, 10.1), a turn at a time: what an algorithm asks of other objects it asks the dispatcher for.
#![tactic(auto, using(object_heap::specs::Stands::goes_none, object_heap::specs::Stands::goes_then, object_heap::specs::Stands::halts_at, object_heap::proofs::Retaining::retains_none, object_heap::proofs::Retaining::retains_then, object_heap::proofs::Turns::named_ask, object_heap::proofs::Turns::named_done, object_heap::proofs::Turns::named_stop))]

mod extensions;
mod frame;
mod getting;
mod laws;
mod properties;
mod prototypes;
mod receivers;
mod rounds;
mod setting;
mod turns;

pub use frame::{OrdinaryFrame, PendingSet};
pub use laws::rounds_suffice;
pub use turns::{resume, start};
