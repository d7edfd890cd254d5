//! Functions of the script (ECMA-262, 10.2) up to their bodies: how one is made, how its receiver is bound, and what stands before and behind a construction.
#![tactic(auto, using(object_heap::specs::Stands::goes_none, object_heap::specs::Stands::goes_then, object_heap::specs::Stands::halts_at, object_heap::proofs::Retaining::retains_none, object_heap::proofs::Retaining::retains_then))]

mod constructing;
mod laws;
mod making;
mod receivers;

pub use constructing::{new_constructed, note_construction, prototype_of, prototype_request};
pub use laws::links_suffice;
pub use making::{create_function, function_made, name_function};
pub use receivers::bind_this;
