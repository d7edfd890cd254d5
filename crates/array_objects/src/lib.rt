//! Array objects as they are made and filled from their end (ECMA-262, 10.4.2.2, 13.2.4.1). Their methods are not here.
#![tactic(auto, using(object_heap::specs::Stands::goes_none, object_heap::specs::Stands::goes_then, object_heap::proofs::Retaining::retains_none, object_heap::proofs::Retaining::retains_then))]

mod making;

pub use making::{append_element, make_array, raise_length};
