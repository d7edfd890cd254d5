//! Evaluation of a script and of the bodies of its functions (ECMA-262, clauses 13 to 16).
#![tactic(auto, using(object_heap::specs::Stands::goes_none, object_heap::specs::Stands::goes_then, object_heap::specs::Stands::halts_at, object_heap::proofs::Retaining::retains_none, object_heap::proofs::Retaining::retains_then, crate::proofs::PlansNamed::keeps_wait, crate::proofs::PlansNamed::keeps_enter, crate::proofs::PlansNamed::keeps_ask, crate::proofs::PlansNamed::keeps_last, crate::proofs::PlansNamed::keeps_end, crate::proofs::PlansNamed::keeps_stop, crate::proofs::PlansNamed::defines_plan, crate::proofs::PlansNamed::defines_none, crate::proofs::PlansNamed::defines_stop))]

mod accesses;
mod answers;
mod arithmetic;
mod assignments;
mod bodies;
mod calls;
mod cells;
mod countdown;
mod declarations;
mod definitions;
mod elements;
mod endings;
mod frames;
mod functions;
mod items;
mod jobs;
mod literals;
mod machine;
mod messages;
mod names;
mod operators;
mod reading;
mod references;
mod requests;
mod statement_plans;
mod statements;
mod texts;
mod tree;
mod trying;
mod turns;
mod unary_arithmetic;
mod values;
mod writing;

pub use frames::EvalFrame;
pub use references::{Arithmetic, Finish, Invocation, Reference};
pub use turns::{resume, start_body, start_construction, start_script};
