//! The grammar of scripts: what each token is to it, the trees, the productions, and the first fault.
#![tactic(auto)]

mod act;
pub mod examples;
mod hashing;
mod kinds;
mod labels;
pub mod laws;
mod leaf;
mod node;
mod script;
mod sign;
mod symbol;

pub use act::Act;
pub use hashing::NameHashing;
pub use kinds::{Bracket, Kind, Level, Mark, NameRole, Word};
pub use labels::{Atom, Pair, Quad, Triple, Wrap};
pub use leaf::{Leaf, LeafKind};
pub use node::ParseNode;
pub use script::Script;
pub use sign::Sign;
pub use symbol::{Expected, Listing, Loose, Stage, Symbol, Tail, Terminal};
