//! Validity cells: whether all that hangs on the objects of a chain still stands.
#![tactic(auto)]

mod cell;
mod object_list;
mod registry;
mod validity;

pub use cell::CellId;
pub use object_list::ObjectList;
pub use validity::Validity;
