//! The static rules of scripts, and what a name is bound to.
#![tactic(auto)]

mod faults;
mod manner;
mod names;
mod reads;
mod resolved;
mod role;
mod scope;
mod scope_entry;
mod scope_makers;
mod scope_names;
mod scopes;
mod token_units;

pub use faults::static_fault;
pub use manner::{Declared, Manner};
pub use names::{declared_by, declared_in, declared_in_block, members, parameters_in};
pub use reads::{leaf_at, part, units_at};
pub use resolved::Resolved;
pub use role::Role;
pub use scope::{Owner, Scope};
pub use scope_entry::ScopeId;
pub use scope_makers::{function_scope, part_scope, script_scope};
pub use scope_names::ScopeNames;
pub use scopes::Scopes;
pub use token_units::own_units_at;
