//! The syntax tree of a script whose names are resolved, in lists whose places are the numbers of its parts.
#![tactic(auto)]

mod body;
mod checked;
mod definitions;
mod expressions;
mod facts;
mod items;
mod names;
mod node;
mod numbers;
mod primaries;
mod statements;

pub use body::{Body, DeclaredFunction};
pub use checked::Checked;
pub use expressions::{
    Access, AssignOperator, BinaryOperator, Operator, ShortOperator, UnaryOperator,
};
pub use facts::{FunctionFacts, LiteralFacts, SiteFacts};
pub use items::Items;
pub use names::{Binding, Named, Target};
pub use node::Node;
pub use numbers::{FunctionNo, LiteralNo, NodeId, SiteId};
pub use primaries::{Key, Primary, Property};
pub use statements::{Block, Catch, Declared, Statement};
