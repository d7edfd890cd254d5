//! The source of a script: places, tokens and faults, with the definitions of how bytes become tokens.
#![tactic(auto)]

mod faults;
mod laws;
mod place;
mod stop;
mod token;

pub use faults::{FaultCode, SourceFault};
pub use laws::{gaps_are_longest, phases_are_in_order, punctuators_are_longest};
pub use place::Place;
pub use stop::ReadStop;
pub use token::{Token, TokenKind};
