//! The tokens of a script's bytes, or their first fault.
#![tactic(auto)]

mod characters;
mod escapes;
mod forms;
mod gaps;
mod names;
mod numbers;
mod positions;
mod punctuators;
mod reading;
mod scanning;
mod stop;
mod texts;
mod token_list;

pub use es_source::{FaultCode, ReadStop, SourceFault, Token, TokenKind};
pub use reading::{MOST_BYTES, tokens};
pub use token_list::Tokens;
