//! The whole.

ghost use Rattle.std.specs.Prelude.{◌≡◌, ◌<◌, length, slice_get, Some};
ghost use Rattle.es_source.specs.Reading.{fault_at};
ghost use Rattle.script_parser.specs.Contract.{Parses};

use crate::leaves::leaves_of;
use crate::parser::{Parser, Reading};
use es_source::{FaultCode, ReadStop, SourceFault, Token};
use script_grammar::Script;
use script_syntax::Tokens;
use std::alloc::Global;

/// A fault at a token.
fn fault_at(code: FaultCode, token: &Token) -> SourceFault
    ensures { result ≡ record { code = code; place = token.now.place } }
{
    SourceFault {
        code,
        place: token.place,
    }
}

/// The fault of a script that stops too early, one past the last byte.
fn fault_at_end(tokens: &Tokens) -> SourceFault
    ensures { result ≡ fault_at FaultCode.Unexpected tokens.now.ending }
{
    SourceFault {
        code: FaultCode::Unexpected,
        place: tokens.end(),
    }
}

/// The script of the tokens, or their first fault: Unexpected at the first token with which no script goes on, and before which no semicolon is put in
/// (ECMA-262, 12.10), or TooDeep at the first that more than 200 nested productions contain, whichever is earlier. Where a script stops too early the fault
/// stands one past the last byte.
pub fn parse(alloc: Global, tokens: &Tokens) -> Result<Script, ReadStop>
    ensures { Parses tokens.now result }
{
    let mut parser = Parser::start(alloc)?;
    for i in 0..tokens.len() {
        match parser.read_at(tokens.at(i), i)? {
            Reading::Taken => {}
            Reading::Refused => {
                return Err(ReadStop::Fault(fault_at(FaultCode::Unexpected, tokens.at(i))));
            }
            Reading::Deep => return Err(ReadStop::Fault(fault_at(
                FaultCode::TooDeep,
                tokens.at(i),
            ))),
        }
    }
    match parser.end()? {
        Some(root) => {
            let leaves = leaves_of(alloc, tokens)?;
            Ok(Script::new(parser.into_nodes(), leaves, root))
        }
        None => Err(ReadStop::Fault(fault_at_end(tokens))),
    }
}
