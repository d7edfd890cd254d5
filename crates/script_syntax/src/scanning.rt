//! The next token after a gap.

ghost use Rattle.std.specs.Prelude.{◌≡◌, ◌<◌, ◌≤◌, ◌+◌, ◌*◌, ◌^◌, ◌++◌, ℕ, List, IfOk, IfSome, length};
ghost use Rattle.std.specs.List.{list_any};
ghost use Rattle.property_keys.specs.Blanks.{is_line_terminator};
ghost use Rattle.es_source.specs.Places.{place_after};
ghost use Rattle.es_source.specs.Reading.{fault_at, next_of};
ghost use Rattle.script_syntax.specs.Positions.{position_after};
ghost use Rattle.script_syntax.specs.Scanning.{step_of, IsStep, EndsAt};

use crate::characters::is_line_terminator;
use crate::forms::token_at;
use crate::gaps::gap_of;
use crate::positions::Position;
use crate::stop::TokenStop;
use es_source::{FaultCode, ReadStop, SourceFault, Token};
use std::alloc::Global;

/// A token, how many characters it takes with the gap before it, and the place after it.
#[derive(Drop)]
pub struct Found {
    pub token: Token,
    pub size: usize,
    pub position: Position,
}

/// The fault of a place at which no token stands.
fn bad_token(position: Position) -> ReadStop
    ensures { (before : List ℕ) → position ≡ position_after before → result ≡ ReadStop.Fault (fault_at FaultCode.BadToken (place_after before)) }
{
    ReadStop::Fault(SourceFault {
        code: FaultCode::BadToken,
        place: position.place,
    })
}

fn has_break(gap: &[char]) -> bool
    ensures { result ≡ list_any is_line_terminator gap.now }
{
    gap.iter().any(|c| is_line_terminator(*c))
}

/// The token that comes next, if one does. The position is the place at which the rest begins.
pub fn next_token(
    alloc: Global,
    rest: &[char],
    is_first: bool,
    position: Position,
) -> Result<Option<Found>, ReadStop>
    requires line { position.place.line + length rest.now < 2 ^ 32 }
    requires column { position.place.column + 4 * length rest.now < 2 ^ 32 }
    ensures step { (before : List ℕ) → position ≡ position_after before → IsStep (step_of is_first before rest.now (next_of rest.now)) result }
    ensures place { (before : List ℕ) → position ≡ position_after before → IfOk result (λ step. IfSome step (EndsAt before rest.now)) }
    ensures bound { IfOk result (λ step. IfSome step (λ found. (0 < found.size) × (found.size ≤ length rest.now))) }
{
    let length = match gap_of(rest) {
        Ok(length) => length,
        Err(passed) => return Err(bad_token(position.past(rest.split_at(passed).0))),
    };
    let (gap, later) = rest.split_at(length);
    if later.is_empty() {
        return Ok(None);
    }
    let start = position.past(gap);
    let (kind, size) = match token_at(alloc, later) {
        Ok(form) => form,
        Err(TokenStop::Bad) => return Err(bad_token(start)),
        Err(TokenStop::NoMemory) => return Err(ReadStop::NoMemory),
    };
    let token = Token {
        kind,
        place: start.place,
        after_break: !is_first && has_break(gap),
    };
    let position = start.past(later.split_at(size).0);
    Ok(Some(Found {
        token,
        size: length + size,
        position,
    }))
}
