//! The tokens of bytes, or their first fault of length, of decoding or of tokens (ECMA-262, clause 12).

ghost use Rattle.std.specs.Prelude.{◌≡◌, ◌<◌, ◌≤◌, ◌+◌, ◌*◌, ◌^◌, ◌++◌, ◌∷◌, [], ℕ, List, IfOk, OnOk, IsUtf8, length, take, chars};
ghost use Rattle.es_source.specs.Places.{place_after};
ghost use Rattle.es_source.specs.Reading.{fault_at, reading_of_characters, reading_of};
ghost use Rattle.script_syntax.specs.Positions.{position_after};
ghost use Rattle.script_syntax.specs.Readings.{GivesReading};

use crate::gaps::hashbang_length;
use crate::positions::Position;
use crate::scanning::next_token;
use crate::token_list::Tokens;
use es_source::{FaultCode, Place, ReadStop, SourceFault, Token};
use property_keys::NoMemory;
use std::alloc::Global;

/// A source has at most so many bytes.
pub const MOST_BYTES: usize = 1 << 22;

/// The characters of a text.
fn characters_of(alloc: Global, text: &str) -> Result<Vec<char>, NoMemory>
    ensures characters { IfOk result (λ all. all.items ≡ chars text.now) }
    ensures bound { IfOk result (λ all. length all.items ≤ length text.now) }
{
    match text.chars().collect(alloc) {
        Ok(all) => Ok(all),
        Err(_) => Err(NoMemory),
    }
}

fn push_token(all: &mut Vec<Token>, token: Token) -> Result<(), NoMemory>
    ensures { OnOk result (all.new.items ≡ all.old.items ++ token ∷ []) }
{
    match all.push(token) {
        Ok(()) => Ok(()),
        Err(_) => Err(NoMemory),
    }
}

/// The tokens of characters.
fn tokens_of(alloc: Global, characters: &[char]) -> Result<Tokens, ReadStop>
    requires { length characters.now ≤ 2 ^ 22 }
    ensures { GivesReading (reading_of_characters characters.now) result }
{
    let mut all = Vec::new(alloc);
    let mut is_first = true;
    let mut at = hashbang_length(characters);
    let mut position = Position::start().past(characters.split_at(at).0);
    'tokens: loop {
        let rest = characters.split_at(at).1;
        let found = match next_token(alloc, rest, is_first, position) {
            Ok(Some(found)) => found,
            Ok(None) => return Ok(Tokens::ending_at(all, position.past(rest))),
            Err(stop) => return Err(stop),
        };
        push_token(&mut all, found.token)?;
        is_first = false;
        at += found.size;
        position = found.position;
    }
}

/// The fault of bytes whose longest front that is UTF-8 is this one.
fn ill_formed(alloc: Global, front: &[u8]) -> Result<SourceFault, NoMemory>
    requires text { IsUtf8 front.now }
    requires bound { length front.now ≤ 2 ^ 22 }
    ensures { IfOk result (λ fault. fault ≡ fault_at FaultCode.NotUtf8 (place_after (chars front.now))) }
{
    let Ok(text) = str::from_utf8(front) else {
        unreachable!()
    };
    let characters = characters_of(alloc, text)?;
    let position = Position::start().past(&characters);
    Ok(SourceFault {
        code: FaultCode::NotUtf8,
        place: position.place,
    })
}

/// The tokens of bytes, or their first fault: TooLong at 1:1 where there are more than 2^22 bytes, else NotUtf8 at the first byte after
/// the longest front that is UTF-8, else BadToken at the first place at which no token stands.
pub fn tokens(alloc: Global, bytes: &[u8]) -> Result<Tokens, ReadStop>
    ensures { GivesReading (reading_of bytes.now) result }
{
    if bytes.len() > MOST_BYTES {
        return Err(ReadStop::Fault(SourceFault {
            code: FaultCode::TooLong,
            place: Place { line: 1, column: 1 },
        }));
    }
    match str::from_utf8(bytes) {
        Ok(text) => {
            let characters = characters_of(alloc, text)?;
            tokens_of(alloc, &characters)
        }
        Err(error) => {
            let fault = ill_formed(alloc, bytes.split_at(error.valid_up_to()).0)?;
            Err(ReadStop::Fault(fault))
        }
    }
}
