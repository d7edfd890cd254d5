//! Names, and the code units of characters (ECMA-262, 11.1.1 and 12.7).

ghost use Rattle.std.specs.Prelude.{◌≡◌, ◌<◌, ◌≤◌, ◌∷◌, [], ℕ, IfOk, IsTrue, length, take_while};
ghost use Rattle.std.specs.Char.Escape.{encode_utf16};
ghost use Rattle.es_source.specs.Characters.{starts_name, continues_name, begins};
ghost use Rattle.es_source.specs.Forms.{name_length, name_at, units_of};
ghost use Rattle.script_syntax.specs.Stops.{Scans, Makes, Adds};

use crate::characters::may_continue_name;
use crate::stop::TokenStop;
use es_source::TokenKind;
use property_keys::{KeyFault, Units};
use std::alloc::Global;

fn push_unit(units: &mut Units, unit: u16) -> Result<(), TokenStop>
    ensures { Adds units.old (unit ∷ []) units.new result }
{
    match units.push(unit) {
        Ok(()) => Ok(()),
        Err(KeyFault::TooLong) => Err(TokenStop::Bad),
        Err(KeyFault::NoMemory) => Err(TokenStop::NoMemory),
    }
}

/// Adds the one or two code units of a code point, which may be a surrogate.
pub fn push_point(units: &mut Units, point: u32) -> Result<(), TokenStop>
    requires { point < 0x110000 }
    ensures { Adds units.old (encode_utf16 point) units.new result }
{
    if point < 0x1_0000 {
        return push_unit(units, point as u16);
    }
    let past = point - 0x1_0000;
    push_unit(units, (0xD800 + past / 0x400) as u16)?;
    push_unit(units, (0xDC00 + past % 0x400) as u16)
}

/// The code units of characters; Bad where there are more than 2^20.
pub fn units_of(alloc: Global, characters: &[char]) -> Result<Units, TokenStop>
    ensures { Makes (units_of characters.now) result }
{
    let mut units = Units::new(alloc);
    for character in characters {
        push_point(&mut units, u32::from(*character))?;
    }
    Ok(units)
}

/// How many characters at the front go on with a name.
fn continued(rest: &[char]) -> usize
    ensures value { result ≡ length (take_while continues_name rest.now) }
    ensures bound { result ≤ length rest.now }
{
    rest.iter().take_while(|c| may_continue_name(**c)).count()
}

/// How many characters the longest name at the front takes.
fn name_length(rest: &[char]) -> usize
    requires { IsTrue (begins starts_name rest.now) }
    ensures value { result ≡ name_length rest.now }
    ensures bound { (0 < result) × (result ≤ length rest.now) }
{
    1 + continued(rest.split_at(1).1)
}

/// The name or word at the front.
pub fn name_at(alloc: Global, rest: &[char]) -> Result<(TokenKind, usize), TokenStop>
    requires { IsTrue (begins starts_name rest.now) }
    ensures value { Scans (name_at rest.now) result }
    ensures bound { IfOk result (λ form. (0 < form.1) × (form.1 ≤ length rest.now)) }
{
    let length = name_length(rest);
    let units = units_of(alloc, rest.split_at(length).0)?;
    Ok((TokenKind::Name(units), length))
}
