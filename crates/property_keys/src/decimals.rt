//! The decimal of a whole number.

ghost use Rattle.std.specs.Prelude.{◌≡◌, ◌≤◌, IfOk, length};
ghost use Rattle.property_keys.specs.Decimals.{whole_units};

use crate::{NoMemory, Units};
use std::alloc::Global;

/// The code units of a number's canonical decimal text.
pub fn decimal_units(alloc: Global, n: i64) -> Result<Units, NoMemory>
    ensures { IfOk result (λ u. u ≡ whole_units n) }
{
    let Ok(text) = format!(in alloc; "{n}") else {
        return Err(NoMemory);
    };
    units_of(alloc, text.as_str().as_bytes())
}

/// One code unit for each byte. A decimal has at most 20 of them, far fewer than a text may have.
fn units_of(alloc: Global, bytes: &[u8]) -> Result<Units, NoMemory>
    requires { length bytes.now ≤ 20 }
    ensures { IfOk result (λ u. u ≡ bytes.now) }
{
    let mut units = Units::new(alloc);
    for byte in bytes {
        units.append(u16::from(*byte))?;
    }
    Ok(units)
}
