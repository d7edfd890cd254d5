//! Texts of the outside, made of strings.

ghost use Rattle.std.specs.Prelude.{◌≡◌, IfOk};

use crate::Text;
use property_keys::NoMemory;
use std::alloc::Global;

/// The text with the bytes of `s`. It answers `NoMemory` where there is no room for them.
pub fn text(alloc: Global, s: &str) -> Result<Text, NoMemory>
    ensures { IfOk result (λ t. t ≡ s.now) }
{
    match String::from_str(alloc, s) {
        Ok(string) => Ok(Text { string }),
        Err(_) => Err(NoMemory),
    }
}
