//! Array indices (6.1.7).

ghost use Rattle.std.specs.Prelude.{◌≡◌, ◌<◌, ◌↔◌, IsTrue, length, slice_index};
ghost use Rattle.property_keys.specs.Keys.{array_index_of};

use crate::numbers::{ZERO, natural};

/// The greatest array index, 2^32 - 2.
const MOST_INDEX: i64 = (1 << 32) - 2;

/// The array index that a text is (ECMA-262, 6.1.7).
pub fn array_index(text: &[u16]) -> Option<u32>
    ensures { result ≡ array_index_of text.now }
{
    if has_leading_zero(text) {
        return None;
    }
    let Some(n) = natural(10, text) else {
        return None;
    };
    if n > MOST_INDEX {
        return None;
    }
    Some(n as u32)
}

/// A canonical decimal text has no zero before other digits.
fn has_leading_zero(text: &[u16]) -> bool
    ensures { IsTrue result ↔ ((1 < length text.now) × (slice_index text.now 0 ≡ 48)) }
{
    matches!(text, [ZERO, _, ..])
}
