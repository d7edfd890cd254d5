//! A property with its key.

use descriptors::Complete;
use property_keys::PropKey;

/// A property of an object: its key, and what it is (ECMA-262, 6.1.7).
#[derive(Clone, Copy, Debug, PartialEq, Eq)]
pub struct OwnProperty {
    pub key: PropKey,
    pub complete: Complete,
}
