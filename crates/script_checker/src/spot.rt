//! Where a part stands.

use crate::Setting;
use es_source::Place;

/// A part whose parts are done: what stands around it and around its parts, the place of its first token, and the numbers of its first and its last part.
#[derive(Clone, Copy)]
pub struct Spot {
    pub around: Setting,
    pub inner: Setting,
    pub place: Place,
    pub first: u32,
    pub last: u32,
}
