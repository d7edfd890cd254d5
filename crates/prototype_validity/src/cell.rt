//! A validity cell.

use crate::ObjectList;

/// The number of a validity cell.
#[derive(Clone, Copy, Debug, PartialEq, Eq)]
pub struct CellId(pub u32);

/// A validity cell.
#[derive(Drop)]
pub(crate) struct Cell {
    pub(crate) chain: ObjectList,
    pub(crate) holds: bool,
}
