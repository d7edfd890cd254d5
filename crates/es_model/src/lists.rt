//! Lists of values and of keys.

use crate::CellNo;
use es_tree::Items;
use property_keys::{PropKey, Value};

/// A list of values.
pub type Values = Items<Value>;

/// A list of property keys.
pub type KeyList = Items<PropKey>;

/// For each index of an arguments object the cell of the parameter that it shares, if it shares one. The list is empty for an arguments object that is
/// unmapped (ECMA-262, 10.4.4).
pub type ArgumentCells = Items<Option<CellNo>>;
