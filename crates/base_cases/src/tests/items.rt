//! Lists of a syntax tree.

use es_tree::{Items, NodeId};
use std::test::Fail;

#[test]
fn items_in_their_order(rt: HostRuntime) -> Result<(), Fail> {
    let mut items = Items::new(rt.alloc());
    items.push(NodeId(7))?;
    items.push(NodeId(3))?;
    assert_eq!(rt; items.len(), 2);
    assert_eq!(rt; *items.at(0), NodeId(7));
    assert_eq!(rt; *items.at(1), NodeId(3));
    Ok(())
}
