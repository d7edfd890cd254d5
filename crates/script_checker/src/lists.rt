//! The members of a list of the kind that the list's place in the grammar gives.

ghost use Rattle.std.specs.Prelude.{◌≡◌, IfOk};
ghost use Rattle.script_checker.specs.Values.{binds_in, elements_in, nodes_in, properties_in};

use crate::parts::optional_node;
use crate::{MadePart, MadePartList};
use es_tree::{Declared, Items, NodeId, Property};
use property_keys::NoMemory;
use std::alloc::Global;

/// The nodes among the members.
pub fn nodes_in(alloc: Global, items: &[MadePart]) -> Result<Items<NodeId>, NoMemory>
    ensures { IfOk result (λ nodes. nodes ≡ nodes_in items.now) }
{
    let mut nodes = Items::new(alloc);
    for item in items {
        if let MadePart::Node(n) = item {
            nodes.push(*n)?;
        }
    }
    Ok(nodes)
}

/// The elements of an array literal, with `None` for a hole.
pub fn elements_in(alloc: Global, items: &[MadePart]) -> Result<Items<Option<NodeId>>, NoMemory>
    ensures { IfOk result (λ elements. elements ≡ elements_in items.now) }
{
    let mut elements = Items::new(alloc);
    for item in items {
        elements.push(optional_node(item))?;
    }
    Ok(elements)
}

/// The lexical names among the members.
pub fn binds_in(alloc: Global, items: MadePartList) -> Result<Items<Declared>, NoMemory>
    ensures { IfOk result (λ binds. binds ≡ binds_in items) }
{
    let mut binds = Items::new(alloc);
    for item in items.into_vec() {
        if let MadePart::Bind(bind) = item {
            binds.push(bind)?;
        }
    }
    Ok(binds)
}

/// The property definitions among the members.
pub fn properties_in(alloc: Global, items: MadePartList) -> Result<Items<Property>, NoMemory>
    ensures { IfOk result (λ properties. properties ≡ properties_in items) }
{
    let mut properties = Items::new(alloc);
    for item in items.into_vec() {
        if let MadePart::Property(property) = item {
            properties.push(property)?;
        }
    }
    Ok(properties)
}
