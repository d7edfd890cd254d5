//! A part of the kind that its place in the grammar gives.

ghost use Rattle.std.specs.Prelude.{◌≡◌, ◌++◌, ◌∷◌, [], IfOk};
ghost use Rattle.script_checker.specs.Values.{block_of, front_of, item_of, key_of, node_of, optional_block, optional_catch, optional_node, parts_of, target_of};

use crate::{MadePart, MadePartList, MadeParts};
use es_tree::{Binding, Block, Catch, Items, Key, Named, NodeId, Target};
use property_keys::{NoMemory, Units};
use std::alloc::Global;

/// The part that is no list.
pub fn item_of(value: MadeParts) -> MadePart
    ensures { result ≡ item_of value }
{
    match value {
        MadeParts::One(item) => item,
        MadeParts::Many(_) => MadePart::Nothing,
    }
}

/// The members of a list.
pub fn parts_of(alloc: Global, value: MadeParts) -> MadePartList
    ensures { result ≡ parts_of value }
{
    match value {
        MadeParts::One(_) => MadePartList::new(alloc),
        MadeParts::Many(items) => items,
    }
}

/// The front of a comma list, or its first expression.
pub fn front_of(alloc: Global, value: MadeParts) -> Result<MadePartList, NoMemory>
    ensures { IfOk result (λ items. items ≡ front_of value) }
{
    match value {
        MadeParts::One(item) => {
            let mut items = MadePartList::new(alloc);
            items.push(item)?;
            Ok(items)
        }
        MadeParts::Many(items) => Ok(items),
    }
}

/// A part that may be left out.
pub fn optional_node(item: &MadePart) -> Option<NodeId>
    ensures { result ≡ optional_node item.now }
{
    match item {
        MadePart::Node(n) => Some(*n),
        _ => None,
    }
}

/// The node that a part is, if it is one.
pub fn node_of(value: MadeParts) -> Option<NodeId>
    ensures { result ≡ node_of value }
{
    match value {
        MadeParts::One(item) => optional_node(&item),
        MadeParts::Many(_) => None,
    }
}

/// A target: a name or a member access.
pub fn target_of(alloc: Global, item: MadePart) -> Target
    ensures { result ≡ target_of item }
{
    match item {
        MadePart::Node(n) => Target::Access(n),
        MadePart::Name(named) => Target::Name(named),
        _ => Target::Name(Named {
            name: Units::new(alloc),
            binding: Binding::Global,
        }),
    }
}

/// A property name.
pub fn key_of(alloc: Global, item: MadePart) -> Key
    ensures { result ≡ key_of item }
{
    match item {
        MadePart::Key(key) => key,
        _ => Key::Fixed(Units::new(alloc)),
    }
}

/// The block of a `try` or of a catch.
pub fn block_of(alloc: Global, item: MadePart) -> Block
    ensures { result ≡ block_of item }
{
    match item {
        MadePart::Block(block) => block,
        _ => Block {
            names: 0,
            items: Items::new(alloc),
        },
    }
}

/// A block that may be left out.
pub fn optional_block(item: MadePart) -> Option<Block>
    ensures { result ≡ optional_block item }
{
    match item {
        MadePart::Block(block) => Some(block),
        _ => None,
    }
}

/// A catch that may be left out.
pub fn optional_catch(item: MadePart) -> Option<Catch>
    ensures { result ≡ optional_catch item }
{
    match item {
        MadePart::Catch(catch) => Some(catch),
        _ => None,
    }
}
