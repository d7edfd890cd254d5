//! The longest object literal.

ghost use Rattle.std.specs.Prelude.{◌≡◌};
ghost use Rattle.es_tree.specs.Definitions.{definitions_at, most_definitions};

use crate::{Node, Primary};

/// How many property definitions a node has, where it is an object literal.
fn definitions_at(node: &Node) -> usize
    ensures { result ≡ definitions_at node.now }
{
    match node {
        Node::Primary(Primary::Object { properties, .. }) => properties.len(),
        _ => 0,
    }
}

/// The most property definitions of an object literal among these nodes.
pub(crate) fn most_definitions(nodes: &[Node]) -> usize
    ensures { result ≡ most_definitions nodes.now }
{
    let mut most = 0;
    let mut i = nodes.len();
    while i > 0 {
        i -= 1;
        most = definitions_at(&nodes[i]).max(most);
    }
    most
}
