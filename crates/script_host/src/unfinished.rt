//! What of a checked script does not run yet.

ghost use Rattle.std.specs.Prelude.{◌≡◌, None, if◌then◌else◌};
ghost use Rattle.script_host.specs.Unbuilt.{earlier, earliest, function_places, is_array, places_where, unbuilt, uses_arguments};

use es_source::Place;
use es_tree::{Checked, FunctionNo, Node, NodeId, Primary};

/// Where the first construct stands that does not run yet: the least place among the `[` of each array literal and the first token of each function, method
/// and accessor whose code uses `arguments`, and None exactly where there is none of these. It takes no memory.
pub fn unbuilt(script: &Checked) -> Option<Place>
    ensures { result ≡ unbuilt script.now }
{
    first_function(script, first_array(script))
}

fn is_array(node: &Node) -> bool
    ensures { result ≡ is_array node.now }
{
    match node {
        Node::Primary(primary) => match primary {
            Primary::Array(_) => true,
            Primary::This
            | Primary::Name(_)
            | Primary::Number(_)
            | Primary::Text(_)
            | Primary::Null
            | Primary::Bool(_)
            | Primary::Object { .. }
            | Primary::Function(_)
            | Primary::Method(_) => false,
        },
        Node::Statement(_) | Node::Operator(_) | Node::Access(_) => false,
    }
}

// The least place of an array literal.
fn first_array(script: &Checked) -> Option<Place>
    ensures { result ≡ earliest None (places_where is_array script.now.nodes script.now.places) }
{
    let mut found = None;
    for n in 0..script.nodes() {
        let place = script.place(NodeId(n));
        found = with_place(found, is_array(script.node(NodeId(n))), place);
    }
    found
}

// The least place of a function whose code uses `arguments`, or the one that was found before.
fn first_function(script: &Checked, before: Option<Place>) -> Option<Place>
    ensures { result ≡ earliest before (places_where uses_arguments script.now.bodies (function_places script.now.functions)) }
{
    let mut found = before;
    for f in 0..script.functions() {
        let place = script.function(FunctionNo(f)).place;
        found = with_place(found, script.body(FunctionNo(f)).arguments, place);
    }
    found
}

// The earlier one of what was found and a place, where that counts.
fn with_place(found: Option<Place>, counts: bool, place: Place) -> Option<Place>
    ensures { result ≡ (if counts then earlier found place else found) }
{
    if counts { earlier(found, place) } else { found }
}

fn earlier(found: Option<Place>, place: Place) -> Option<Place>
    ensures { result ≡ earlier found place }
{
    match found {
        None => Some(place),
        Some(before) => Some(if place.is_before(before) {
            place
        } else {
            before
        }),
    }
}
