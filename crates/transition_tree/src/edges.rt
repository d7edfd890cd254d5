//! What leads to a place: a root's origin and prototype, or the place before it and a step.

ghost use Rattle.std.specs.Prelude.{◌≡◌, Some, None};
ghost use Rattle.transition_tree.specs.Edges.{edge_of, flags_of, step_before, root_edge, kind_in, attributes_in};

use crate::Step;
use map_store::{Kind, OriginId};
use property_keys::{Attributes, ObjectId, PropKey};

/// What leads to a place, in a form that is looked up.
#[derive(Clone, Copy, Debug, PartialEq, Eq, Hash)]
pub(crate) enum Edge {
    /// The root of an origin, without a prototype.
    Root(u32),
    /// The root of an origin on a prototype.
    RootOn(u32, ObjectId),
    Add(u32, PropKey, Flags),
    Redefine(u32, PropKey, Flags),
    Close(u32),
}

/// The kind and the flags of a step.
#[derive(Clone, Copy, Debug, PartialEq, Eq, Hash)]
pub(crate) struct Flags {
    accessor: bool,
    writable: bool,
    enumerable: bool,
    configurable: bool,
}

fn flags_of(kind: Kind, attributes: Attributes) -> Flags
    ensures { result ≡ flags_of kind attributes }
{
    Flags {
        accessor: kind == Kind::Accessor,
        writable: attributes.writable,
        enumerable: attributes.enumerable,
        configurable: attributes.configurable,
    }
}

/// What leads from a place by a step.
pub(crate) fn edge_of(place: u32, step: Step) -> Edge
    ensures { result ≡ edge_of place step }
{
    match step {
        Step::Add {
            key,
            kind,
            attributes,
        } => Edge::Add(place, key, flags_of(kind, attributes)),
        Step::Redefine {
            key,
            kind,
            attributes,
        } => Edge::Redefine(place, key, flags_of(kind, attributes)),
        Step::Close => Edge::Close(place),
    }
}

pub(crate) fn root_edge(origin: OriginId, proto: Option<ObjectId>) -> Edge
    ensures { result ≡ root_edge origin proto }
{
    match proto {
        Some(proto) => Edge::RootOn(origin.0, proto),
        None => Edge::Root(origin.0),
    }
}

fn kind_of(flags: Flags) -> Kind
    ensures { result ≡ kind_in flags }
{
    if flags.accessor {
        Kind::Accessor
    } else {
        Kind::Stored
    }
}

fn attributes_of(flags: Flags) -> Attributes
    ensures { result ≡ attributes_in flags }
{
    Attributes {
        writable: flags.writable,
        enumerable: flags.enumerable,
        configurable: flags.configurable,
    }
}

/// The place before an edge, and its step. None for a root.
pub(crate) fn step_before(edge: Edge) -> Option<(u32, Step)>
    ensures { result ≡ step_before edge }
{
    match edge {
        Edge::Root(_) | Edge::RootOn(_, _) => None,
        Edge::Add(place, key, flags) => {
            let step = Step::Add {
                key,
                kind: kind_of(flags),
                attributes: attributes_of(flags),
            };
            Some((place, step))
        }
        Edge::Redefine(place, key, flags) => {
            let step = Step::Redefine {
                key,
                kind: kind_of(flags),
                attributes: attributes_of(flags),
            };
            Some((place, step))
        }
        Edge::Close(place) => Some((place, Step::Close)),
    }
}
