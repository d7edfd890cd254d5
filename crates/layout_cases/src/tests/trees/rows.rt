//! A tree with three branches, of which one dies and grows anew, worked out by hand.

use Call::{Close, Current, Drop, Grow, Keep, Kept, Live, Parent, Path, Root, Walk};
use Seen::{Done, Is, Lives, Map, NotMeant, Steps};
use map_store::Representation::{self, None as Unkept, Smi, Tagged};
use property_keys::ObjectId;

/// What is asked of a tree. Maps and origins are given by their numbers, and steps that add a stored property by keys.
#[derive(Clone, Copy)]
pub(crate) enum Call {
    /// The root of an origin with a prototype.
    Root(u32, Option<ObjectId>),
    /// Adds a key, or redefines it where an entry has it. The flag says whether it is writable.
    Grow(u32, u32, bool),
    Close(u32),
    Current(u32),
    Walk(u32, &'static [u32]),
    /// Walks from the first map along the path of the second.
    WalkTo(u32, u32),
    Path(u32),
    Parent(u32),
    Live(u32),
    Drop(u32),
    Kept(u32, u32),
    Keep(u32, u32, Representation),
    /// How many entries a map has, and on which array.
    Shape(u32),
    /// The entry of a map with this number.
    Entry(u32, u32),
}

#[derive(Clone, Copy, PartialEq)]
pub(crate) enum Seen {
    Done,
    Map(Option<u32>),
    /// A map, and the counted steps of the walk to it.
    Walked(Option<u32>, u64),
    Steps(usize),
    Lives(bool),
    Is(Representation),
    Shape(u32, u32),
    /// The place of the field, whether it is writable, and its representation.
    Entry(u32, bool, Representation),
    /// The map is not there, or the step does not fit it.
    NotMeant,
}

pub(crate) const ROWS: [(Call, Seen); 48] = [
    (Root(0, None), Map(Some(0))),
    (Root(1, None), Map(Some(1))),
    (Root(0, None), Map(Some(0))),
    // Three branches below map 0: 2 and 3, 4 with the same keys in the other order, and 5.
    (Grow(0, 7, true), Map(Some(2))),
    (Grow(2, 8, true), Map(Some(3))),
    (Grow(0, 8, true), Map(Some(4))),
    (Grow(4, 7, true), Map(Some(5))),
    (Grow(0, 9, false), Map(Some(6))),
    (Grow(0, 9, true), Map(Some(7))),
    (Grow(3, 8, false), Map(Some(8))),
    (Close(8), Map(Some(9))),
    (Close(9), NotMeant),
    (Grow(9, 1, true), NotMeant),
    // Each is found again.
    (Grow(2, 8, true), Map(Some(3))),
    (Grow(0, 9, false), Map(Some(6))),
    (Close(8), Map(Some(9))),
    (Walk(0, &[7, 8]), Map(Some(3))),
    (Walk(0, &[]), Map(Some(0))),
    (Walk(1, &[7]), Map(None)),
    (Path(9), Steps(4)),
    (Parent(9), Map(Some(8))),
    (Parent(0), Map(None)),
    (Kept(2, 8), Is(Smi)),
    (Kept(2, 9), Is(Unkept)),
    (Keep(2, 8, Tagged), Done),
    (Keep(6, 3, Smi), Done),
    (Kept(2, 8), Is(Tagged)),
    (Kept(6, 3), Is(Smi)),
    // The branch below map 2 dies, and nothing else.
    (Drop(3), Done),
    (Live(2), Lives(true)),
    (Live(3), Lives(false)),
    (Live(8), Lives(false)),
    (Live(9), Lives(false)),
    (Live(5), Lives(true)),
    (Live(7), Lives(true)),
    (Current(9), Map(None)),
    (Walk(0, &[7, 8]), Map(None)),
    (Kept(2, 8), Is(Tagged)),
    // What grows anew has a new number, and what died finds it.
    (Grow(2, 8, true), Map(Some(10))),
    (Current(3), Map(Some(10))),
    (Walk(3, &[]), Map(Some(10))),
    (Parent(3), Map(Some(2))),
    (Parent(10), Map(Some(2))),
    (Grow(3, 1, true), NotMeant),
    // Each prototype has a root of its own.
    (Root(0, Some(ObjectId(3))), Map(Some(11))),
    (Root(0, Some(ObjectId(4))), Map(Some(12))),
    (Root(0, Some(ObjectId(3))), Map(Some(11))),
    (Root(0, None), Map(Some(0))),
];
