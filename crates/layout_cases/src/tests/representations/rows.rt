//! Two objects with x and y, and one with x and z: x meets wider and wider values. Worked out by hand.

use Call::{Add, Field, Generalise, Live, Move, Root};
use Seen::{Done, Is, Lives, Map, Moves, NotMeant};
use map_deprecation::Class::{self, Ref, Smi, Whole};
use map_store::Representation;

/// What is asked. Maps are given by their numbers, and fields by their places.
#[derive(Clone, Copy)]
pub(crate) enum Call {
    Root,
    Add(u32, u32),
    Generalise(u32, u32, Class),
    /// The live map of a map's row, and the plan of an object that goes there.
    Move(u32),
    Live(u32),
    Field(u32, u32),
}

#[derive(Clone, Copy, PartialEq)]
pub(crate) enum Seen {
    Done,
    Map(u32),
    /// A map, how many fields change, and the first: its place, the old and the new representation.
    Moves(u32, usize, (u32, Representation, Representation)),
    Lives(bool),
    Is(Representation),
    /// The map or the field is not there, or the step does not fit.
    NotMeant,
}

pub(crate) const ROWS: [(Call, Seen); 30] = [
    (Root, Map(0)),
    // Keys 0, 1 and 2 are x, y and z; maps 2 and 3 have x and y, and x and z.
    (Add(0, 0), Map(1)),
    (Add(1, 1), Map(2)),
    (Add(1, 2), Map(3)),
    (Generalise(2, 0, Smi), Done),
    (Live(2), Lives(true)),
    (Move(2), Map(2)),
    // x meets a greater number in an object of map 2: all maps with x die.
    (Generalise(2, 0, Whole), Done),
    (Live(0), Lives(true)),
    (Live(1), Lives(false)),
    (Live(2), Lives(false)),
    (Live(3), Lives(false)),
    (Field(2, 0), Is(Representation::Smi)),
    (
        Move(2),
        Moves(5, 1, (0, Representation::Smi, Representation::Whole)),
    ),
    (Live(4), Lives(true)),
    (Field(4, 0), Is(Representation::Whole)),
    (Field(5, 1), Is(Representation::Smi)),
    (Generalise(2, 0, Whole), Done),
    (Live(5), Lives(true)),
    // y meets an object: map 5 dies, and map 4 stays.
    (Generalise(5, 1, Ref), Done),
    (Live(4), Lives(true)),
    (Live(5), Lives(false)),
    // x meets an object, in one of the dead map 3.
    (Generalise(3, 0, Ref), Done),
    (Live(4), Lives(false)),
    (
        Move(3),
        Moves(7, 1, (0, Representation::Smi, Representation::Tagged)),
    ),
    (
        Move(2),
        Moves(8, 2, (0, Representation::Smi, Representation::Tagged)),
    ),
    (
        Move(5),
        Moves(8, 2, (0, Representation::Whole, Representation::Tagged)),
    ),
    (Field(8, 1), Is(Representation::Tagged)),
    (Generalise(8, 2, Smi), NotMeant),
    (Add(2, 3), NotMeant),
];
