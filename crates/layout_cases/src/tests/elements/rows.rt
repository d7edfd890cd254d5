//! Steps, with what is to be seen of each: the answer, the kind and the capacity after it, and how many steps it took.

use super::{Seen, Step};
use elements_kinds::ElementsKind::{
    self, Dictionary, HoleySmi, HoleyTagged, HoleyWhole, PackedSmi, PackedTagged, PackedWhole,
};
use property_keys::{ObjectId, SymbolId, TextId, Value};

pub(crate) struct Row(
    pub(crate) Step,
    pub(crate) Seen,
    pub(crate) ElementsKind,
    pub(crate) u64,
    pub(crate) u64,
);

/// Capacities, and the greatest index that a store takes: 1,024 past its capacity.
pub(crate) static GROWTH: [Row; 21] = [
    Row(Step::Greatest, Seen::Greatest(None), PackedSmi, 0, 0),
    Row(Step::Own(0), Seen::Absent, PackedSmi, 0, 1),
    Row(Step::Remove(0), Seen::Done, PackedSmi, 0, 0),
    Row(Step::Put(0, 5), Seen::Done, PackedSmi, 17, 18),
    // An index past the end makes a hole.
    Row(Step::Put(16, 1), Seen::Done, HoleySmi, 17, 1),
    Row(Step::Put(17, 2), Seen::Done, HoleySmi, 43, 44),
    Row(Step::Put(1067, 3), Seen::Done, HoleySmi, 1618, 1619),
    Row(Step::Put(2642, 4), Seen::Done, HoleySmi, 3980, 3981),
    Row(Step::Own(1067), Seen::Whole(3), HoleySmi, 3980, 1),
    Row(Step::Own(1066), Seen::Absent, HoleySmi, 3980, 1),
    Row(Step::Own(3980), Seen::Absent, HoleySmi, 3980, 1),
    Row(
        Step::Greatest,
        Seen::Greatest(Some(2642)),
        HoleySmi,
        3980,
        0,
    ),
    // One more than 1,024 past the capacity: each word up to the greatest index is read.
    Row(Step::Put(5005, 6), Seen::Done, Dictionary, 0, 2643),
    Row(Step::Own(2642), Seen::Whole(4), Dictionary, 0, 1),
    Row(Step::Own(5005), Seen::Whole(6), Dictionary, 0, 1),
    Row(Step::Own(1), Seen::Absent, Dictionary, 0, 1),
    Row(Step::Greatest, Seen::Greatest(Some(5005)), Dictionary, 0, 0),
    Row(Step::Indices, Seen::Indices(6, 0, 5005), Dictionary, 0, 0),
    // A dictionary stays one.
    Row(Step::Put(1, 1), Seen::Done, Dictionary, 0, 0),
    Row(Step::Remove(5005), Seen::Done, Dictionary, 0, 0),
    Row(Step::Greatest, Seen::Greatest(Some(2642)), Dictionary, 0, 0),
];

/// Each class after each, and the values at the edges of the classes, which come back.
pub(crate) static CLASSES: [Row; 38] = [
    Row(Step::Put(0, 2147483647), Seen::Done, PackedSmi, 17, 18),
    Row(Step::Put(1, -2147483648), Seen::Done, PackedSmi, 17, 1),
    // Each of 17 words is read and written.
    Row(Step::Put(2, 2147483648), Seen::Done, PackedWhole, 17, 35),
    Row(Step::Put(3, -2147483649), Seen::Done, PackedWhole, 17, 1),
    Row(
        Step::Put(4, 9007199254740991),
        Seen::Done,
        PackedWhole,
        17,
        1,
    ),
    Row(
        Step::Put(5, -9007199254740991),
        Seen::Done,
        PackedWhole,
        17,
        1,
    ),
    Row(Step::Put(6, 7), Seen::Done, PackedWhole, 17, 1),
    Row(Step::Own(0), Seen::Whole(2147483647), PackedWhole, 17, 1),
    Row(Step::Own(1), Seen::Whole(-2147483648), PackedWhole, 17, 1),
    Row(Step::Own(7), Seen::Absent, PackedWhole, 17, 1),
    Row(
        Step::PutValue(7, Value::Object(ObjectId(4294967295))),
        Seen::Done,
        PackedTagged,
        17,
        35,
    ),
    Row(
        Step::PutValue(8, Value::Undefined),
        Seen::Done,
        PackedTagged,
        17,
        1,
    ),
    Row(
        Step::PutValue(9, Value::Null),
        Seen::Done,
        PackedTagged,
        17,
        1,
    ),
    Row(
        Step::PutValue(10, Value::Bool(true)),
        Seen::Done,
        PackedTagged,
        17,
        1,
    ),
    Row(
        Step::PutValue(11, Value::Bool(false)),
        Seen::Done,
        PackedTagged,
        17,
        1,
    ),
    Row(
        Step::PutValue(12, Value::Text(TextId(4294967295))),
        Seen::Done,
        PackedTagged,
        17,
        1,
    ),
    Row(
        Step::PutValue(13, Value::Symbol(SymbolId(0))),
        Seen::Done,
        PackedTagged,
        17,
        1,
    ),
    Row(Step::Put(14, 0), Seen::Done, PackedTagged, 17, 1),
    Row(Step::Own(0), Seen::Whole(2147483647), PackedTagged, 17, 1),
    Row(Step::Own(1), Seen::Whole(-2147483648), PackedTagged, 17, 1),
    Row(Step::Own(2), Seen::Whole(2147483648), PackedTagged, 17, 1),
    Row(Step::Own(3), Seen::Whole(-2147483649), PackedTagged, 17, 1),
    Row(
        Step::Own(4),
        Seen::Whole(9007199254740991),
        PackedTagged,
        17,
        1,
    ),
    Row(
        Step::Own(5),
        Seen::Whole(-9007199254740991),
        PackedTagged,
        17,
        1,
    ),
    Row(
        Step::Own(7),
        Seen::Value(Value::Object(ObjectId(4294967295))),
        PackedTagged,
        17,
        1,
    ),
    Row(
        Step::Own(8),
        Seen::Value(Value::Undefined),
        PackedTagged,
        17,
        1,
    ),
    Row(Step::Own(9), Seen::Value(Value::Null), PackedTagged, 17, 1),
    Row(
        Step::Own(10),
        Seen::Value(Value::Bool(true)),
        PackedTagged,
        17,
        1,
    ),
    Row(
        Step::Own(11),
        Seen::Value(Value::Bool(false)),
        PackedTagged,
        17,
        1,
    ),
    Row(
        Step::Own(12),
        Seen::Value(Value::Text(TextId(4294967295))),
        PackedTagged,
        17,
        1,
    ),
    Row(
        Step::Own(13),
        Seen::Value(Value::Symbol(SymbolId(0))),
        PackedTagged,
        17,
        1,
    ),
    Row(Step::Own(14), Seen::Whole(0), PackedTagged, 17, 1),
    Row(Step::Own(15), Seen::Absent, PackedTagged, 17, 1),
    Row(Step::Anew, Seen::Done, PackedSmi, 0, 0),
    // Growth, then another class: 17 words are made, and each is read and written.
    Row(
        Step::PutValue(0, Value::Text(TextId(0))),
        Seen::Done,
        PackedTagged,
        17,
        52,
    ),
    Row(Step::Anew, Seen::Done, PackedSmi, 0, 0),
    Row(Step::Put(1, 2147483648), Seen::Done, HoleyWhole, 19, 58),
    Row(Step::Put(0, 1), Seen::Done, HoleyWhole, 19, 1),
];

/// The greatest index leaves a packed store, any other one a holey store.
pub(crate) static REMOVALS: [Row; 24] = [
    Row(Step::Put(0, 10), Seen::Done, PackedSmi, 17, 18),
    Row(Step::Put(1, 11), Seen::Done, PackedSmi, 17, 1),
    Row(Step::Put(2, 12), Seen::Done, PackedSmi, 17, 1),
    // The word is read and made a hole, and the next one down is read.
    Row(Step::Remove(2), Seen::Done, PackedSmi, 17, 3),
    Row(Step::Greatest, Seen::Greatest(Some(1)), PackedSmi, 17, 0),
    Row(Step::Put(2, 13), Seen::Done, PackedSmi, 17, 1),
    Row(Step::Indices, Seen::Indices(3, 0, 2), PackedSmi, 17, 3),
    Row(Step::Remove(3), Seen::Done, PackedSmi, 17, 1),
    Row(Step::Remove(17), Seen::Done, PackedSmi, 17, 0),
    Row(Step::Remove(1), Seen::Done, HoleySmi, 17, 2),
    Row(Step::Own(1), Seen::Absent, HoleySmi, 17, 1),
    Row(Step::Remove(1), Seen::Done, HoleySmi, 17, 1),
    Row(Step::Indices, Seen::Indices(2, 0, 2), HoleySmi, 17, 3),
    // Two words down to the one that is present.
    Row(Step::Remove(2), Seen::Done, HoleySmi, 17, 4),
    Row(Step::Greatest, Seen::Greatest(Some(0)), HoleySmi, 17, 0),
    Row(Step::Remove(0), Seen::Done, HoleySmi, 17, 2),
    Row(Step::Greatest, Seen::Greatest(None), HoleySmi, 17, 0),
    Row(Step::Indices, Seen::Indices(0, 0, 0), HoleySmi, 17, 0),
    // It stays holey.
    Row(Step::Put(0, 1), Seen::Done, HoleySmi, 17, 1),
    Row(
        Step::PutValue(1, Value::Null),
        Seen::Done,
        HoleyTagged,
        17,
        35,
    ),
    Row(Step::Anew, Seen::Done, PackedSmi, 0, 0),
    Row(Step::Put(0, 1), Seen::Done, PackedSmi, 17, 18),
    // All that is there.
    Row(Step::Remove(0), Seen::Done, PackedSmi, 17, 2),
    Row(Step::Put(0, 1), Seen::Done, PackedSmi, 17, 1),
];

/// An accessor, and each flag that is false.
pub(crate) static FLAGS: [Row; 19] = [
    Row(Step::Put(0, 1), Seen::Done, PackedSmi, 17, 18),
    Row(Step::Put(1, 2), Seen::Done, PackedSmi, 17, 1),
    Row(Step::Accessor(1), Seen::Done, Dictionary, 0, 2),
    Row(Step::Own(1), Seen::Accessor, Dictionary, 0, 1),
    Row(Step::Own(0), Seen::Whole(1), Dictionary, 0, 1),
    // A value of any class is one.
    Row(Step::PutValue(1, Value::Null), Seen::Done, Dictionary, 0, 0),
    Row(Step::Own(1), Seen::Value(Value::Null), Dictionary, 0, 1),
    Row(Step::Anew, Seen::Done, PackedSmi, 0, 0),
    Row(
        Step::Flags(0, false, true, true),
        Seen::Done,
        Dictionary,
        0,
        0,
    ),
    Row(
        Step::Own(0),
        Seen::Flags(false, true, true),
        Dictionary,
        0,
        1,
    ),
    Row(Step::Anew, Seen::Done, PackedSmi, 0, 0),
    Row(
        Step::Flags(0, true, false, true),
        Seen::Done,
        Dictionary,
        0,
        0,
    ),
    Row(
        Step::Own(0),
        Seen::Flags(true, false, true),
        Dictionary,
        0,
        1,
    ),
    Row(Step::Anew, Seen::Done, PackedSmi, 0, 0),
    Row(
        Step::Flags(0, true, true, false),
        Seen::Done,
        Dictionary,
        0,
        0,
    ),
    Row(
        Step::Own(0),
        Seen::Flags(true, true, false),
        Dictionary,
        0,
        1,
    ),
    Row(Step::Anew, Seen::Done, PackedSmi, 0, 0),
    Row(
        Step::Flags(0, true, true, true),
        Seen::Done,
        PackedSmi,
        17,
        18,
    ),
    Row(Step::Own(0), Seen::Whole(0), PackedSmi, 17, 1),
];

/// `let a=[]; a[1]="s"; let b=[1]; b[2000]=2; let c=[7]; c[0]=2147483648;`, and `a[0]=1; a[1]="x"; a[3000]=2; delete a[1];`, and `a[4294967294]=1;`.
pub(crate) static SCRIPTS: [Row; 19] = [
    Row(
        Step::PutValue(1, Value::Text(TextId(3))),
        Seen::Done,
        HoleyTagged,
        19,
        58,
    ),
    Row(Step::Anew, Seen::Done, PackedSmi, 0, 0),
    Row(Step::Put(0, 1), Seen::Done, PackedSmi, 17, 18),
    Row(Step::Put(2000, 2), Seen::Done, Dictionary, 0, 1),
    Row(Step::Anew, Seen::Done, PackedSmi, 0, 0),
    Row(Step::Put(0, 7), Seen::Done, PackedSmi, 17, 18),
    Row(Step::Put(0, 2147483648), Seen::Done, PackedWhole, 17, 35),
    Row(Step::Anew, Seen::Done, PackedSmi, 0, 0),
    Row(Step::Put(0, 1), Seen::Done, PackedSmi, 17, 18),
    Row(
        Step::PutValue(1, Value::Text(TextId(4))),
        Seen::Done,
        PackedTagged,
        17,
        35,
    ),
    Row(Step::Put(3000, 2), Seen::Done, Dictionary, 0, 2),
    Row(Step::Remove(1), Seen::Done, Dictionary, 0, 0),
    Row(Step::Own(3000), Seen::Whole(2), Dictionary, 0, 1),
    Row(Step::Own(1), Seen::Absent, Dictionary, 0, 1),
    Row(Step::Indices, Seen::Indices(2, 0, 3000), Dictionary, 0, 0),
    Row(Step::Anew, Seen::Done, PackedSmi, 0, 0),
    Row(Step::Put(4294967294, 1), Seen::Done, Dictionary, 0, 0),
    Row(
        Step::Greatest,
        Seen::Greatest(Some(4294967294)),
        Dictionary,
        0,
        0,
    ),
    Row(
        Step::Indices,
        Seen::Indices(1, 4294967294, 4294967294),
        Dictionary,
        0,
        0,
    ),
];
