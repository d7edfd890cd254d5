//! Values and representations with their words, worked out by hand.

ghost use Rattle.property_keys.specs.Wholes.{IsWhole};

mod forest;
mod rows;

use Representation::{Ref, Smi, Tagged, Whole};
use forest::Forest;
use map_deprecation::{Class, Move, Moves, class_of, decode, encode, join, plan, takes};
use map_store::{Entry, Kind, MapId, Maps, OriginId, Representation};
use property_keys::{
    Attributes, Counting, NoMemory, ObjectId, PropKey, Steps, SymbolId, TextId, Value,
};
use rows::ROWS;
use std::test::Fail;

/// A whole number, what is one class of it, and its word in three kinds of field. (2^53 - 1 is 9007199254740991.)
const NUMBERS: [(i64, Class, Representation, u64); 19] = [
    (0, Class::Smi, Smi, 0),
    (-1, Class::Smi, Smi, 4_294_967_295),
    (2_147_483_647, Class::Smi, Smi, 2_147_483_647),
    (-2_147_483_648, Class::Smi, Smi, 2_147_483_648),
    (2_147_483_648, Class::Whole, Whole, 9_007_201_402_224_639),
    (-2_147_483_649, Class::Whole, Whole, 9_007_197_107_257_342),
    (0, Class::Smi, Whole, 9_007_199_254_740_991),
    (
        9_007_199_254_740_991,
        Class::Whole,
        Whole,
        18_014_398_509_481_982,
    ),
    (-9_007_199_254_740_991, Class::Whole, Whole, 0),
    (0, Class::Smi, Tagged, 72_057_594_037_927_931),
    (1, Class::Smi, Tagged, 72_057_594_037_927_939),
    (
        9_007_199_254_740_991,
        Class::Whole,
        Tagged,
        144_115_188_075_855_859,
    ),
    (-9_007_199_254_740_991, Class::Whole, Tagged, 3),
    // The edges of the small numbers in wider fields: the number plus 2^53 - 1, and eight times that and 3.
    (2_147_483_647, Class::Smi, Whole, 9_007_201_402_224_638),
    (-2_147_483_648, Class::Smi, Whole, 9_007_197_107_257_343),
    (2_147_483_647, Class::Smi, Tagged, 72_057_611_217_797_107),
    (-2_147_483_648, Class::Smi, Tagged, 72_057_576_858_058_747),
    (2_147_483_648, Class::Whole, Tagged, 72_057_611_217_797_115),
    (-2_147_483_649, Class::Whole, Tagged, 72_057_576_858_058_739),
];

/// Whether a number that its field takes has this word, and comes back from it.
fn is_written(n: i64, representation: Representation, word: u64) -> bool
    requires { IsWhole n }
{
    let value = Value::Whole(n);
    takes(representation, class_of(value))
        && encode(value, representation) == word
        && decode(word, representation) == value
}

#[test]
fn numbers_at_the_edges_of_the_classes(rt: HostRuntime) -> Result<(), Fail> {
    for (n, class, representation, word) in NUMBERS {
        if n < -9_007_199_254_740_991 || n > 9_007_199_254_740_991 {
            assert!(rt; false);
            return Ok(());
        }
        assert_eq!(rt; class_of(Value::Whole(n)), class);
        assert!(rt; is_written(n, representation, word));
    }
    Ok(())
}

/// Other values, with their words.
const OTHERS: [(Value, Class, Representation, u64); 16] = [
    (Value::Undefined, Class::Tagged, Tagged, 0),
    (Value::Null, Class::Tagged, Tagged, 1),
    (Value::Bool(false), Class::Tagged, Tagged, 2),
    (Value::Bool(true), Class::Tagged, Tagged, 10),
    (Value::Text(TextId(2)), Class::Tagged, Tagged, 20),
    (
        Value::Symbol(SymbolId(4_294_967_295)),
        Class::Tagged,
        Tagged,
        34_359_738_365,
    ),
    (Value::Object(ObjectId(3)), Class::Ref, Ref, 3),
    (Value::Object(ObjectId(3)), Class::Ref, Tagged, 30),
    // The first and the last number of each kind: eight times 4294967295 is 34359738360.
    (Value::Text(TextId(0)), Class::Tagged, Tagged, 4),
    (
        Value::Text(TextId(4_294_967_295)),
        Class::Tagged,
        Tagged,
        34_359_738_364,
    ),
    (Value::Symbol(SymbolId(0)), Class::Tagged, Tagged, 5),
    (Value::Object(ObjectId(0)), Class::Ref, Ref, 0),
    (Value::Object(ObjectId(0)), Class::Ref, Tagged, 6),
    (
        Value::Object(ObjectId(4_294_967_295)),
        Class::Ref,
        Ref,
        4_294_967_295,
    ),
    (
        Value::Object(ObjectId(4_294_967_295)),
        Class::Ref,
        Tagged,
        34_359_738_366,
    ),
    (Value::Text(TextId(1)), Class::Tagged, Tagged, 12),
];

fn is_other_written(value: Value, representation: Representation, word: u64) -> bool {
    if let Value::Whole(_) = value {
        return false;
    }
    takes(representation, class_of(value))
        && encode(value, representation) == word
        && decode(word, representation) == value
}

#[test]
fn other_values(rt: HostRuntime) -> Result<(), Fail> {
    for (value, class, representation, word) in OTHERS {
        assert_eq!(rt; class_of(value), class);
        assert!(rt; is_other_written(value, representation, word));
    }
    Ok(())
}

const CLASSES: [Class; 4] = [Class::Smi, Class::Whole, Class::Ref, Class::Tagged];

/// Of a representation, for each class whether it takes it, and the join with it.
const JOINS: [(Representation, [bool; 4], [Representation; 4]); 5] = [
    (
        Representation::None,
        [false, false, false, false],
        [Smi, Whole, Ref, Tagged],
    ),
    (
        Smi,
        [true, false, false, false],
        [Smi, Whole, Tagged, Tagged],
    ),
    (
        Whole,
        [true, true, false, false],
        [Whole, Whole, Tagged, Tagged],
    ),
    (
        Ref,
        [false, false, true, false],
        [Tagged, Tagged, Ref, Tagged],
    ),
    (
        Tagged,
        [true, true, true, true],
        [Tagged, Tagged, Tagged, Tagged],
    ),
];

#[test]
fn classes_are_taken_and_joined(rt: HostRuntime) -> Result<(), Fail> {
    for (representation, taken, joined) in JOINS {
        for (i, class) in CLASSES.iter().enumerate() {
            assert_eq!(rt; takes(representation, *class), taken[i]);
            if representation != Representation::Pair {
                assert_eq!(rt; join(representation, *class), joined[i]);
            }
        }
    }
    assert!(rt; !takes(Representation::Pair, Class::Tagged));
    Ok(())
}

fn entry(key: u32, representation: Representation) -> Entry {
    Entry {
        key: PropKey::Index(key),
        kind: Kind::Stored,
        attributes: Attributes {
            writable: true,
            enumerable: true,
            configurable: true,
        },
        representation,
        place: key,
    }
}

/// A map with two fields of these representations.
fn two_fields(
    maps: &mut Maps,
    first: Representation,
    second: Representation,
) -> Result<MapId, NoMemory> {
    let root = maps.root(OriginId(0), None)?;
    if root.0 as usize >= maps.len() {
        return Err(NoMemory);
    }
    let one = maps.extend(root, entry(0, first))?;
    if one.0 as usize >= maps.len() {
        return Err(NoMemory);
    }
    maps.extend(one, entry(1, second))
}

/// A map of two fields, given as its own goal: nothing moves, and each of its two entries is read twice.
#[test]
fn nothing_moves_within_one_map(rt: HostRuntime) -> Result<(), Fail> {
    let mut maps = Maps::new(rt.alloc());
    let map = two_fields(&mut maps, Smi, Tagged)?;
    let mut steps = Steps::new(Counting::new());
    assert!(rt; (map.0 as usize) < maps.len());
    let moves = plan(rt.alloc(), &maps, map, map, &mut steps)?;
    assert_eq!(rt; moves.len(), 0);
    assert_eq!(rt; steps.ledger().ticks(), 4);
    Ok(())
}

#[test]
fn moves_are_a_list(rt: HostRuntime) -> Result<(), Fail> {
    let mut moves = Moves::new(rt.alloc());
    let item = Move {
        place: 4,
        old: Smi,
        new: Tagged,
    };
    if moves.push(item).is_err() {
        assert_eq!(rt; moves.len(), 0);
        moves.push(item)?;
    }
    assert_eq!(rt; moves.len(), 1);
    assert_eq!(rt; *moves.at(0), item);
    Ok(())
}

/// The number of the first row of which something else is seen. A call that was refused memory is had at the second try.
fn first_wrong(forest: &mut Forest) -> Result<Option<usize>, NoMemory> {
    for (number, (call, seen)) in ROWS.iter().enumerate() {
        let answer = match forest.seen(*call) {
            Ok(answer) => answer,
            Err(_) => forest.seen(*call)?,
        };
        if answer != *seen {
            return Ok(Some(number));
        }
    }
    Ok(None)
}

#[test]
fn fields_widen(rt: HostRuntime) -> Result<(), Fail> {
    let mut forest = Forest::new(rt.alloc());
    assert_eq!(rt; first_wrong(&mut forest)?, None);
    Ok(())
}
