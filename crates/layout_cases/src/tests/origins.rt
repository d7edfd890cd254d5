//! Calls with their answers, worked out by hand.

use es_source::Place;
use map_store::OriginId;
use property_keys::NoMemory;
use slack_tracking::{OriginKind, Origins};
use std::test::Fail;

#[derive(Clone, Copy)]
enum Call {
    Begin(OriginKind, u32),
    Used(u32, u32),
    Constructed(u32),
    Places(u32),
}

use Call::{Begin, Constructed, Places, Used};

#[derive(Clone, Copy, Debug, PartialEq, Eq)]
enum Given {
    Done,
    Number(u32),
    Fell(bool),
    Unknown,
}

use Given::{Done, Fell, Number};

const LITERAL: OriginKind = OriginKind::Literal(Place { line: 3, column: 9 });

const BELOW: OriginKind = OriginKind::Literal(Place { line: 4, column: 9 });

const CONSTRUCTOR: OriginKind = OriginKind::Constructor(Place { line: 3, column: 9 });

/// Origin 0 uses two of its four places, origin 1 more than its six, and origin 3 all of its one.
const ROWS: [(Call, Given); 43] = [
    (Begin(OriginKind::Plain, 4), Number(0)),
    (Begin(LITERAL, 6), Number(1)),
    (Begin(BELOW, 5), Number(2)),
    (Begin(CONSTRUCTOR, 1), Number(3)),
    (Begin(LITERAL, 9), Number(1)),
    (Begin(OriginKind::Plain, 9), Number(0)),
    (Places(1), Number(6)),
    (Used(0, 2), Done),
    (Used(0, 1), Done),
    (Used(1, 9), Done),
    (Used(3, 1), Done),
    (Constructed(0), Fell(false)),
    (Constructed(0), Fell(false)),
    (Constructed(0), Fell(false)),
    (Constructed(0), Fell(false)),
    (Constructed(0), Fell(false)),
    (Constructed(0), Fell(false)),
    (Constructed(0), Fell(false)),
    (Places(0), Number(4)),
    (Constructed(0), Fell(true)),
    (Places(0), Number(2)),
    (Used(0, 1), Done),
    (Constructed(0), Fell(false)),
    (Places(0), Number(2)),
    (Constructed(1), Fell(false)),
    (Constructed(1), Fell(false)),
    (Constructed(1), Fell(false)),
    (Constructed(1), Fell(false)),
    (Constructed(1), Fell(false)),
    (Constructed(1), Fell(false)),
    (Constructed(1), Fell(false)),
    (Constructed(1), Fell(false)),
    (Constructed(1), Fell(false)),
    (Places(1), Number(6)),
    (Constructed(2), Fell(false)),
    (Constructed(2), Fell(false)),
    (Constructed(2), Fell(false)),
    (Constructed(2), Fell(false)),
    (Constructed(2), Fell(false)),
    (Constructed(2), Fell(false)),
    (Constructed(2), Fell(false)),
    (Constructed(2), Fell(true)),
    (Places(2), Number(0)),
];

fn answer_of(origins: &mut Origins, call: Call) -> Result<Given, NoMemory> {
    match call {
        Begin(kind, places) => Ok(Number(origins.begin(kind, places)?.0)),
        Used(origin, fields) if (origin as usize) < origins.len() => {
            origins.used(OriginId(origin), fields);
            Ok(Done)
        }
        Constructed(origin) if (origin as usize) < origins.len() => {
            Ok(Fell(origins.constructed(OriginId(origin))))
        }
        Places(origin) if (origin as usize) < origins.len() => {
            Ok(Number(origins.places(OriginId(origin))))
        }
        _ => Ok(Given::Unknown),
    }
}

#[test]
fn places_fall_once(rt: HostRuntime) -> Result<(), Fail> {
    let mut origins = Origins::new(rt.alloc());
    for (call, answer) in ROWS {
        assert_eq!(rt; answer_of(&mut origins, call)?, answer);
    }
    Ok(())
}

/// `rt try --test --fail-alloc N` refuses the N-th growth, and the call is then had at the second try.
#[test]
fn refusals_leave_all_as_before(rt: HostRuntime) -> Result<(), Fail> {
    let mut origins = Origins::new(rt.alloc());
    for (call, answer) in ROWS {
        let before = origins.len();
        if answer_of(&mut origins, call).is_err() {
            assert_eq!(rt; origins.len(), before);
            assert_eq!(rt; answer_of(&mut origins, call)?, answer);
        }
    }
    assert_eq!(rt; origins.len(), 4);
    Ok(())
}
