//! Steps, with what is to be seen of each.

use super::{Seen, Step};
use property_keys::{PropKey, SymbolId, TextId};

pub(crate) struct Row(pub(crate) Step, pub(crate) Seen);

const A: PropKey = PropKey::Name(TextId(1));

const B: PropKey = PropKey::Name(TextId(2));

const C: PropKey = PropKey::Name(TextId(3));

/// A key of another kind with the number of `A`.
const SYMBOL: PropKey = PropKey::Sym(SymbolId(1));

const INDEX: PropKey = PropKey::Index(1);

pub(crate) static ORDER: [Row; 13] = [
    Row(Step::Len, Seen::Len(0)),
    Row(Step::Find(A), Seen::Place(None)),
    Row(Step::Remove(A), Seen::Removed(false)),
    Row(Step::Insert(SYMBOL, 5), Seen::Done),
    Row(Step::Insert(A, 6), Seen::Done),
    Row(Step::Insert(INDEX, 7), Seen::Done),
    Row(Step::Insert(A, 8), Seen::NotMeant),
    Row(Step::Len, Seen::Len(3)),
    Row(Step::At(0), Seen::Entry(SYMBOL, 5)),
    Row(Step::At(1), Seen::Entry(A, 6)),
    Row(Step::At(2), Seen::Entry(INDEX, 7)),
    Row(Step::At(3), Seen::NotMeant),
    Row(Step::Find(INDEX), Seen::Place(Some(2))),
];

/// `let o={a:1,b:2,c:3}; delete o.a; o.a=4;` leaves the keys b, c, a.
pub(crate) static DELETED_AND_ADDED: [Row; 12] = [
    Row(Step::Insert(A, 1), Seen::Done),
    Row(Step::Insert(B, 2), Seen::Done),
    Row(Step::Insert(C, 3), Seen::Done),
    Row(Step::Remove(A), Seen::Removed(true)),
    Row(Step::Find(A), Seen::Place(None)),
    Row(Step::At(0), Seen::Entry(B, 2)),
    Row(Step::At(1), Seen::Entry(C, 3)),
    Row(Step::Insert(A, 4), Seen::Done),
    Row(Step::At(2), Seen::Entry(A, 4)),
    Row(Step::Find(A), Seen::Place(Some(2))),
    Row(Step::Find(B), Seen::Place(Some(0))),
    Row(Step::Len, Seen::Len(3)),
];

pub(crate) static WRITTEN: [Row; 8] = [
    Row(Step::Insert(A, 1), Seen::Done),
    Row(Step::Insert(B, 2), Seen::Done),
    Row(Step::Remove(A), Seen::Removed(true)),
    Row(Step::Replace(0, 9), Seen::Done),
    Row(Step::Replace(1, 9), Seen::NotMeant),
    Row(Step::At(0), Seen::Entry(B, 9)),
    Row(Step::Find(B), Seen::Place(Some(0))),
    Row(Step::Len, Seen::Len(1)),
];
