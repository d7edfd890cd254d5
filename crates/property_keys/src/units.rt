//! Lists of code units.

ghost use Rattle.std.specs.Prelude.{◌≡◌, ◌<◌, ◌≤◌, ◌+◌, ◌^◌, ◌++◌, ◌∷◌, [], ℕ, List, length, slice_get, Some, IfOk, OnOk, OnErr, IsErrOf, ◌↔◌, bytes_eq};
ghost use Rattle.property_keys.specs.Limits.{most_units};

use crate::{KeyFault, NoMemory};
use std::alloc::Global;
use std::hash::{Hash, Hasher};
use std::marker::Model;

/// A text has at most so many code units.
pub const MOST_UNITS: usize = 1 << 20;

/// A text: a list of at most 2^20 code units (ECMA-262, 6.1.4).
#[derive(Drop, Debug)]
pub struct Units {
    units: Vec<u16>,
}

impl Model for Units {
    ghost use Rattle.std.specs.Prelude.{List, ℕ, length, ◌≤◌};
    ghost use Rattle.property_keys.specs.Limits.{most_units};

    ghost Value = { List ℕ };

    ghost view = { λ u. u.units.items };

    ghost invariant = { λ u. length u.units.items ≤ most_units };
}

// A view that forgets the capacity has no `inverse`, so the comparisons are written by hand, over the list.
impl PartialEq for Units {
    ghost use Rattle.std.specs.Str.{bytes_eq};
    ghost use Rattle.std.specs.Cmp.{partial_equiv_from_equiv};
    ghost use Rattle.std.specs.Cmp.Lexicographic.{nat_list_eq_equiv};

    ghost eq = { bytes_eq };

    ghost laws = { partial_equiv_from_equiv nat_list_eq_equiv };

    fn eq(&self, other: &Units) -> bool {
        self.units == other.units
    }
}

impl Eq for Units {
    ghost use Rattle.std.specs.Cmp.Lexicographic.{nat_list_eq_equiv};

    ghost laws = { nat_list_eq_equiv };
}

impl Hash for Units {
    ghost use Rattle.std.specs.Hash as fed;
    ghost use Rattle.std.proofs.Common.{rules};
    ghost use Rattle.std.specs.Cmp.Rules.{hashing};

    ghost hash_input = { fed.slice fed.u16 };

    ghost respects_eq = { Prim.search (hashing, rules) };

    fn hash<H: Hasher>(&self, state: &mut H) {
        self.units.hash(state);
    }
}

impl Units {
    /// The empty text.
    pub fn new(alloc: Global) -> Units
        ensures { result ≡ [] }
    {
        Units {
            units: Vec::new(alloc),
        }
    }

    /// Puts a unit at the end. TooLong exactly at 2^20 units, and after an error the units are as before.
    pub fn push(&mut self, unit: u16) -> Result<(), KeyFault>
        ensures ok { OnOk result (self.new ≡ self.old ++ unit ∷ []) }
        ensures too_long { IsErrOf result KeyFault.TooLong ↔ (length self.old ≡ most_units) }
        ensures err { OnErr result (self.new ≡ self.old) }
    {
        if self.units.len() == MOST_UNITS {
            return Err(KeyFault::TooLong);
        }
        match self.append(unit) {
            Ok(()) => Ok(()),
            Err(NoMemory) => Err(KeyFault::NoMemory),
        }
    }

    /// `push` where there is room.
    pub(crate) fn append(&mut self, unit: u16) -> Result<(), NoMemory>
        requires { length self.old < most_units }
        ensures ok { OnOk result (self.new ≡ self.old ++ unit ∷ []) }
        ensures err { OnErr result (self.new ≡ self.old) }
    {
        match self.units.push(unit) {
            Ok(()) => Ok(()),
            Err(_) => Err(NoMemory),
        }
    }

    /// How many code units there are.
    pub fn len(&self) -> usize
        ensures value { result ≡ length self.now }
        ensures most { result ≤ most_units }
    {
        self.units.len()
    }

    /// The code unit at a place, counted from 0.
    pub fn unit(&self, i: usize) -> u16
        requires { i < length self.now }
        ensures { slice_get self.now i ≡ Some result }
    {
        self.units[i]
    }

    /// A copy.
    pub fn copied(&self, alloc: Global) -> Result<Units, NoMemory>
        ensures { IfOk result (λ copy. copy ≡ self.now) }
    {
        let Ok(mut units) = Vec::with_capacity(alloc, self.len()) else {
            return Err(NoMemory);
        };
        match units.extend_from_slice(self.as_slice()) {
            Ok(()) => Ok(Units { units }),
            Err(_) => Err(NoMemory),
        }
    }

    /// Whether these are the code units of this ASCII text.
    pub fn is_ascii(&self, text: &[u8]) -> bool
        ensures { result ≡ bytes_eq self.now text.now }
    {
        if self.len() != text.len() {
            return false;
        }
        for i in 0..text.len() {
            if self.unit(i) != u16::from(text[i]) {
                return false;
            }
        }
        true
    }

    pub(crate) fn as_slice(&self) -> &[u16]
        ensures { result.now ≡ self.now }
    {
        self.units.as_slice()
    }

    /// One text after another. TooLong exactly past 2^20 units.
    pub(crate) fn joined(alloc: Global, a: &Units, b: &Units) -> Result<Units, KeyFault>
        ensures ok { IfOk result (λ u. u ≡ a.now ++ b.now) }
        ensures too_long { IsErrOf result KeyFault.TooLong ↔ (most_units < length a.now + length b.now) }
    {
        if a.len() + b.len() > MOST_UNITS {
            return Err(KeyFault::TooLong);
        }
        let mut units = Vec::new(alloc);
        let first = units.extend_from_slice(a.as_slice());
        if first.is_err() || units.extend_from_slice(b.as_slice()).is_err() {
            return Err(KeyFault::NoMemory);
        }
        Ok(Units { units })
    }
}
