//! The table of texts.

ghost use Rattle.std.specs.Prelude.{◌≡◌, ◌<◌, ◌+◌, ◌^◌, ◌++◌, ◌↔◌, [], length, IfOk, IsErrOf, IfSome, IsNone};
ghost use Rattle.property_keys.specs.Limits.{most_units};
ghost use Rattle.std.specs.Result.{result_ok};
ghost use Rattle.property_keys.specs.Decimals.{whole_units};
ghost use Rattle.property_keys.specs.Keys.{key_of, text_of_key, AnswersName, IsGoodKey, IsTextKey};
ghost use Rattle.property_keys.specs.Numbers.{number_of};
ghost use Rattle.property_keys.specs.Texts.{text_at, Interns, IsNumberOf, IsUnknown, HasOneEach};
ghost use Rattle.property_keys.specs.Wholes.{IsWhole};

use crate::decimals::decimal_units;
use crate::indices::array_index;
use crate::numbers::number;
use crate::{KeyFault, NoMemory, NotWhole, PropKey, RunHashing, TextId, Units};
use indexmap::IndexSet;
use std::alloc::Global;
use std::marker::Model;

/// The texts, each with one number.
#[derive(Drop)]
pub struct Texts {
    alloc: Global,
    table: IndexSet<Units, RunHashing>,
}

impl Model for Texts {
    ghost use Rattle.std.specs.Prelude.{List, ℕ, length, ◌<◌, ◌^◌};

    ghost Value = { List (List ℕ) };

    ghost view = { λ t. t.table.keys };

    ghost invariant = { λ t. length t.table.keys < 2 ^ 32 };
}

impl Texts {
    /// A table without texts, hashed as in a run of an empty file.
    pub fn new(alloc: Global) -> Result<Texts, NoMemory>
        ensures { IfOk result (λ t. t ≡ []) }
    {
        Texts::with_hashing(alloc, RunHashing::of(&[]))
    }

    /// A table without texts. What the table comes to does not hang on the hashing, only the time that it takes.
    pub fn with_hashing(alloc: Global, hashing: RunHashing) -> Result<Texts, NoMemory>
        ensures { IfOk result (λ t. t ≡ []) }
    {
        Ok(Texts {
            alloc,
            table: IndexSet::with_hasher(alloc, hashing),
        })
    }

    /// How many texts there are.
    pub fn len(&self) -> usize
        ensures { result ≡ length self.now }
    {
        self.table.len()
    }

    /// The number of these units, new or known. There is room for 2^32 - 1 texts, and past them the answer is `NoMemory`.
    pub fn intern(&mut self, units: Units) -> Result<TextId, NoMemory>
        ensures { Interns self.old self.new units result }
    {
        if self.table.len() >= u32::MAX as usize {
            let Some(id) = self.find(&units) else {
                return Err(NoMemory);
            };
            return Ok(id);
        }
        let Ok((index, _)) = self.table.insert_full(units) else {
            return Err(NoMemory);
        };
        Ok(TextId(index as u32))
    }

    /// The number of these units. None exactly where no number has them, and equal units have one number.
    pub fn find(&self, units: &Units) -> Option<TextId>
        ensures found { IfSome result (λ id. IsNumberOf self.now units.now id.0) }
        ensures none { IsNone result ↔ IsUnknown self.now units.now }
        ensures one { HasOneEach self.now }
    {
        // The set tells here that its texts differ.
        let _count = self.table.len();
        match self.table.get_index_of(units) {
            Some(index) => Some(TextId(index as u32)),
            None => None,
        }
    }

    /// The units of a known number, and equal units have one number.
    pub fn units(&self, id: TextId) -> &Units
        requires { id.0 < length self.now }
        ensures units { result.now ≡ text_at self.now id.0 }
        ensures one { HasOneEach self.now }
    {
        // The set tells here that its texts differ.
        let _count = self.table.len();
        self.table.get_index(id.0 as usize).unwrap()
    }

    /// The number of the canonical decimal text of a whole number (ECMA-262, 6.1.6.1.20).
    pub fn whole_text(&mut self, n: i64) -> Result<TextId, NoMemory>
        ensures { Interns self.old self.new (whole_units n) result }
    {
        let units = decimal_units(self.alloc, n)?;
        self.intern(units)
    }

    /// The number of one text after another (ECMA-262, 6.1.4). TooLong exactly past 2^20 units.
    pub fn concat(&mut self, a: TextId, b: TextId) -> Result<TextId, KeyFault>
        requires a { a.0 < length self.old }
        requires b { b.0 < length self.old }
        ensures text { Interns self.old self.new (text_at self.old a.0 ++ text_at self.old b.0) result }
        ensures too_long { IsErrOf result KeyFault.TooLong ↔ (most_units < length (text_at self.old a.0) + length (text_at self.old b.0)) }
    {
        let units = Units::joined(self.alloc, self.units(a), self.units(b))?;
        match self.intern(units) {
            Ok(id) => Ok(id),
            Err(NoMemory) => Err(KeyFault::NoMemory),
        }
    }

    /// The key of a text (ECMA-262, 7.1.19): an `Index` exactly for an array index.
    pub fn key(&self, id: TextId) -> PropKey
        requires { id.0 < length self.now }
        ensures key { result ≡ key_of (text_at self.now id.0) id }
        ensures good { IsGoodKey self.now result }
        ensures text { IsTextKey self.now result }
    {
        match array_index(self.units(id).as_slice()) {
            Some(index) => PropKey::Index(index),
            None => PropKey::Name(id),
        }
    }

    /// The number of the text that a key stands for. A `Name` wants no memory.
    pub fn key_text(&mut self, key: PropKey) -> Result<TextId, NoMemory>
        requires { IsTextKey self.old key }
        ensures text { Interns self.old self.new (text_of_key self.old key) result }
        ensures name { AnswersName key result }
    {
        match key {
            PropKey::Index(index) => self.whole_text(i64::from(index)),
            PropKey::Name(id) => Ok(id),
            PropKey::Sym(_) => unreachable!(),
        }
    }

    /// The number of a text (ECMA-262, 7.1.4.1.1). NotWhole exactly where it is no whole number.
    pub fn text_whole(&self, id: TextId) -> Result<i64, NotWhole>
        requires { id.0 < length self.now }
        ensures number { result_ok result ≡ number_of (text_at self.now id.0) }
        ensures range { IfOk result IsWhole }
    {
        match number(self.units(id).as_slice()) {
            Some(n) => Ok(n),
            None => Err(NotWhole),
        }
    }
}
