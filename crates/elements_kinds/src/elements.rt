//! Elements: a store of words until something does not fit it, and then a dictionary.

ghost use Rattle.std.specs.Prelude.{◌≡◌, IfOk, OnErr, OnOk};
ghost use Rattle.std.specs.FinMap as map_of;
ghost use Rattle.property_keys.specs.Counts.{TakesAtMost, counted};
ghost use Rattle.slot_storage.specs.Steps.{counted_times};
ghost use Rattle.elements_kinds.specs.Rules.{IsGood, defined, end_of, greatest_of, removed, start};
ghost use Rattle.elements_kinds.specs.Steps.{steps_to_define, steps_to_list, steps_to_remove};

use crate::form::Form;
use crate::{ElementsKind, KeyIndices};
use descriptors::Complete;
use property_keys::{Ledger, NoMemory, Steps};
use std::alloc::Global;
use std::marker::Model;

/// The indexed properties of an object, seen as a finite map from indices to properties, with their kind and their capacity. An index is at most 2^32 - 2.
///
/// They begin as a packed store of small numbers with the capacity 0. A store takes data properties whose three flags are true, at indices below 2^23 that are
/// no further than 1,024 past its capacity, and else becomes a dictionary, which it stays. Where an index is at or past the capacity, the capacity becomes
/// n + n/2 + 16, with n one more than the index.
#[derive(Drop)]
pub struct Elements {
    alloc: Global,
    form: Form,
}

impl Model for Elements {
    ghost use Rattle.elements_kinds.specs.Codes.{view_code};
    ghost use Rattle.elements_kinds.specs.Forms.{view_of};
    ghost use Rattle.elements_kinds.specs.Rules.{View};

    ghost Value = { View };

    ghost coded = { view_code };

    ghost view = { λ e. view_of e.form };
}

impl Elements {
    /// No properties. It takes no memory.
    pub fn new(alloc: Global) -> Elements
        ensures { result ≡ start }
    {
        Elements {
            alloc,
            form: Form::Empty,
        }
    }

    /// The property at an index, in one step. None exactly where the index is absent.
    pub fn own<L: Ledger>(&self, i: u32, steps: &mut Steps<L>) -> Option<Complete>
        ensures property { result ≡ map_of.get (self.now).properties i }
        ensures steps { L.ticks steps.new ≡ counted (L.ticks steps.old) }
    {
        self.form.own(i, steps)
    }

    /// Puts a property at an index, in one step for each word that is read, written or carried over. A number in it is in the range of the values. After
    /// `NoMemory` all is as before, but for the steps.
    pub fn define<L: Ledger>(
        &mut self,
        i: u32,
        property: Complete,
        steps: &mut Steps<L>,
    ) -> Result<(), NoMemory>
        requires { IsGood property }
        ensures ok { OnOk result (self.new ≡ defined self.old i property) }
        ensures err { OnErr result (self.new ≡ self.old) }
        ensures ok_steps { OnOk result (L.ticks steps.new ≡ counted_times (steps_to_define self.old i property) (L.ticks steps.old)) }
        ensures err_steps { OnErr result (TakesAtMost (end_of (self.old).properties) (L.ticks steps.old) (L.ticks steps.new)) }
    {
        self.form.define(self.alloc, i, property, steps)
    }

    /// Takes out the property at an index, if there is one, in one step for each word that is read or written. It takes no memory.
    pub fn remove<L: Ledger>(&mut self, i: u32, steps: &mut Steps<L>)
        ensures view { self.new ≡ removed self.old i }
        ensures steps { L.ticks steps.new ≡ counted_times (steps_to_remove self.old i) (L.ticks steps.old) }
    {
        self.form.remove(i, steps);
    }

    /// The greatest index present. None exactly where there is none.
    pub fn greatest(&self) -> Option<u32>
        ensures { result ≡ greatest_of (self.now).properties }
    {
        self.form.greatest()
    }

    /// The indices present, ascending, in one step for each word that is read.
    pub fn indices<L: Ledger>(&self, steps: &mut Steps<L>) -> Result<KeyIndices, NoMemory>
        ensures ok { IfOk result (λ list. list ≡ map_of.keys (self.now).properties) }
        ensures ok_steps { OnOk result (L.ticks steps.new ≡ counted_times (steps_to_list self.now) (L.ticks steps.old)) }
        ensures err_steps { OnErr result (TakesAtMost (end_of (self.now).properties) (L.ticks steps.old) (L.ticks steps.new)) }
    {
        self.form.indices(self.alloc, steps)
    }

    /// How the properties are kept.
    pub fn kind(&self) -> ElementsKind
        ensures { result ≡ (self.now).kind }
    {
        self.form.kind()
    }

    /// How many words there are, 0 for a dictionary.
    pub fn capacity(&self) -> u64
        ensures { result ≡ (self.now).capacity }
    {
        self.form.capacity()
    }
}
