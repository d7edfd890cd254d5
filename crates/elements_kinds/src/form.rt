//! The two forms that elements are kept in.

ghost use Rattle.std.specs.Prelude.{◌≡◌, IfOk, OnErr, OnOk};
ghost use Rattle.std.specs.FinMap as map_of;
ghost use Rattle.property_keys.specs.Counts.{TakesAtMost, counted};
ghost use Rattle.slot_storage.specs.Steps.{counted_times};
ghost use Rattle.elements_kinds.specs.Forms.{IsBegun, view_of};
ghost use Rattle.elements_kinds.specs.Rules.{IsGood, defined, end_of, greatest_of, removed};
ghost use Rattle.elements_kinds.specs.Steps.{steps_to_define, steps_to_list, steps_to_remove};

use crate::maps::{greatest_in, indices_in, property_at, put, take_out};
use crate::store::Store;
use crate::{ElementsKind, KeyIndices};
use descriptors::Complete;
use property_keys::{Ledger, NoMemory, Steps};
use std::alloc::Global;
use std::collections::BTreeMap;

/// How elements are kept.
#[derive(Drop)]
pub(crate) enum Form {
    /// A store that has taken no memory yet.
    Empty,
    Store(Store),
    Dictionary(BTreeMap<u32, Complete>),
}

impl Form {
    pub(crate) fn kind(&self) -> ElementsKind
        ensures { result ≡ (view_of self.now).kind }
    {
        match self {
            Form::Empty => ElementsKind::PackedSmi,
            Form::Store(store) => store.kind(),
            Form::Dictionary(_) => ElementsKind::Dictionary,
        }
    }

    pub(crate) fn capacity(&self) -> u64
        ensures { result ≡ (view_of self.now).capacity }
    {
        match self {
            Form::Empty => 0,
            Form::Store(store) => store.capacity(),
            Form::Dictionary(_) => 0,
        }
    }

    pub(crate) fn own<L: Ledger>(&self, i: u32, steps: &mut Steps<L>) -> Option<Complete>
        ensures property { result ≡ map_of.get (view_of self.now).properties i }
        ensures steps { L.ticks steps.new ≡ counted (L.ticks steps.old) }
    {
        match self {
            Form::Empty => {
                steps.tick();
                None
            }
            Form::Store(store) => store.own(i, steps),
            Form::Dictionary(map) => {
                steps.tick();
                property_at(map, i)
            }
        }
    }

    pub(crate) fn define<L: Ledger>(
        &mut self,
        alloc: Global,
        i: u32,
        property: Complete,
        steps: &mut Steps<L>,
    ) -> Result<(), NoMemory>
        requires { IsGood property }
        ensures ok { OnOk result (view_of self.new ≡ defined (view_of self.old) i property) }
        ensures err { OnErr result (view_of self.new ≡ view_of self.old) }
        ensures ok_steps { OnOk result (L.ticks steps.new ≡ counted_times (steps_to_define (view_of self.old) i property) (L.ticks steps.old)) }
        ensures err_steps { OnErr result (TakesAtMost (end_of (view_of self.old).properties) (L.ticks steps.old) (L.ticks steps.new)) }
    {
        self.begin(alloc)?;
        match self {
            Form::Empty => unreachable!(),
            Form::Store(store) => match store.fitting(i, property) {
                Some(value) => store.put(i, value, steps),
                None => {
                    let mut map = store.moved(alloc, steps)?;
                    put(&mut map, i, property)?;
                    *self = Form::Dictionary(map);
                    Ok(())
                }
            },
            Form::Dictionary(map) => put(map, i, property),
        }
    }

    /// Makes the store where there is none yet.
    fn begin(&mut self, alloc: Global) -> Result<(), NoMemory>
        ensures view { view_of self.new ≡ view_of self.old }
        ensures begun { OnOk result (IsBegun self.new) }
    {
        match self {
            Form::Empty => {
                *self = Form::Store(Store::empty(alloc)?);
                Ok(())
            }
            Form::Store(_) => Ok(()),
            Form::Dictionary(_) => Ok(()),
        }
    }

    pub(crate) fn remove<L: Ledger>(&mut self, i: u32, steps: &mut Steps<L>)
        ensures view { view_of self.new ≡ removed (view_of self.old) i }
        ensures steps { L.ticks steps.new ≡ counted_times (steps_to_remove (view_of self.old) i) (L.ticks steps.old) }
    {
        match self {
            Form::Empty => {}
            Form::Store(store) => store.remove(i, steps),
            Form::Dictionary(map) => take_out(map, i),
        }
    }

    pub(crate) fn greatest(&self) -> Option<u32>
        ensures { result ≡ greatest_of (view_of self.now).properties }
    {
        match self {
            Form::Empty => None,
            Form::Store(store) => store.greatest(),
            Form::Dictionary(map) => greatest_in(map),
        }
    }

    pub(crate) fn indices<L: Ledger>(
        &self,
        alloc: Global,
        steps: &mut Steps<L>,
    ) -> Result<KeyIndices, NoMemory>
        ensures ok { IfOk result (λ list. list ≡ map_of.keys (view_of self.now).properties) }
        ensures ok_steps { OnOk result (L.ticks steps.new ≡ counted_times (steps_to_list (view_of self.now)) (L.ticks steps.old)) }
        ensures err_steps { OnErr result (TakesAtMost (end_of (view_of self.now).properties) (L.ticks steps.old) (L.ticks steps.new)) }
    {
        match self {
            Form::Empty => Ok(KeyIndices::new(alloc)),
            Form::Store(store) => store.indices(alloc, steps),
            Form::Dictionary(map) => indices_in(alloc, map),
        }
    }
}
