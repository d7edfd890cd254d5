//! The fields whose representations change when an object is moved to another map.

ghost use Rattle.std.specs.Prelude.{◌≡◌, ◌<◌, ◌++◌, ◌∷◌, ◌*◌, [], length, IfOk, OnOk, OnErr, slice_index_or};
ghost use Rattle.property_keys.specs.Counts.{TakesAtMost};
ghost use Rattle.map_store.specs.Views.{IsKnown, map_at};
ghost use Rattle.map_store.specs.Keys.{steps_on};
ghost use Rattle.map_deprecation.specs.Moves.{AreOfOnePath, moves_of, change_of};

use map_store::{Entry, MapId, Maps, Representation};
use property_keys::{Ledger, NoMemory, Steps};
use std::alloc::Global;
use std::marker::Model;

/// A field whose representation changes. `place` says which field of the object it is.
#[derive(Clone, Copy, Debug, PartialEq, Eq)]
pub struct Move {
    pub place: u32,
    pub old: Representation,
    pub new: Representation,
}

/// The fields whose representations change, in the order of the entries.
#[derive(Drop)]
pub struct Moves {
    moves: Vec<Move>,
}

impl Model for Moves {
    ghost use Rattle.std.specs.Prelude.{List};
    ghost use Rattle.map_deprecation.specs.declared.moves.Move.{Move};

    ghost Value = { List Move };

    ghost view = { λ m. m.moves.items };
}

impl Moves {
    pub fn new(alloc: Global) -> Moves
        ensures { result ≡ [] }
    {
        Moves {
            moves: Vec::new(alloc),
        }
    }

    /// After `NoMemory` the list is as before.
    pub fn push(&mut self, item: Move) -> Result<(), NoMemory>
        ensures ok { OnOk result (self.new ≡ self.old ++ item ∷ []) }
        ensures err { OnErr result (self.new ≡ self.old) }
    {
        match self.moves.push(item) {
            Ok(()) => Ok(()),
            Err(_) => Err(NoMemory),
        }
    }

    pub fn len(&self) -> usize
        ensures { result ≡ length self.now }
    {
        self.moves.len()
    }

    pub fn at(&self, i: usize) -> &Move
        requires { i < length self.now }
        ensures { result.now ≡ slice_index_or self.now i result.now }
    {
        &self.moves[i]
    }
}

/// What changes in an object that goes from one map to another of the same path, in two steps for each entry, and in no
/// more where the answer is `NoMemory`.
pub fn plan<L: Ledger>(
    alloc: Global,
    maps: &Maps,
    from: MapId,
    to: MapId,
    steps: &mut Steps<L>,
) -> Result<Moves, NoMemory>
    requires from { IsKnown maps.now from }
    requires to { IsKnown maps.now to }
    requires path { AreOfOnePath (map_at maps.now from).entries (map_at maps.now to).entries }
    ensures moves { IfOk result (λ moves. moves ≡ moves_of (map_at maps.now from).entries (map_at maps.now to).entries) }
    ensures steps { OnOk result (L.ticks steps.new ≡ steps_on (2 * length (map_at maps.now from).entries) (L.ticks steps.old)) }
    ensures err_steps { OnErr result (TakesAtMost (2 * length (map_at maps.now from).entries) (L.ticks steps.old) (L.ticks steps.new)) }
{
    let mut moves = Moves::new(alloc);
    for i in 0..maps.count(from) {
        let old = maps.entry(from, i, steps);
        let new = maps.entry(to, i, steps);
        add_change(&mut moves, old, new)?;
    }
    Ok(moves)
}

/// Appends what changes between two entries, where something does.
fn add_change(moves: &mut Moves, old: Entry, new: Entry) -> Result<(), NoMemory>
    ensures { OnOk result (moves.new ≡ moves.old ++ change_of old new) }
{
    if old.representation == new.representation {
        return Ok(());
    }
    moves.push(Move {
        place: old.place,
        old: old.representation,
        new: new.representation,
    })
}
