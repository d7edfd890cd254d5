//! What answers a request, and what a call of a frame gives.

use crate::{KeyList, Request, Values};
use descriptors::{Complete, Descriptor};
use property_keys::{NoMemory, ObjectId, PropKey, Value};

/// What a request gives where nothing is thrown.
#[derive(Drop)]
pub enum Reply {
    Value(Value),
    Flag(bool),
    Property(Option<Complete>),
    Keys(KeyList),
    Key(PropKey),
    Proto(Option<ObjectId>),
    List(Values),
    Wanted(Descriptor),
}

/// How an algorithm ends where the turns do not (ECMA-262, 6.2.4).
#[derive(Drop)]
pub enum Completion {
    Normal(Reply),
    Throw(Value),
}

/// What a frame does next: it asks, and goes on as this frame once the answer is there; or it is done.
#[derive(Drop)]
pub enum Turn<F> {
    Ask(Request, F),
    Done(Completion),
}

/// Fewer turns are left than were to be taken.
#[derive(Clone, Copy, Debug, PartialEq, Eq)]
pub struct Halted;

/// Why a frame cannot go on.
#[derive(Clone, Copy, Debug, PartialEq, Eq)]
pub enum Stop {
    /// The turns are at an end.
    Halted,
    /// Memory ran out, or a table has no number left.
    NoMemory,
}

impl From<Halted> for Stop {
    ghost use Rattle.std.specs.Prelude.{◌≡◌};
    ghost use Rattle.es_model.specs.declared.answers.Stop.TheVariants as stop;

    ghost from_gives = { λ _ e. e ≡ stop.Halted };

    fn from(_halted: Halted) -> Stop {
        Stop::Halted
    }
}

impl From<NoMemory> for Stop {
    ghost use Rattle.std.specs.Prelude.{◌≡◌};
    ghost use Rattle.es_model.specs.declared.answers.Stop.TheVariants as stop;

    ghost from_gives = { λ _ e. e ≡ stop.NoMemory };

    fn from(_no_memory: NoMemory) -> Stop {
        Stop::NoMemory
    }
}
