//! The frame of a running body, and what the machine has in hand.

use crate::cells::Cells;
use crate::items::{Asked, Ending, Item, Job};
use es_model::{Completion, Request, Running, Values};
use es_tree::FunctionNo;
use property_keys::ObjectId;
use std::marker::Model;

/// An item that waits, with how many cells are in force there.
#[derive(Drop)]
pub(crate) struct Pending {
    pub(crate) item: Item,
    pub(crate) depth: usize,
}

/// A running body that waits for an answer: a node or a statement in it has asked, and below it wait the items of those around it, which see no more cells
/// than it has.
#[derive(Drop)]
pub struct BodyFrame {
    pub(crate) body: Running,
    pub(crate) cells: Cells,
    pub(crate) pending: Vec<Pending>,
    pub(crate) asked: Asked,
}

impl Model for BodyFrame {
    ghost use Rattle.std.specs.Prelude.{length};
    ghost use Rattle.evaluator.specs.Frames.{IsStacked, Waiting};

    ghost Value = { Waiting };

    ghost view = { λ f. record { body = f.body; cells = f.cells; pending = f.pending.items; asked = f.asked } };

    ghost invariant = { λ f. IsStacked 0 f.pending.items (length f.cells) };
}

/// A construction that waits for the prototype of its new target (ECMA-262, 10.1.14): the function, its object and the arguments.
#[derive(Drop)]
pub struct Construction {
    pub(crate) function: FunctionNo,
    pub(crate) callee: ObjectId,
    pub(crate) arguments: Values,
    pub(crate) target: ObjectId,
}

/// A body that waits for an answer, or a construction before its body runs.
#[derive(Drop)]
pub enum EvalFrame {
    Body(BodyFrame),
    Constructing(Construction),
}

/// What is in hand.
#[derive(Drop)]
pub(crate) enum Current {
    At(Job),
    EndedBy(Ending),
}

/// What a step of the machine comes to.
#[derive(Drop)]
pub(crate) enum Next {
    GoOn(Current),
    Asks(Request, Asked),
    Ends(Completion),
}
