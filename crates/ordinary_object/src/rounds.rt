//! The walk of OrdinarySetPrototypeOf (10.1.2.1) up the prototypes.

ghost use Rattle.std.specs.Prelude.{◌≡◌, ℕ, suc, length};
ghost use Rattle.es_model.specs.Objects.{is_proxy};
ghost use Rattle.es_model.specs.Stages.{stage_of};
ghost use Rattle.es_model.specs.World.{World};
ghost use Rattle.ordinary_object.specs.Ordinary.{set_prototype_round};
ghost use Rattle.object_heap.specs.Retains.{Retains};
ghost use Rattle.object_heap.specs.Stands.{StandsFor};
ghost use Rattle.object_heap.specs.Stops.{Stops};
ghost use Rattle.object_heap.specs.Turns.{KeepsNamed};
ghost use Rattle.ordinary_object.specs.Names.{names_of};
ghost use Rattle.ordinary_object.specs.Rests.{program_after};
ghost use Rattle.ordinary_object.specs.Rounds.{IsRound};

use crate::OrdinaryFrame;
use crate::prototypes::same_object;
use es_model::{Completion, ObjectKind, Reply, Stop, Turn};
use object_heap::Heap;
use property_keys::{Ledger, ObjectId, Steps};

/// What a round of the walk up the prototypes comes to.
#[derive(Drop)]
enum Round {
    /// It goes on with this object or null.
    On(Option<ObjectId>),
    /// It is over, and the prototype was set or not.
    Over(bool),
}

/// Steps 5 to 9 of OrdinarySetPrototypeOf (10.1.2.1). Where no chain of prototypes comes back to an object, it has no more rounds than there are objects, and one.
pub(crate) fn set_prototype_rounds<L: Ledger>(
    heap: &mut Heap,
    object: ObjectId,
    wanted: Option<ObjectId>,
    steps: &mut Steps<L>,
) -> Result<Turn<OrdinaryFrame>, Stop>
    ensures stops { (w : World) → StandsFor heap.old w → Stops program_after heap.old heap.new w (stage_of (set_prototype_round (suc (length w.lists.objects)) object wanted wanted) w) result }
    ensures named { (w : World) → KeepsNamed names_of w result }
    ensures retains { Retains heap.old heap.new }
{
    let mut left = heap.objects();
    let mut at = wanted;
    loop {
        match set_prototype_round(heap, object, wanted, at, steps) {
            Err(stop) => return Err(stop),
            Ok(Round::Over(is_set)) => {
                return Ok(Turn::Done(Completion::Normal(Reply::Flag(is_set))));
            }
            Ok(Round::On(next)) => {
                if left == 0 {
                    return Ok(Turn::Done(Completion::Normal(Reply::Flag(false))));
                }
                left -= 1;
                at = next;
            }
        }
    }
}

/// A round of step 7 of OrdinarySetPrototypeOf (10.1.2.1), and steps 8 and 9 where it is the last.
fn set_prototype_round<L: Ledger>(
    heap: &mut Heap,
    object: ObjectId,
    wanted: Option<ObjectId>,
    at: Option<ObjectId>,
    steps: &mut Steps<L>,
) -> Result<Round, Stop>
    ensures round { (left : ℕ) (w : World) → StandsFor heap.old w → IsRound heap.old heap.new w left object wanted (stage_of (set_prototype_round (suc left) object wanted at) w) result }
    ensures retains { Retains heap.old heap.new }
{
    heap.charge(1)?;
    match at {
        // step 7.a
        None => {
            heap.set_proto(object, wanted, steps)?;
            Ok(Round::Over(true))
        }
        Some(up) => {
            // step 7.b
            if same_object(up, object) {
                return Ok(Round::Over(false));
            }
            // step 7.c.i
            if is_proxy(heap.kind(up)) {
                heap.set_proto(object, wanted, steps)?;
                return Ok(Round::Over(true));
            }
            // step 7.c.ii
            Ok(Round::On(heap.proto(up)))
        }
    }
}

fn is_proxy(kind: &ObjectKind) -> bool
    ensures { result ≡ is_proxy kind.now }
{
    match kind {
        ObjectKind::Proxy { .. } => true,
        ObjectKind::Ordinary
        | ObjectKind::Function { .. }
        | ObjectKind::Builtin { .. }
        | ObjectKind::Array
        | ObjectKind::Text(_)
        | ObjectKind::Wrapper(_)
        | ObjectKind::Arguments { .. }
        | ObjectKind::Error => false,
    }
}
