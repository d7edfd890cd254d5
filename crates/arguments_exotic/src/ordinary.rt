//! The ordinary methods, where an arguments object has them.

ghost use Rattle.es_model.specs.Fits.{IsKnownRequest};
ghost use Rattle.es_model.specs.World.{World};
ghost use Rattle.object_heap.specs.Retains.{Retains};
ghost use Rattle.object_heap.specs.Stands.{StandsFor};
ghost use Rattle.object_heap.specs.Turns.{KeepsNamed, world_after};
ghost use Rattle.ordinary_object.specs.Names.{names_of};
ghost use Rattle.ordinary_object.specs.Ordinary.{ordinary_program};
ghost use Rattle.arguments_exotic.specs.Turns.{StopsAt};

use crate::turns::ArgumentsFrame;
use es_model::{Request, Stop, Turn};
use object_heap::Heap;
use property_keys::{Ledger, Steps};
use std::alloc::Global;

/// The ordinary method.
pub(crate) fn ordinary<L: Ledger>(
    alloc: Global,
    heap: &mut Heap,
    request: &Request,
    steps: &mut Steps<L>,
) -> Result<Turn<ArgumentsFrame>, Stop>
    ensures stops { StopsAt heap.old heap.new (ordinary_program request.now) result }
    ensures named { (w : World) → StandsFor heap.old w → IsKnownRequest w.lists request.now → KeepsNamed names_of (world_after (ordinary_program request.now) w) result }
    ensures retains { Retains heap.old heap.new }
{
    ordinary_object::start(alloc, heap, request, steps)
}
