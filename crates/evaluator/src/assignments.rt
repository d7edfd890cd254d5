//! Assignments (ECMA-262, 13.15).

ghost use Rattle.evaluator.specs.Assignments.{assignment};
ghost use Rattle.evaluator.specs.Plans.{PlansAt};
ghost use Rattle.object_heap.specs.Retains.{Retains};
ghost use Rattle.es_model.specs.World.{World};
ghost use Rattle.object_heap.specs.Stands.{StandsFor};
ghost use Rattle.es_model.specs.Sound.{IsSound};
ghost use Rattle.es_model.specs.Kept.{IsKnownRunning};
ghost use Rattle.evaluator.specs.Names.{NamesPlan};

use crate::accesses::target_reference;
use crate::cells::Cells;
use crate::items::{Plan, Purpose};
use crate::references::Arithmetic;
use es_model::{Running, Stop};
use es_tree::{AssignOperator, Checked, NodeId, Target};
use object_heap::Heap;
use property_keys::{Ledger, Steps};

pub(crate) fn assignment<L: Ledger>(
    heap: &mut Heap,
    script: &Checked,
    body: Running,
    cells: &Cells,
    operator: AssignOperator,
    target: &Target,
    value: NodeId,
    steps: &mut Steps<L>,
) -> Result<Plan, Stop>
    ensures plans { PlansAt script.now body cells.now heap.old heap.new (λ here. assignment here operator target.now value) result }
    ensures named { (w v : World) → StandsFor heap.old w → IsSound w → StandsFor heap.new v → IsKnownRunning script.now v.lists body → NamesPlan script.now v.lists result }
    ensures retains { Retains heap.old heap.new }
{
    match operator {
        AssignOperator::Plain => target_reference(
            heap,
            script,
            body,
            cells,
            target,
            Purpose::Assign { value },
            steps,
        ),
        AssignOperator::Add => {
            let purpose = Purpose::Compound {
                operator: Arithmetic::Add,
                value,
            };
            target_reference(heap, script, body, cells, target, purpose, steps)
        }
        AssignOperator::Subtract => {
            let purpose = Purpose::Compound {
                operator: Arithmetic::Subtract,
                value,
            };
            target_reference(heap, script, body, cells, target, purpose, steps)
        }
        AssignOperator::Multiply => {
            let purpose = Purpose::Compound {
                operator: Arithmetic::Multiply,
                value,
            };
            target_reference(heap, script, body, cells, target, purpose, steps)
        }
        AssignOperator::Remainder => {
            let purpose = Purpose::Compound {
                operator: Arithmetic::Remainder,
                value,
            };
            target_reference(heap, script, body, cells, target, purpose, steps)
        }
    }
}
