//! The loop over requests and answers, up to the next line that is printed or to the end.

ghost use Rattle.std.specs.Prelude.{◌≡◌};
ghost use Rattle.es_model.specs.Program.{Of, Server, run};
ghost use Rattle.es_model.specs.Servers.{IsServerBy};
ghost use Rattle.es_model.specs.World.{World};
ghost use Rattle.es_serve.specs.Serve.{model, program_of};
ghost use Rattle.evaluator.specs.Functions.{script_program};
ghost use Rattle.object_heap.specs.Stands.{StandsFor};
ghost use Rattle.dispatcher.specs.Dispatching.{ComesTo, HasStepsLeft, StepsFall, outcome_left, steps_left};
ghost use Rattle.dispatcher.specs.Stack.{Leads, height, meaning};

use crate::countdown::Countdown;
use crate::entering::serve;
use crate::frames::of_running;
use crate::stack::{give, take};
use crate::state::{Entry, Next, State};
use es_model::{Completion, Reply, Request, Stop, Values};
use es_tree::Checked;
use evaluator::start_script;
use object_heap::Heap;
use property_keys::{Ledger, Steps, Value};
use std::alloc::Global;

/// What is being served: the frames that wait, and what is in hand.
#[derive(Drop)]
pub struct Dispatcher {
    pub(crate) stack: Vec<Entry>,
    pub(crate) state: State,
    pub(crate) left: Countdown,
}

/// What comes next of what is being served.
#[derive(Drop)]
pub enum Event {
    /// A line is printed, and the dispatcher goes on.
    Prints(Values, Dispatcher),
    Ends(Completion),
}

/// One request, or one answer.
fn step<L: Ledger>(
    alloc: Global,
    heap: &mut Heap,
    script: &Checked,
    stack: &mut Vec<Entry>,
    state: State,
    steps: &mut Steps<L>,
) -> Result<Next, Stop>
    ensures { (S : Server) (w : World) → IsServerBy program_of S → w.script ≡ script.now → StandsFor heap.old w → Leads script.now S (height stack.old.items state) (meaning script.now S stack.old.items state w) heap.old heap.new w stack.new.items result }
{
    match state {
        State::Starting => {
            let turn = of_running(start_script(heap, script, steps));
            take(stack, 0, turn)
        }
        State::Serving(request, nested) => {
            serve(alloc, heap, script, stack, request, nested, steps)
        }
        State::Returning(answer) => give(alloc, heap, script, stack, answer, steps),
    }
}

impl Dispatcher {
    /// A request is in hand, and no call is running. Steps enough are left for it.
    pub fn new(alloc: Global, heap: &Heap, script: &Checked, request: Request) -> Dispatcher
        ensures left { (w : World) → outcome_left script.now result w ≡ model 0 (Of request) w }
        ensures steps { (w : World) → w.script ≡ script.now → StandsFor heap.now w → HasStepsLeft script.now result w }
    {
        let turns = heap.turns_ref().left();
        Dispatcher {
            stack: Vec::new(alloc),
            state: State::Serving(request, 0),
            left: Countdown::new(turns, script.most_definitions()),
        }
    }

    /// The script itself is in hand, and no call is running. Steps enough are left for it.
    pub fn of_script(alloc: Global, heap: &Heap, script: &Checked) -> Dispatcher
        ensures left { (w : World) → outcome_left script.now result w ≡ run model (script_program script.now) 0 w }
        ensures steps { (w : World) → w.script ≡ script.now → StandsFor heap.now w → HasStepsLeft script.now result w }
    {
        let turns = heap.turns_ref().left();
        Dispatcher {
            stack: Vec::new(alloc),
            state: State::Starting,
            left: Countdown::new(turns, script.most_definitions()),
        }
    }

    /// Goes on to the next line that is printed, or to the end. Halted comes exactly where the model halts.
    pub fn go_on<L: Ledger>(
        self,
        alloc: Global,
        heap: &mut Heap,
        script: &Checked,
        steps: &mut Steps<L>,
    ) -> Result<Event, Stop>
        ensures comes { (w : World) → w.script ≡ script.now → StandsFor heap.old w → HasStepsLeft script.now self w → ComesTo script.now (outcome_left script.now self w) heap.old heap.new w result }
        ensures fewer { StepsFall (steps_left self) result }
    {
        let Dispatcher {
            mut stack,
            mut state,
            mut left,
        } = self;
        'requests: loop {
            if !left.take_one() {
                // No heap that stands for a world comes here, since steps enough are left.
                return Err(Stop::Halted);
            }
            match step(alloc, heap, script, &mut stack, state, steps) {
                Ok(Next::GoOn(next)) => state = next,
                Ok(Next::Prints(line)) => {
                    let nothing = Reply::Value(Value::Undefined);
                    let state = State::Returning(Completion::Normal(nothing));
                    return Ok(Event::Prints(line, Dispatcher { stack, state, left }));
                }
                Ok(Next::Ends(answer)) => return Ok(Event::Ends(answer)),
                Err(stop) => return Err(stop),
            }
        }
    }
}
