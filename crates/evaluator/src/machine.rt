//! The machine that evaluates a running body between two requests.

ghost use Rattle.std.specs.Prelude.{◌≡◌, ◌++◌, ◌∷◌, ◌+◌, ◌≤◌, [], ℕ, OnOk, Ok, is_some, length};
ghost use Rattle.es_model.specs.Completions.{answered};
ghost use Rattle.es_model.specs.Fits.{IsKnownCompletion};
ghost use Rattle.es_model.specs.Kept.{IsKept, IsKnownRunning, AreCells};
ghost use Rattle.es_model.specs.Program.{Outcome, Program, Server, run as run_of};
ghost use Rattle.es_model.specs.Sound.{IsSound};
ghost use Rattle.es_model.specs.Stages.{Stage, outcome_at, stage_of, world_at};
ghost use Rattle.es_model.specs.Unwinding.{Stays};
ghost use Rattle.es_model.specs.World.{Lists, World};
ghost use Rattle.evaluator.specs.Contexts.{Context, context};
ghost use Rattle.evaluator.specs.Frames.{IsStacked};
ghost use Rattle.evaluator.specs.Machine.{IsInner, IsNext, IsServer, eval_rest, height, meaning, pending_rest, unwound};
ghost use Rattle.evaluator.specs.Plans.{Plans, asked_program, ended, task_of};
ghost use Rattle.evaluator.specs.Soundness.{KeepsCurrent, KeepsItem, KeepsItems, StaysSoundNext, StaysSoundTurn};
ghost use Rattle.evaluator.specs.declared.frames.Current.TheVariants.{At, EndedBy};
ghost use Rattle.object_heap.specs.Retains.{Retains};
ghost use Rattle.object_heap.specs.Stands.{HeapView, StandsFor};
ghost use Rattle.object_heap.specs.Turns.{IsTurnOf};
ghost use Rattle.es_model.specs.Belongs.{HasNames};
ghost use Rattle.evaluator.specs.Names.{IsHereNamed, IsHereNext, IsKnownCurrent, NamesItems, NamesNext, NamesPlan, NamesTurn, names_of_asked, names_of_item};
ghost use Rattle.es_tree.specs.Tree.{Tree};

use crate::answers::asked_plan;
use crate::cells::Cells;
use crate::countdown::Countdown;
use crate::endings::end_of_body;
use crate::frames::{BodyFrame, Current, EvalFrame, Next, Pending};
use crate::items::{Asked, Ending, Item, Job, Plan};
use crate::jobs::{item_plan, job_plan};
use es_model::{Completion, Running, Stop, Turn};
use es_tree::Checked;
use object_heap::Heap;
use property_keys::{Ledger, NoMemory, Steps};

// ---- one step

fn wait(pending: &mut Vec<Pending>, entry: Pending) -> Result<(), NoMemory>
    ensures { OnOk result (pending.new.items ≡ pending.old.items ++ entry ∷ []) }
{
    match pending.push(entry) {
        Ok(()) => Ok(()),
        Err(_) => Err(NoMemory),
    }
}

/// Follows a plan that was made where so many cells were in force, and so many are now: an item may come to wait.
fn follow(pending: &mut Vec<Pending>, before: usize, depth: usize, plan: Plan) -> Result<Next, Stop>
    requires fewer { before ≤ depth }
    requires stacked { IsStacked 0 pending.old.items before }
    ensures next { (outer inner : Context) (S : Server) (n : ℕ) (old new : HeapView) (w : World) (stage : Stage) → IsInner outer inner → before ≡ length outer.cells → depth ≡ length inner.cells → Stays w (world_at stage) → Plans outer inner old new w stage (Ok plan) → IsNext inner S n (length pending.old.items + 2) (unwound inner S n pending.old.items (outcome_at S n stage)) old new w pending.new.items result }
    ensures sound { (outer inner : Context) (p : Program) (old new : HeapView) (w : World) → IsInner outer inner → before ≡ length outer.cells → depth ≡ length inner.cells → IsKept IsKnownCompletion p w → KeepsItems outer w pending.old.items → Plans outer inner old new w (stage_of p w) (Ok plan) → StaysSoundNext inner old new w pending.new.items result }
    ensures stacked { OnOk result (IsStacked 0 pending.new.items depth) }
    ensures named { (script : Tree) (l : Lists) → NamesItems script l pending.old.items → NamesPlan script l (Ok plan) → NamesNext script l pending.new.items result }
{
    match plan {
        Plan::Wait(job, item) => {
            wait(pending, Pending { item, depth })?;
            Ok(Next::GoOn(Current::At(job)))
        }
        Plan::Enter(job, statement, _) => {
            let item = Item::Statement(statement);
            wait(
                pending,
                Pending {
                    item,
                    depth: before,
                },
            )?;
            Ok(Next::GoOn(Current::At(job)))
        }
        Plan::Last(job) => Ok(Next::GoOn(Current::At(job))),
        Plan::Ask(request, asked) => Ok(Next::Asks(request, asked)),
        Plan::Ends(end) => Ok(Next::GoOn(Current::EndedBy(end))),
    }
}

/// A job in hand.
fn advance<L: Ledger>(
    heap: &mut Heap,
    script: &Checked,
    body: Running,
    cells: &mut Cells,
    pending: &mut Vec<Pending>,
    job: Job,
    steps: &mut Steps<L>,
) -> Result<Next, Stop>
    requires { IsStacked 0 pending.old.items (length cells.old) }
    ensures next { (S : Server) (n : ℕ) (w : World) → IsServer S → w.script ≡ script.now → StandsFor heap.old w → IsNext (context script.now body cells.new) S n (length pending.old.items + 2) (unwound (context script.now body cells.old) S n pending.old.items (S n (task_of (context script.now body cells.old) job) w)) heap.old heap.new w pending.new.items result }
    ensures sound { (w : World) → w.script ≡ script.now → StandsFor heap.old w → KeepsCurrent (context script.now body cells.old) w (At job) → KeepsItems (context script.now body cells.old) w pending.old.items → StaysSoundNext (context script.now body cells.new) heap.old heap.new w pending.new.items result }
    ensures stacked { OnOk result (IsStacked 0 pending.new.items (length cells.new)) }
    ensures named { (w v : World) → w.script ≡ script.now → StandsFor heap.old w → IsSound w → StandsFor heap.new v → IsKnownRunning script.now v.lists body → NamesItems script.now v.lists pending.old.items → NamesNext script.now v.lists pending.new.items result }
    ensures known { (w v : World) → StandsFor heap.old w → StandsFor heap.new v → AreCells v.lists cells.old → OnOk result (AreCells v.lists cells.new) }
    ensures retains { Retains heap.old heap.new }
{
    let before = cells.len();
    match job_plan(heap, script, body, cells, job, steps) {
        Err(stop) => Err(stop),
        Ok(plan) => follow(pending, before, cells.len(), plan),
    }
}

/// An item goes on with the end of the part that it waited for.
fn wake<L: Ledger>(
    heap: &mut Heap,
    script: &Checked,
    body: Running,
    cells: &mut Cells,
    pending: &mut Vec<Pending>,
    entry: Pending,
    end: Ending,
    steps: &mut Steps<L>,
) -> Result<Next, Stop>
    requires high { entry.depth ≤ length cells.old }
    requires stacked { IsStacked 0 pending.old.items entry.depth }
    ensures next { (S : Server) (n : ℕ) (w : World) → w.script ≡ script.now → StandsFor heap.old w → IsNext (context script.now body cells.new) S n (length pending.old.items + 2) (unwound (context script.now body cells.old) S n pending.old.items (pending_rest (context script.now body cells.old) S n entry (ended end) w)) heap.old heap.new w pending.new.items result }
    ensures sound { (w : World) → StandsFor heap.old w → KeepsCurrent (context script.now body cells.old) w (EndedBy end) → KeepsItem (context script.now body cells.old) w entry → KeepsItems (context script.now body cells.old) w pending.old.items → StaysSoundNext (context script.now body cells.new) heap.old heap.new w pending.new.items result }
    ensures stacked { OnOk result (IsStacked 0 pending.new.items (length cells.new)) }
    ensures named { (w v : World) → StandsFor heap.old w → IsSound w → StandsFor heap.new v → HasNames script.now v.lists (names_of_item entry.item) → IsKnownCompletion v.lists (ended end) → NamesItems script.now v.lists pending.old.items → NamesNext script.now v.lists pending.new.items result }
    ensures known { (w v : World) → StandsFor heap.old w → StandsFor heap.new v → AreCells v.lists cells.old → OnOk result (AreCells v.lists cells.new) }
    ensures retains { Retains heap.old heap.new }
{
    let Pending { item, depth } = entry;
    cells.truncate(depth);
    match item_plan(heap, script, body, cells, item, end, steps) {
        Err(stop) => Err(stop),
        Ok(plan) => follow(pending, depth, cells.len(), plan),
    }
}

/// One job, or one end.
fn step<L: Ledger>(
    heap: &mut Heap,
    script: &Checked,
    body: Running,
    cells: &mut Cells,
    pending: &mut Vec<Pending>,
    current: Current,
    steps: &mut Steps<L>,
) -> Result<Next, Stop>
    requires { IsStacked 0 pending.old.items (length cells.old) }
    ensures next { (S : Server) (n : ℕ) (w : World) → IsServer S → w.script ≡ script.now → StandsFor heap.old w → IsNext (context script.now body cells.new) S n (height pending.old.items current) (meaning (context script.now body cells.old) S n pending.old.items current w) heap.old heap.new w pending.new.items result }
    ensures sound { (w : World) → w.script ≡ script.now → StandsFor heap.old w → KeepsCurrent (context script.now body cells.old) w current → KeepsItems (context script.now body cells.old) w pending.old.items → StaysSoundNext (context script.now body cells.new) heap.old heap.new w pending.new.items result }
    ensures stacked { OnOk result (IsStacked 0 pending.new.items (length cells.new)) }
    ensures named { (w v : World) → w.script ≡ script.now → StandsFor heap.old w → IsSound w → StandsFor heap.new v → IsKnownRunning script.now v.lists body → IsKnownCurrent v.lists current → NamesItems script.now v.lists pending.old.items → NamesNext script.now v.lists pending.new.items result }
    ensures known { (w v : World) → StandsFor heap.old w → StandsFor heap.new v → AreCells v.lists cells.old → OnOk result (AreCells v.lists cells.new) }
    ensures retains { Retains heap.old heap.new }
{
    match current {
        Current::At(job) => advance(heap, script, body, cells, pending, job, steps),
        Current::EndedBy(end) => match pending.pop() {
            None => {
                let answer = end_of_body(heap, script, body, end)?;
                Ok(Next::Ends(answer))
            }
            Some(entry) => wake(heap, script, body, cells, pending, entry, end, steps),
        },
    }
}

// ---- until a request or the end

fn waiting(body: Running, cells: Cells, pending: Vec<Pending>, asked: Asked) -> BodyFrame
    requires { IsStacked 0 pending.items (length cells) }
    ensures { result ≡ record { body = body; cells = cells; pending = pending.items; asked = asked } }
{
    BodyFrame {
        body,
        cells,
        pending,
        asked,
    }
}

/// Evaluates until a request or the end of the body.
pub(crate) fn go<L: Ledger>(
    heap: &mut Heap,
    script: &Checked,
    body: Running,
    mut cells: Cells,
    mut pending: Vec<Pending>,
    mut current: Current,
    steps: &mut Steps<L>,
) -> Result<Turn<EvalFrame>, Stop>
    requires { IsStacked 0 pending.items (length cells) }
    ensures turn { (S : Server) (n : ℕ) (w : World) → IsServer S → w.script ≡ script.now → StandsFor heap.old w → IsTurnOf (eval_rest script.now) heap.old heap.new w S n (meaning (context script.now body cells) S n pending.items current w) result }
    ensures sound { (w : World) → w.script ≡ script.now → StandsFor heap.old w → KeepsCurrent (context script.now body cells) w current → KeepsItems (context script.now body cells) w pending.items → StaysSoundTurn (is_some body.constructs) script.now heap.old heap.new w result }
    ensures belongs { (w v : World) → w.script ≡ script.now → StandsFor heap.old w → KeepsCurrent (context script.now body cells) w current → KeepsItems (context script.now body cells) w pending.items → IsHereNamed script.now w.lists body cells pending.items → StandsFor heap.new v → NamesTurn script.now v.lists result }
    ensures retains { Retains heap.old heap.new }
{
    let mut left = Countdown::new(
        heap.turns_ref().left(),
        pending.len(),
        script.most_definitions(),
    );
    'steps: loop {
        if !left.take_one() {
            // There are steps enough: no heap that stands for a world of the script comes here.
            return Err(Stop::Halted);
        }
        match step(heap, script, body, &mut cells, &mut pending, current, steps) {
            Ok(Next::GoOn(next)) => current = next,
            Ok(Next::Asks(request, asked)) => {
                return Ok(Turn::Ask(
                    request,
                    EvalFrame::Body(waiting(body, cells, pending, asked)),
                ));
            }
            Ok(Next::Ends(answer)) => return Ok(Turn::Done(answer)),
            Err(stop) => return Err(stop),
        }
    }
}

// ---- with an answer

fn continue_with<L: Ledger>(
    heap: &mut Heap,
    script: &Checked,
    body: Running,
    cells: Cells,
    pending: Vec<Pending>,
    next: Next,
    steps: &mut Steps<L>,
) -> Result<Turn<EvalFrame>, Stop>
    requires { IsStacked 0 pending.items (length cells) }
    ensures turn { (S : Server) (n a : ℕ) (o : Outcome) (old : HeapView) (w : World) → IsServer S → w.script ≡ script.now → IsNext (context script.now body cells) S n a o old heap.old w pending.items (Ok next) → IsTurnOf (eval_rest script.now) old heap.new w S n o result }
    ensures sound { (old : HeapView) (w : World) → w.script ≡ script.now → StaysSoundNext (context script.now body cells) old heap.old w pending.items (Ok next) → StaysSoundTurn (is_some body.constructs) script.now old heap.new w result }
    ensures belongs { (old : HeapView) (w v : World) → w.script ≡ script.now → StaysSoundNext (context script.now body cells) old heap.old w pending.items (Ok next) → ((x : World) → StandsFor heap.old x → IsHereNext script.now x.lists body cells pending.items (Ok next)) → StandsFor heap.new v → NamesTurn script.now v.lists result }
    ensures retains { Retains heap.old heap.new }
{
    match next {
        Next::GoOn(current) => go(heap, script, body, cells, pending, current, steps),
        Next::Asks(request, asked) => Ok(Turn::Ask(
            request,
            EvalFrame::Body(waiting(body, cells, pending, asked)),
        )),
        Next::Ends(answer) => Ok(Turn::Done(answer)),
    }
}

/// A body goes on with the answer to what it asked.
pub(crate) fn take_answer<L: Ledger>(
    heap: &mut Heap,
    script: &Checked,
    body: Running,
    cells: Cells,
    mut pending: Vec<Pending>,
    asked: Asked,
    answer: Completion,
    steps: &mut Steps<L>,
) -> Result<Turn<EvalFrame>, Stop>
    requires { IsStacked 0 pending.items (length cells) }
    ensures turn { (S : Server) (n : ℕ) (w : World) → IsServer S → w.script ≡ script.now → StandsFor heap.old w → IsTurnOf (eval_rest script.now) heap.old heap.new w S n (unwound (context script.now body cells) S n pending.items (run_of S (asked_program (context script.now body cells) asked (answered answer)) n w)) result }
    ensures sound { (w : World) → w.script ≡ script.now → StandsFor heap.old w → IsKept IsKnownCompletion (asked_program (context script.now body cells) asked (answered answer)) w → KeepsItems (context script.now body cells) w pending.items → StaysSoundTurn (is_some body.constructs) script.now heap.old heap.new w result }
    ensures belongs { (w v : World) → w.script ≡ script.now → StandsFor heap.old w → IsSound w → IsKept IsKnownCompletion (asked_program (context script.now body cells) asked (answered answer)) w → KeepsItems (context script.now body cells) w pending.items → IsHereNamed script.now w.lists body cells pending.items → HasNames script.now w.lists (names_of_asked asked) → IsKnownCompletion w.lists (answered answer) → StandsFor heap.new v → NamesTurn script.now v.lists result }
    ensures retains { Retains heap.old heap.new }
{
    let depth = cells.len();
    match asked_plan(heap, script, body, &cells, asked, answer, steps) {
        Err(stop) => Err(stop),
        Ok(plan) => match follow(&mut pending, depth, depth, plan) {
            Err(stop) => Err(stop),
            Ok(next) => continue_with(heap, script, body, cells, pending, next, steps),
        },
    }
}
