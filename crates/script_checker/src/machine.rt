//! The machine that makes the tree of a script: a stack of tasks, and a stack of what the parts became that are not yet in another part.

ghost use Rattle.std.specs.Prelude.{◌≡◌, [], IfOk, OnOk};
ghost use Rattle.es_tree.specs.Tree.{IsTree};
ghost use Rattle.script_grammar.specs.Tree.{ParseTree as parse_tree};
ghost use Rattle.script_rules.specs.Arena.{IsPair, IsPart, IsQuad, IsTriple, IsWrap, tree_at};
ghost use Rattle.script_checker.specs.Driving.{AreTasks, Does, IsTask, end_of, tree_from};
ghost use Rattle.script_checker.specs.Machine.{below, state, top};
ghost use Rattle.script_checker.specs.Made.{nothing_made};
ghost use Rattle.script_checker.specs.Making.{HasRoom};
ghost use Rattle.script_checker.specs.Spots.{IsKnown};

use crate::atoms::{atom_first, atom_made};
use crate::functions::functions_in;
use crate::lists::nodes_in;
use crate::pairs::{pair_first, pair_made};
use crate::parts::parts_of;
use crate::settings::{
    after_triple, before_pair, before_triple, in_for, in_pair, in_triple, in_wrap,
};
use crate::tokens::place_of;
use crate::triples::{ForValues, ThreeValues, for_first, for_made, triple_first, triple_made};
use crate::wraps::{wrap_first, wrap_made};
use crate::{MadePart, MadeParts, Maker, Setting, Spot, Stack, StackedPart, Task};
use es_tree::{Body, Checked};
use property_keys::NoMemory;
use script_grammar::{Atom, NameHashing, Pair, ParseNode, Quad, Script, Triple, Wrap};
use script_rules::{Scopes, part};
use std::alloc::Global;

/// Tasks, what the parts became, all that was made, and the scopes that were entered.
#[derive(Drop)]
pub struct Machine {
    pub tasks: Stack<Task>,
    pub values: Stack<StackedPart>,
    pub maker: Maker,
    pub scopes: Scopes,
}

/// The numbers of the parts of a `for`.
#[derive(Clone, Copy)]
struct ForParts {
    first: u32,
    test: u32,
    step: u32,
    body: u32,
}

/// Takes the value on top away. Where there is none it is a part that is left out.
fn taken(values: &mut Stack<StackedPart>) -> StackedPart
    ensures top { result ≡ top values.old }
    ensures rest { values.new ≡ below values.old }
{
    match values.pop() {
        Some(entry) => entry,
        None => StackedPart {
            value: MadeParts::One(MadePart::Nothing),
            first: None,
        },
    }
}

impl Machine {
    /// Nothing is done and nothing is left to do. It takes no memory.
    pub fn new(alloc: Global) -> Machine
        ensures tasks { result.tasks ≡ [] }
        ensures values { result.values ≡ [] }
        ensures maker { result.maker ≡ nothing_made }
        ensures scopes { result.scopes ≡ [] }
    {
        Machine {
            tasks: Stack::new(alloc),
            values: Stack::new(alloc),
            maker: Maker::new(alloc),
            scopes: Scopes::new(alloc),
        }
    }

    /// A label without parts.
    fn visit_atom(
        &mut self,
        script: &Script,
        n: u32,
        around: Setting,
        label: Atom,
    ) -> Result<(), NoMemory>
        requires tasks { AreTasks script.now.nodes self.old.scopes self.old.tasks }
        requires known { IsKnown self.old.scopes around }
        requires node { tree_at script.now.nodes n ≡ parse_tree.Atom label }
        ensures { OnOk result (Does script.now self.old self.new (Task.Visit n around)) }
    {
        let first = atom_first(label);
        let place = place_of(script, first);
        let value = atom_made(&mut self.maker, script, &self.scopes, around, place, label)?;
        self.values.push(StackedPart { value, first })?;
        Ok(())
    }

    /// The tasks of a label with one part.
    fn visit_wrap(
        &mut self,
        alloc: Global,
        script: &Script,
        n: u32,
        around: Setting,
        label: Wrap,
        x: u32,
    ) -> Result<(), NoMemory>
        requires tasks { AreTasks script.now.nodes self.old.scopes self.old.tasks }
        requires known { IsKnown self.old.scopes around }
        requires part { IsPart script.now.nodes n }
        requires node { IsWrap script.now.nodes n label x }
        ensures { OnOk result (Does script.now self.old self.new (Task.Visit n around)) }
    {
        let inner = in_wrap(alloc, script, &mut self.scopes, around, label, x)?;
        self.tasks.push(Task::Finish(n, around, inner))?;
        self.tasks.push(Task::Visit(x, inner))?;
        Ok(())
    }

    /// The tasks of a label with two parts.
    fn visit_pair(
        &mut self,
        alloc: Global,
        script: &Script,
        n: u32,
        around: Setting,
        label: Pair,
        x: u32,
        y: u32,
    ) -> Result<(), NoMemory>
        requires tasks { AreTasks script.now.nodes self.old.scopes self.old.tasks }
        requires known { IsKnown self.old.scopes around }
        requires part { IsPart script.now.nodes n }
        requires node { IsPair script.now.nodes n label x y }
        ensures { OnOk result (Does script.now self.old self.new (Task.Visit n around)) }
    {
        let inner = in_pair(alloc, script, &mut self.scopes, around, label, x, y)?;
        self.tasks.push(Task::Finish(n, around, inner))?;
        self.tasks.push(Task::Visit(y, inner))?;
        self.tasks
            .push(Task::Visit(x, before_pair(around, inner, label)))?;
        Ok(())
    }

    /// The tasks of a label with three parts.
    fn visit_triple(
        &mut self,
        alloc: Global,
        script: &Script,
        n: u32,
        around: Setting,
        label: Triple,
        x: u32,
        y: u32,
        z: u32,
    ) -> Result<(), NoMemory>
        requires tasks { AreTasks script.now.nodes self.old.scopes self.old.tasks }
        requires known { IsKnown self.old.scopes around }
        requires part { IsPart script.now.nodes n }
        requires node { IsTriple script.now.nodes n label x y z }
        ensures { OnOk result (Does script.now self.old self.new (Task.Visit n around)) }
    {
        let inner = in_triple(alloc, script, &mut self.scopes, around, label, y, z)?;
        self.tasks.push(Task::Finish(n, around, inner))?;
        self.tasks.push(Task::Visit(z, after_triple(inner, label)))?;
        self.tasks.push(Task::Visit(y, inner))?;
        self.tasks
            .push(Task::Visit(x, before_triple(around, label)))?;
        Ok(())
    }

    /// The tasks of a `for`.
    fn visit_for(
        &mut self,
        alloc: Global,
        script: &Script,
        n: u32,
        around: Setting,
        label: Quad,
        parts: ForParts,
    ) -> Result<(), NoMemory>
        requires tasks { AreTasks script.now.nodes self.old.scopes self.old.tasks }
        requires known { IsKnown self.old.scopes around }
        requires part { IsPart script.now.nodes n }
        requires node { IsQuad script.now.nodes n label parts.first parts.test parts.step parts.body }
        ensures { OnOk result (Does script.now self.old self.new (Task.Visit n around)) }
    {
        let inner = in_for(alloc, script, &mut self.scopes, around, parts.first)?;
        self.tasks.push(Task::Finish(n, around, inner))?;
        self.tasks.push(Task::Visit(parts.body, inner))?;
        self.tasks.push(Task::Visit(parts.step, inner))?;
        self.tasks.push(Task::Visit(parts.test, inner))?;
        self.tasks.push(Task::Visit(parts.first, inner))?;
        Ok(())
    }

    /// Visits a part: a label without parts is done at once, the parts of another one are put on the stack of tasks.
    fn visit(
        &mut self,
        alloc: Global,
        script: &Script,
        n: u32,
        around: Setting,
    ) -> Result<(), NoMemory>
        requires tasks { AreTasks script.now.nodes self.old.scopes self.old.tasks }
        requires known { IsKnown self.old.scopes around }
        requires part { IsPart script.now.nodes n }
        ensures { OnOk result (Does script.now self.old self.new (Task.Visit n around)) }
    {
        match part(script, n) {
            ParseNode::Atom(label) => self.visit_atom(script, n, around, label),
            ParseNode::Wrap(label, x) => self.visit_wrap(alloc, script, n, around, label, x),
            ParseNode::Pair(label, x, y) => self.visit_pair(alloc, script, n, around, label, x, y),
            ParseNode::Triple(label, x, y, z) => {
                self.visit_triple(alloc, script, n, around, label, x, y, z)
            }
            ParseNode::Quad(label, first, test, step, body) => {
                let parts = ForParts {
                    first,
                    test,
                    step,
                    body,
                };
                self.visit_for(alloc, script, n, around, label, parts)
            }
        }
    }

    /// A label with one part, after it.
    fn finish_wrap(
        &mut self,
        script: &Script,
        n: u32,
        around: Setting,
        inner: Setting,
        label: Wrap,
        x: u32,
    ) -> Result<(), NoMemory>
        requires tasks { AreTasks script.now.nodes self.old.scopes self.old.tasks }
        requires known { IsTask script.now.nodes self.old.scopes (Task.Finish n around inner) }
        requires node { IsWrap script.now.nodes n label x }
        ensures { OnOk result (Does script.now self.old self.new (Task.Finish n around inner)) }
    {
        let part = taken(&mut self.values);
        let first = wrap_first(label, part.first);
        let spot = Spot {
            around,
            inner,
            place: place_of(script, first),
            first: x,
            last: x,
        };
        let value = wrap_made(
            &mut self.maker,
            script,
            &self.scopes,
            spot,
            label,
            part.value,
        )?;
        self.values.push(StackedPart { value, first })?;
        Ok(())
    }

    /// A label with two parts, after them.
    fn finish_pair(
        &mut self,
        script: &Script,
        n: u32,
        around: Setting,
        inner: Setting,
        label: Pair,
        x: u32,
        y: u32,
    ) -> Result<(), NoMemory>
        requires tasks { AreTasks script.now.nodes self.old.scopes self.old.tasks }
        requires known { IsTask script.now.nodes self.old.scopes (Task.Finish n around inner) }
        requires node { IsPair script.now.nodes n label x y }
        ensures { OnOk result (Does script.now self.old self.new (Task.Finish n around inner)) }
    {
        let right = taken(&mut self.values);
        let left = taken(&mut self.values);
        let first = pair_first(label, left.first);
        let spot = Spot {
            around,
            inner,
            place: place_of(script, first),
            first: x,
            last: y,
        };
        let (left, right) = (left.value, right.value);
        let value = pair_made(
            &mut self.maker,
            script,
            &self.scopes,
            spot,
            label,
            left,
            right,
        )?;
        self.values.push(StackedPart { value, first })?;
        Ok(())
    }

    /// A label with three parts, after them.
    fn finish_triple(
        &mut self,
        script: &Script,
        n: u32,
        around: Setting,
        inner: Setting,
        label: Triple,
        x: u32,
        y: u32,
        z: u32,
    ) -> Result<(), NoMemory>
        requires tasks { AreTasks script.now.nodes self.old.scopes self.old.tasks }
        requires known { IsTask script.now.nodes self.old.scopes (Task.Finish n around inner) }
        requires node { IsTriple script.now.nodes n label x y z }
        ensures { OnOk result (Does script.now self.old self.new (Task.Finish n around inner)) }
    {
        let third = taken(&mut self.values);
        let second = taken(&mut self.values);
        let entry = taken(&mut self.values);
        let first = triple_first(label, entry.first);
        let spot = Spot {
            around,
            inner,
            place: place_of(script, first),
            first: x,
            last: z,
        };
        let values = ThreeValues {
            first: entry.value,
            second: second.value,
            third: third.value,
        };
        let value = triple_made(&mut self.maker, script, &self.scopes, spot, label, values)?;
        self.values.push(StackedPart { value, first })?;
        Ok(())
    }

    /// A `for`, after its parts.
    fn finish_for(
        &mut self,
        script: &Script,
        n: u32,
        around: Setting,
        inner: Setting,
        label: Quad,
        parts: ForParts,
    ) -> Result<(), NoMemory>
        requires tasks { AreTasks script.now.nodes self.old.scopes self.old.tasks }
        requires known { IsTask script.now.nodes self.old.scopes (Task.Finish n around inner) }
        requires node { IsQuad script.now.nodes n label parts.first parts.test parts.step parts.body }
        ensures { OnOk result (Does script.now self.old self.new (Task.Finish n around inner)) }
    {
        let body = taken(&mut self.values);
        let step = taken(&mut self.values);
        let test = taken(&mut self.values);
        let head = taken(&mut self.values);
        let first = for_first(label);
        let place = place_of(script, first);
        let values = ForValues {
            first: head.value,
            test: test.value,
            step: step.value,
            body: body.value,
        };
        let value = for_made(&mut self.maker, &self.scopes, inner, place, values)?;
        self.values.push(StackedPart { value, first })?;
        Ok(())
    }

    /// Finishes a part whose parts are done.
    fn finish(
        &mut self,
        script: &Script,
        n: u32,
        around: Setting,
        inner: Setting,
    ) -> Result<(), NoMemory>
        requires tasks { AreTasks script.now.nodes self.old.scopes self.old.tasks }
        requires known { IsTask script.now.nodes self.old.scopes (Task.Finish n around inner) }
        ensures { OnOk result (Does script.now self.old self.new (Task.Finish n around inner)) }
    {
        match part(script, n) {
            ParseNode::Atom(_) => Ok(()),
            ParseNode::Wrap(label, x) => self.finish_wrap(script, n, around, inner, label, x),
            ParseNode::Pair(label, x, y) => self.finish_pair(script, n, around, inner, label, x, y),
            ParseNode::Triple(label, x, y, z) => {
                self.finish_triple(script, n, around, inner, label, x, y, z)
            }
            ParseNode::Quad(label, first, test, step, body) => {
                let parts = ForParts {
                    first,
                    test,
                    step,
                    body,
                };
                self.finish_for(script, n, around, inner, label, parts)
            }
        }
    }

    /// Does one task.
    fn work(&mut self, alloc: Global, script: &Script, task: Task) -> Result<(), NoMemory>
        requires tasks { AreTasks script.now.nodes self.old.scopes self.old.tasks }
        requires known { IsTask script.now.nodes self.old.scopes task }
        ensures { OnOk result (Does script.now self.old self.new task) }
    {
        match task {
            Task::Visit(n, around) => self.visit(alloc, script, n, around),
            Task::Finish(n, around, inner) => self.finish(script, n, around, inner),
        }
    }

    /// Does all tasks.
    pub fn run(&mut self, alloc: Global, script: &Script) -> Result<(), NoMemory>
        requires { AreTasks script.now.nodes self.old.scopes self.old.tasks }
        ensures { OnOk result (state self.new.values self.new.maker ≡ end_of script.now self.old) }
    {
        'tasks: while let Some(task) = self.tasks.pop() {
            self.work(alloc, script, task)?;
        }
        Ok(())
    }

    /// The tree of what was made, with the script's own code, which has so many names and is strict or not.
    pub fn finished(
        mut self,
        alloc: Global,
        hashing: NameHashing,
        names: u32,
        strict: bool,
    ) -> Result<Checked, NoMemory>
        requires { HasRoom self.maker → IsTree (tree_from self names strict) }
        ensures { IfOk result (λ c. c ≡ tree_from self names strict) }
    {
        let items = parts_of(alloc, taken(&mut self.values).value);
        let script = Body {
            name: None,
            names,
            arguments: false,
            items: nodes_in(alloc, items.as_slice())?,
            declared: functions_in(alloc, hashing, items)?,
        };
        Ok(self.maker.finish(script, strict))
    }
}
