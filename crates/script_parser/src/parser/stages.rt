//! Parts that must come, and points inside a production.

ghost use Rattle.std.specs.Prelude.{◌≡◌, ◌++◌, ◌∷◌, suc, Bool, false, true, cond, reverse, OnOk, IfOk};
ghost use Rattle.script_grammar.specs.Machine as grammar_machine;
ghost use Rattle.script_parser.specs.State.{Moves, State, numbers, stack, state};

use super::Parser;
use super::operators::is_word;
use super::signs::{closing, fits, is_comma, is_end, is_on_same_line};
use property_keys::NoMemory;
use script_grammar::{
    Act, Atom, Expected, Listing, Loose, Pair, Sign, Stage, Symbol, Terminal, Wrap,
};

impl Parser {
    /// The first token of a part that must come.
    pub(super) fn part(
        &mut self,
        part: Expected,
        depth: u32,
        x: Sign,
    ) -> Result<Option<u32>, NoMemory>
        ensures { Moves self.old self.new result (grammar_machine.at_part State numbers part depth (stack self.old) (state self.old) x) }
    {
        match part {
            Expected::Statement => self.statement(depth, x),
            Expected::Block => self.block(depth, x),
            Expected::Body => self.body(depth, x),
            Expected::Parameters => self.parameters(depth, x),
            Expected::Expression(plain) => self.expression(plain, depth, x),
            Expected::Assign(plain) => self.assign(plain, depth, x),
            Expected::Unary => self.unary(depth, x),
            Expected::Operand(level, plain) => self.operand(level, plain, depth, x),
            Expected::Callee(first) => {
                self.expect(&[Symbol::Loose(Loose::Callee(first), depth)])?;
                self.primary(depth, x)
            }
            Expected::Target => {
                self.expect(&[Symbol::Loose(Loose::Target, depth)])?;
                self.primary(depth, x)
            }
            Expected::Binding { constant, head } => self.binding(constant, head, depth, x),
            Expected::First => self.first(depth, x),
            Expected::Maybe(plain, end) => self.maybe(plain, end, depth, x),
            Expected::Thrown(first) => {
                if !is_on_same_line(x) {
                    return Ok(None);
                }
                self.ended_expression(Wrap::Throw(first), depth, x)
            }
        }
    }

    /// The word behind a `.`.
    fn word(&mut self, dot: u32, depth: u32, x: Sign) -> Result<Option<u32>, NoMemory>
        ensures { Moves self.old self.new result (grammar_machine.on_word State numbers dot depth (stack self.old) (state self.old) x) }
    {
        match x {
            Sign::Token { kind, number, .. } if is_word(kind) => {
                self.act(Act::Wrap(Wrap::Member { dot, word: number }))?;
                Ok(Some(depth))
            }
            _ => Ok(None),
        }
    }

    fn member(&mut self, listing: Listing, depth: u32, x: Sign) -> Result<Option<u32>, NoMemory>
        ensures { Moves self.old self.new result (grammar_machine.at_member State numbers listing depth (stack self.old) (state self.old) x) }
    {
        match listing {
            Listing::Arguments => self.assign(false, depth, x),
            Listing::Parameters => self.parameter(depth, x),
            Listing::Properties => self.property(depth, x),
        }
    }

    /// Behind the bracket or a comma of a list: its end or a member.
    fn listed(&mut self, listing: Listing, depth: u32, x: Sign) -> Result<Option<u32>, NoMemory>
        ensures { Moves self.old self.new result (grammar_machine.at_stage State numbers (Stage.Listed listing) depth (stack self.old) (state self.old) x) }
    {
        if fits(closing(listing), x) {
            return Ok(Some(depth));
        }
        self.expect(&[
            Symbol::Stage(Stage::Rest(listing), depth),
            Symbol::Do(Act::Pair(Pair::And)),
        ])?;
        self.member(listing, depth, x)
    }

    /// Behind a member of a list that this bracket closes: its end or a comma, and a stage behind the comma.
    fn rest(
        &mut self,
        end: Terminal,
        again: Stage,
        depth: u32,
        x: Sign,
    ) -> Result<Option<u32>, NoMemory>
        ensures { Moves self.old self.new result (cond (grammar_machine.fits end x) (grammar_machine.Next (stack self.old) (state self.old) depth) (cond (grammar_machine.is_comma x) (grammar_machine.Next (Symbol.Stage again depth ∷ stack self.old) (state self.old) depth) grammar_machine.Fail)) }
    {
        if fits(end, x) {
            return Ok(Some(depth));
        }
        if !is_comma(x) {
            return Ok(None);
        }
        self.expect(&[Symbol::Stage(again, depth)])?;
        Ok(Some(depth))
    }

    /// An element of an array literal that is left out.
    fn hole(&mut self, depth: u32) -> Result<Option<u32>, NoMemory>
        ensures { Moves self.old self.new result (grammar_machine.Next (Symbol.Stage Stage.Elements depth ∷ stack self.old) (numbers.act (Act.Pair Pair.And) (numbers.act (Act.Atom Atom.Hole) (state self.old))) depth) }
    {
        self.act(Act::Atom(Atom::Hole))?;
        self.act(Act::Pair(Pair::And))?;
        self.expect(&[Symbol::Stage(Stage::Elements, depth)])?;
        Ok(Some(depth))
    }

    /// Behind the bracket or a comma of an array literal: its end, a hole or an element.
    fn elements(&mut self, depth: u32, x: Sign) -> Result<Option<u32>, NoMemory>
        ensures { Moves self.old self.new result (grammar_machine.more_elements State numbers depth (stack self.old) (state self.old) x) }
    {
        if fits(Terminal::SquareClose, x) {
            return Ok(Some(depth));
        }
        if is_comma(x) {
            return self.hole(depth);
        }
        self.expect(&[
            Symbol::Stage(Stage::AfterElement, depth),
            Symbol::Do(Act::Pair(Pair::And)),
        ])?;
        self.assign(false, depth, x)
    }

    /// Behind a `return`: its end, or its value on the same line.
    fn after_return(&mut self, first: u32, depth: u32, x: Sign) -> Result<Option<u32>, NoMemory>
        ensures { Moves self.old self.new result (grammar_machine.at_stage State numbers (Stage.AfterReturn first) depth (stack self.old) (state self.old) x) }
    {
        if is_end(false, x) {
            return self.atom(depth, Atom::Return(first));
        }
        if !is_on_same_line(x) {
            return Ok(None);
        }
        self.ended_expression(Wrap::Return(first), depth, x)
    }

    /// Behind a lexical name: the end of the declaration, or a comma.
    fn more_bindings(
        &mut self,
        constant: bool,
        head: bool,
        first: u32,
        depth: u32,
        x: Sign,
    ) -> Result<Option<u32>, NoMemory>
        ensures { Moves self.old self.new result (grammar_machine.at_stage State numbers (Stage.MoreBindings constant head first) depth (stack self.old) (state self.old) x) }
    {
        if is_end(head, x) {
            self.act(Act::Wrap(Wrap::Lexical { constant, first }))?;
            return Ok(Some(depth));
        }
        if !is_comma(x) {
            return Ok(None);
        }
        self.expect(&[
            Symbol::Stage(
                Stage::MoreBindings {
                    constant,
                    head,
                    first,
                },
                depth,
            ),
            Symbol::Do(Act::Pair(Pair::And)),
            Symbol::Part(Expected::Binding { constant, head }, depth),
        ])?;
        Ok(Some(depth))
    }

    /// A token inside a production.
    pub(super) fn stage(
        &mut self,
        stage: Stage,
        depth: u32,
        x: Sign,
    ) -> Result<Option<u32>, NoMemory>
        ensures { Moves self.old self.new result (grammar_machine.at_stage State numbers stage depth (stack self.old) (state self.old) x) }
    {
        match stage {
            Stage::Word(dot) => self.word(dot, depth, x),
            Stage::Listed(listing) => self.listed(listing, depth, x),
            Stage::Rest(listing) => self.rest(closing(listing), Stage::Listed(listing), depth, x),
            Stage::Elements => self.elements(depth, x),
            Stage::AfterElement => self.rest(Terminal::SquareClose, Stage::Elements, depth, x),
            Stage::AfterReturn(first) => self.after_return(first, depth, x),
            Stage::AfterTry(first) => self.after_try(first, depth, x),
            Stage::AfterCatch => self.after_catch(depth, x),
            Stage::CatchName => self.catch_name(depth, x),
            Stage::MoreBindings {
                constant,
                head,
                first,
            } => self.more_bindings(constant, head, first, depth, x),
            Stage::FunctionName(first) => self.function_name(first, depth, x),
            Stage::AfterFunction(first) => self.after_function(first, depth, x),
            Stage::AfterKey => self.after_key(depth, x),
            Stage::SetterName(first) => self.setter_name(first, depth, x),
        }
    }
}
