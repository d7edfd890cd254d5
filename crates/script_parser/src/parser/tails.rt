//! Tokens that go on with what stands before them.

ghost use Rattle.std.specs.Prelude.{◌≡◌, ◌++◌, ◌∷◌, suc, Bool, false, true, reverse, OnOk, IfOk};
ghost use Rattle.script_grammar.specs.Machine as grammar_machine;
ghost use Rattle.script_parser.specs.State.{Moves, State, numbers, stack, state};

use super::Parser;
use super::operators::infix_of;
use es_tree::ShortOperator;
use property_keys::NoMemory;
use script_grammar::{
    Act, Bracket, Expected, Kind, Level, Listing, Loose, Mark, Pair, Sign, Stage, Symbol, Tail,
    Terminal, Triple, Wrap,
};

impl Parser {
    /// `.`, `[` or `(` behind an expression. The symbol `again` stands for what may follow next.
    fn after_left(&mut self, again: Symbol, depth: u32, x: Sign) -> Result<Option<u32>, NoMemory>
        ensures { Moves self.old self.new result (grammar_machine.after_left State numbers again depth (stack self.old) (state self.old) x) }
    {
        let Sign::Token { kind, number, .. } = x else {
            return Ok(None);
        };
        match kind {
            Kind::Mark(Mark::Dot) => self.expect(&[
                again,
                Symbol::Stage(Stage::Word(number), depth),
            ])?,
            Kind::Bracket(Bracket::SquareOpen) => self.expect(&[
                again,
                Symbol::Do(Act::Pair(Pair::Index(number))),
                Symbol::Take(Terminal::SquareClose, depth),
                Symbol::Part(Expected::Expression(false), depth),
            ])?,
            Kind::Bracket(Bracket::Open) => self.begin_list(&[
                again,
                Symbol::Do(Act::Pair(Pair::Call)),
                Symbol::Stage(Stage::Listed(Listing::Arguments), depth),
            ])?,
            _ => return Ok(None),
        }
        Ok(Some(depth))
    }

    /// `.`, `[` or `(` behind the callee of a `new`, which has the first arguments behind it.
    fn after_callee(&mut self, first: u32, depth: u32, x: Sign) -> Result<Option<u32>, NoMemory>
        ensures { Moves self.old self.new result (grammar_machine.after_callee State numbers first depth (stack self.old) (state self.old) x) }
    {
        let Sign::Token { kind, number, .. } = x else {
            return Ok(None);
        };
        match kind {
            Kind::Mark(Mark::Dot) => self.expect(&[
                Symbol::Loose(Loose::Callee(first), depth),
                Symbol::Stage(Stage::Word(number), depth),
            ])?,
            Kind::Bracket(Bracket::SquareOpen) => self.expect(&[
                Symbol::Loose(Loose::Callee(first), depth),
                Symbol::Do(Act::Pair(Pair::Index(number))),
                Symbol::Take(Terminal::SquareClose, depth),
                Symbol::Part(Expected::Expression(false), depth),
            ])?,
            Kind::Bracket(Bracket::Open) => self.begin_list(&[
                Symbol::Do(Act::Pair(Pair::New(first))),
                Symbol::Stage(Stage::Listed(Listing::Arguments), depth),
            ])?,
            _ => return Ok(None),
        }
        Ok(Some(depth))
    }

    /// `++` or `--` behind a target, on the same line.
    fn after_update(&mut self, depth: u32, x: Sign) -> Result<Option<u32>, NoMemory>
        ensures { Moves self.old self.new result (grammar_machine.after_update State numbers depth (stack self.old) (state self.old) x) }
    {
        match x {
            Sign::Token {
                kind: Kind::Update(increment),
                number,
                after_break: false,
            } if self.has_target() => {
                self.act(Act::Wrap(Wrap::Update {
                    increment,
                    prefix: false,
                    token: number,
                }))?;
                Ok(Some(depth))
            }
            _ => Ok(None),
        }
    }

    /// An operator that groups from the left.
    fn after_level(
        &mut self,
        level: Level,
        plain: bool,
        depth: u32,
        x: Sign,
    ) -> Result<Option<u32>, NoMemory>
        ensures { Moves self.old self.new result (grammar_machine.after_level State numbers level plain depth (stack self.old) (state self.old) x) }
    {
        let Sign::Token { kind, .. } = x else {
            return Ok(None);
        };
        match infix_of(kind) {
            Some((_, label)) => {
                self.expect(&[
                    Symbol::Tail(Tail::Level(level, plain), depth),
                    Symbol::Do(Act::Pair(label)),
                    Symbol::Part(Expected::Operand(level, plain), depth),
                ])?;
                Ok(Some(depth))
            }
            None => Ok(None),
        }
    }

    /// `??`, beside which neither `&&` nor `||` stands.
    fn after_short(&mut self, plain: bool, depth: u32, x: Sign) -> Result<Option<u32>, NoMemory>
        ensures { Moves self.old self.new result (grammar_machine.after_short State numbers plain depth (stack self.old) (state self.old) x) }
    {
        match x {
            Sign::Token {
                kind: Kind::Short(ShortOperator::Coalesce),
                ..
            } if self.has_plain() => {
                self.expect(&[
                    Symbol::Tail(Tail::Short(plain), depth),
                    Symbol::Do(Act::Pair(Pair::Short(ShortOperator::Coalesce))),
                    Symbol::Part(Expected::Operand(Level::And, plain), depth),
                ])?;
                Ok(Some(depth))
            }
            _ => Ok(None),
        }
    }

    fn after_conditional(
        &mut self,
        plain: bool,
        depth: u32,
        x: Sign,
    ) -> Result<Option<u32>, NoMemory>
        ensures { Moves self.old self.new result (grammar_machine.after_cond State numbers plain depth (stack self.old) (state self.old) x) }
    {
        let Sign::Token {
            kind: Kind::Mark(Mark::Question),
            ..
        } = x
        else {
            return Ok(None);
        };
        self.expect(&[
            Symbol::Do(Act::Triple(Triple::Conditional)),
            Symbol::Part(Expected::Assign(plain), depth),
            Symbol::Take(Terminal::Colon, depth),
            Symbol::Part(Expected::Assign(plain), depth),
        ])?;
        Ok(Some(depth))
    }

    fn after_assign(&mut self, plain: bool, depth: u32, x: Sign) -> Result<Option<u32>, NoMemory>
        ensures { Moves self.old self.new result (grammar_machine.after_assign State numbers plain depth (stack self.old) (state self.old) x) }
    {
        match x {
            Sign::Token {
                kind: Kind::Assign(operator),
                ..
            } if self.has_target() => {
                self.expect(&[
                    Symbol::Do(Act::Pair(Pair::Assign(operator))),
                    Symbol::Part(Expected::Assign(plain), depth),
                ])?;
                Ok(Some(depth))
            }
            _ => Ok(None),
        }
    }

    fn after_expression(
        &mut self,
        plain: bool,
        depth: u32,
        x: Sign,
    ) -> Result<Option<u32>, NoMemory>
        ensures { Moves self.old self.new result (grammar_machine.after_expr State numbers plain depth (stack self.old) (state self.old) x) }
    {
        let Sign::Token {
            kind: Kind::Mark(Mark::Comma),
            ..
        } = x
        else {
            return Ok(None);
        };
        self.expect(&[
            Symbol::Tail(Tail::Expression(plain), depth),
            Symbol::Do(Act::Pair(Pair::Comma)),
            Symbol::Part(Expected::Assign(plain), depth),
        ])?;
        Ok(Some(depth))
    }

    /// A token that belongs to the tail of an expression.
    pub(super) fn continue_with(
        &mut self,
        tail: Tail,
        depth: u32,
        x: Sign,
    ) -> Result<Option<u32>, NoMemory>
        ensures { Moves self.old self.new result (grammar_machine.continue State numbers tail depth (stack self.old) (state self.old) x) }
    {
        match tail {
            Tail::Left => self.after_left(Symbol::Tail(Tail::Left, depth), depth, x),
            Tail::Update => self.after_update(depth, x),
            Tail::Level(level, plain) => self.after_level(level, plain, depth, x),
            Tail::Short(plain) => self.after_short(plain, depth, x),
            Tail::Conditional(plain) => self.after_conditional(plain, depth, x),
            Tail::Assign(plain) => self.after_assign(plain, depth, x),
            Tail::Expression(plain) => self.after_expression(plain, depth, x),
        }
    }

    /// A token that belongs to what may go on.
    pub(super) fn go_on(
        &mut self,
        loose: Loose,
        depth: u32,
        x: Sign,
    ) -> Result<Option<u32>, NoMemory>
        ensures { Moves self.old self.new result (grammar_machine.go_on State numbers loose depth (stack self.old) (state self.old) x) }
    {
        match loose {
            Loose::Items(of_body) => {
                self.expect(&[
                    Symbol::Loose(Loose::Items(of_body), depth),
                    Symbol::Do(Act::Pair(Pair::And)),
                ])?;
                return self.item(of_body, depth, x);
            }
            Loose::Else(first) => self.expect(&[
                Symbol::Do(Act::Triple(Triple::IfElse(first))),
                Symbol::Part(Expected::Statement, depth),
            ])?,
            Loose::Finally(first) => self.expect(&[
                Symbol::Do(Act::Triple(Triple::Try(first))),
                Symbol::Part(Expected::Block, depth),
            ])?,
            Loose::Callee(first) => return self.after_callee(first, depth, x),
            Loose::Target => return self.after_left(Symbol::Loose(Loose::Target, depth), depth, x),
            Loose::Binding { head, name, .. } => self.expect(&[
                Symbol::Do(Act::Wrap(Wrap::Binding(name))),
                Symbol::Part(Expected::Assign(head), depth),
            ])?,
            Loose::Property { role, name } => return self.after_property(role, name, depth, x),
        }
        Ok(Some(depth))
    }
}
