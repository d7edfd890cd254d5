//! Statements and declarations (ECMA-262, clause 14): what the first token of a part puts on the stacks.

ghost use Rattle.std.specs.Prelude.{◌≡◌, ◌++◌, ◌∷◌, suc, false, reverse, OnOk, IfOk};
ghost use Rattle.script_grammar.specs.Machine as grammar_machine;
ghost use Rattle.script_parser.specs.State.{Moves, State, numbers, stack, state};

use super::Parser;
use super::expressions::deeper;
use super::signs::fits;
use property_keys::NoMemory;
use script_grammar::{
    Act, Atom, Bracket, Expected, Kind, Loose, Mark, Pair, Quad, Sign, Stage, Symbol, Terminal,
    Word, Wrap,
};

impl Parser {
    pub(super) fn block(&mut self, depth: u32, x: Sign) -> Result<Option<u32>, NoMemory>
        ensures { Moves self.old self.new result (grammar_machine.at_block State numbers depth (stack self.old) (state self.old) x) }
    {
        let Sign::Token {
            kind: Kind::Bracket(Bracket::BraceOpen),
            number,
            ..
        } = x
        else {
            return Ok(None);
        };
        self.begin_list(&[
            Symbol::Do(Act::Wrap(Wrap::Block(number))),
            Symbol::Take(Terminal::BraceClose, depth),
            Symbol::Loose(Loose::Items(false), depth),
        ])?;
        Ok(Some(depth))
    }

    /// `if` with its statement, and maybe `else` behind it.
    fn if_statement(&mut self, depth: u32, number: u32) -> Result<Option<u32>, NoMemory>
        ensures { Moves self.old self.new result (grammar_machine.at_statement State numbers depth (stack self.old) (state self.old) (Sign.Token (Kind.Word Word.If) number false)) }
    {
        let inner = deeper(depth)?;
        self.expect(&[
            Symbol::Loose(Loose::Else(number), inner),
            Symbol::Part(Expected::Statement, inner),
            Symbol::Take(Terminal::Close, inner),
            Symbol::Part(Expected::Expression(false), inner),
            Symbol::Take(Terminal::Open, inner),
        ])?;
        Ok(Some(inner))
    }

    fn while_statement(&mut self, depth: u32, number: u32) -> Result<Option<u32>, NoMemory>
        ensures { Moves self.old self.new result (grammar_machine.at_statement State numbers depth (stack self.old) (state self.old) (Sign.Token (Kind.Word Word.While) number false)) }
    {
        let inner = deeper(depth)?;
        self.expect(&[
            Symbol::Do(Act::Pair(Pair::While(number))),
            Symbol::Part(Expected::Statement, inner),
            Symbol::Take(Terminal::Close, inner),
            Symbol::Part(Expected::Expression(false), inner),
            Symbol::Take(Terminal::Open, inner),
        ])?;
        Ok(Some(inner))
    }

    fn for_statement(&mut self, depth: u32, number: u32) -> Result<Option<u32>, NoMemory>
        ensures { Moves self.old self.new result (grammar_machine.at_statement State numbers depth (stack self.old) (state self.old) (Sign.Token (Kind.Word Word.For) number false)) }
    {
        let inner = deeper(depth)?;
        self.expect(&[
            Symbol::Do(Act::Quad(Quad::For(number))),
            Symbol::Part(Expected::Statement, inner),
            Symbol::Part(Expected::Maybe(false, Terminal::Close), inner),
            Symbol::Part(Expected::Maybe(false, Terminal::Semicolon(true)), inner),
            Symbol::Part(Expected::First, inner),
            Symbol::Take(Terminal::Open, inner),
        ])?;
        Ok(Some(inner))
    }

    fn try_statement(&mut self, depth: u32, number: u32) -> Result<Option<u32>, NoMemory>
        ensures { Moves self.old self.new result (grammar_machine.at_statement State numbers depth (stack self.old) (state self.old) (Sign.Token (Kind.Word Word.Try) number false)) }
    {
        let inner = deeper(depth)?;
        self.expect(&[
            Symbol::Stage(Stage::AfterTry(number), inner),
            Symbol::Part(Expected::Block, inner),
        ])?;
        Ok(Some(inner))
    }

    /// `break` or `continue`, of which only the `;` is left.
    fn jump(&mut self, depth: u32, label: Atom) -> Result<Option<u32>, NoMemory>
        ensures { Moves self.old self.new result (grammar_machine.Next (Symbol.Take (Terminal.Semicolon false) (suc depth) ∷ stack self.old) (numbers.act (Act.Atom label) (state self.old)) (suc depth)) }
    {
        let inner = deeper(depth)?;
        self.act(Act::Atom(label))?;
        self.expect(&[Symbol::Take(Terminal::Semicolon(false), inner)])?;
        Ok(Some(inner))
    }

    /// An expression, and work to be done behind it and its `;`.
    pub(super) fn ended_expression(
        &mut self,
        label: Wrap,
        depth: u32,
        x: Sign,
    ) -> Result<Option<u32>, NoMemory>
        ensures { Moves self.old self.new result (grammar_machine.at_expr State numbers false depth (Symbol.Take (Terminal.Semicolon false) depth ∷ Symbol.Do (Act.Wrap label) ∷ stack self.old) (state self.old) x) }
    {
        self.expect(&[
            Symbol::Do(Act::Wrap(label)),
            Symbol::Take(Terminal::Semicolon(false), depth),
        ])?;
        self.expression(false, depth, x)
    }

    pub(super) fn statement(&mut self, depth: u32, x: Sign) -> Result<Option<u32>, NoMemory>
        ensures { Moves self.old self.new result (grammar_machine.at_statement State numbers depth (stack self.old) (state self.old) x) }
    {
        let Sign::Token { kind, number, .. } = x else {
            return Ok(None);
        };
        match kind {
            Kind::Bracket(Bracket::BraceOpen) => self.block(deeper(depth)?, x),
            Kind::Mark(Mark::Semicolon) => self.atom(deeper(depth)?, Atom::Empty(number)),
            Kind::Word(Word::If) => self.if_statement(depth, number),
            Kind::Word(Word::While) => self.while_statement(depth, number),
            Kind::Word(Word::For) => self.for_statement(depth, number),
            Kind::Word(Word::Break) => self.jump(depth, Atom::Break(number)),
            Kind::Word(Word::Continue) => self.jump(depth, Atom::Continue(number)),
            Kind::Word(Word::Return) => self.stage_deeper(depth, Stage::AfterReturn(number)),
            Kind::Word(Word::Throw) => self.part_deeper(depth, Expected::Thrown(number)),
            Kind::Word(Word::Try) => self.try_statement(depth, number),
            Kind::Word(Word::Function) => Ok(None),
            _ => self.ended_expression(Wrap::Evaluate, deeper(depth)?, x),
        }
    }

    /// A name that is declared by `let` or `const`.
    pub(super) fn binding(
        &mut self,
        constant: bool,
        head: bool,
        depth: u32,
        x: Sign,
    ) -> Result<Option<u32>, NoMemory>
        ensures { Moves self.old self.new result (grammar_machine.at_bind State numbers constant head depth (stack self.old) (state self.old) x) }
    {
        let Sign::Token {
            kind: Kind::Name(_),
            number,
            ..
        } = x
        else {
            return Ok(None);
        };
        self.expect(&[Symbol::Loose(
            Loose::Binding {
                constant,
                head,
                name: number,
            },
            depth,
        )])?;
        Ok(Some(depth))
    }

    /// What comes behind `let` or `const`.
    fn declaration(
        &mut self,
        constant: bool,
        head: bool,
        first: u32,
        depth: u32,
    ) -> Result<Option<u32>, NoMemory>
        ensures { Moves self.old self.new result (grammar_machine.declares State numbers constant head first depth (stack self.old) (state self.old)) }
    {
        self.begin_list(&[
            Symbol::Stage(
                Stage::MoreBindings {
                    constant,
                    head,
                    first,
                },
                depth,
            ),
            Symbol::Do(Act::Pair(Pair::And)),
            Symbol::Part(Expected::Binding { constant, head }, depth),
        ])?;
        Ok(Some(depth))
    }

    /// An item of a body or, else, of a block.
    pub(super) fn item(
        &mut self,
        of_body: bool,
        depth: u32,
        x: Sign,
    ) -> Result<Option<u32>, NoMemory>
        ensures { Moves self.old self.new result (grammar_machine.at_item State numbers of_body depth (stack self.old) (state self.old) x) }
    {
        match x {
            Sign::Token {
                kind: Kind::Word(Word::Function),
                number,
                ..
            } if of_body => self.stage_deeper(depth, Stage::FunctionName(number)),
            Sign::Token {
                kind: Kind::Word(Word::Let),
                number,
                ..
            } => self.declaration(false, false, number, depth),
            Sign::Token {
                kind: Kind::Word(Word::Const),
                number,
                ..
            } => self.declaration(true, false, number, depth),
            _ => self.statement(depth, x),
        }
    }

    /// An expression that may be left out, and a token behind it.
    pub(super) fn maybe(
        &mut self,
        plain: bool,
        end: Terminal,
        depth: u32,
        x: Sign,
    ) -> Result<Option<u32>, NoMemory>
        ensures { Moves self.old self.new result (grammar_machine.at_maybe State numbers plain end depth (stack self.old) (state self.old) x) }
    {
        if fits(end, x) {
            return self.atom(depth, Atom::Nothing);
        }
        self.expect(&[Symbol::Take(end, depth)])?;
        self.expression(plain, depth, x)
    }

    /// The first part of the head of a `for`.
    pub(super) fn first(&mut self, depth: u32, x: Sign) -> Result<Option<u32>, NoMemory>
        ensures { Moves self.old self.new result (grammar_machine.at_first State numbers depth (stack self.old) (state self.old) x) }
    {
        match x {
            Sign::Token {
                kind: Kind::Word(Word::Let),
                number,
                ..
            } => self.declaration(false, true, number, depth),
            Sign::Token {
                kind: Kind::Word(Word::Const),
                number,
                ..
            } => self.declaration(true, true, number, depth),
            _ => self.maybe(true, Terminal::Semicolon(true), depth, x),
        }
    }
}
