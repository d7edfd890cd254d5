//! Expressions (ECMA-262, clause 13): what the first token of a part puts on the stacks.

ghost use Rattle.std.specs.Prelude.{◌≡◌, ◌++◌, ◌∷◌, suc, Bool, reverse, OnOk, IfOk};
ghost use Rattle.script_grammar.specs.Machine as grammar_machine;
ghost use Rattle.script_parser.specs.State.{Moves, State, numbers, stack, state};

use super::Parser;
use super::operators::prefix_of;
use property_keys::NoMemory;
use script_grammar::{
    Act, Atom, Bracket, Expected, Kind, Level, Listing, Sign, Stage, Symbol, Tail, Terminal, Word,
    Wrap,
};

/// The nesting of what stands in one production more.
pub(super) fn deeper(depth: u32) -> Result<u32, NoMemory>
    ensures { IfOk result (λ d. d ≡ suc depth) }
{
    if depth < u32::MAX {
        Ok(depth + 1)
    } else {
        Err(NoMemory)
    }
}

fn level_tail(level: Level, plain: bool, depth: u32) -> Symbol
    ensures { result ≡ Symbol.Tail (Tail.Level level plain) depth }
{
    Symbol::Tail(Tail::Level(level, plain), depth)
}

impl Parser {
    /// Expects a part, in one production more.
    pub(super) fn part_deeper(
        &mut self,
        depth: u32,
        part: Expected,
    ) -> Result<Option<u32>, NoMemory>
        ensures { Moves self.old self.new result (grammar_machine.Next (Symbol.Part part (suc depth) ∷ stack self.old) (state self.old) (suc depth)) }
    {
        let inner = deeper(depth)?;
        self.expect(&[Symbol::Part(part, inner)])?;
        Ok(Some(inner))
    }

    /// Expects a stage, in one production more.
    pub(super) fn stage_deeper(&mut self, depth: u32, stage: Stage) -> Result<Option<u32>, NoMemory>
        ensures { Moves self.old self.new result (grammar_machine.Next (Symbol.Stage stage (suc depth) ∷ stack self.old) (state self.old) (suc depth)) }
    {
        let inner = deeper(depth)?;
        self.expect(&[Symbol::Stage(stage, inner)])?;
        Ok(Some(inner))
    }

    /// A part that is a single token.
    pub(super) fn atom(&mut self, depth: u32, label: Atom) -> Result<Option<u32>, NoMemory>
        ensures { Moves self.old self.new result (grammar_machine.Next (stack self.old) (numbers.act (Act.Atom label) (state self.old)) depth) }
    {
        self.act(Act::Atom(label))?;
        Ok(Some(depth))
    }

    pub(super) fn primary(&mut self, depth: u32, x: Sign) -> Result<Option<u32>, NoMemory>
        ensures { Moves self.old self.new result (grammar_machine.at_primary State numbers depth (stack self.old) (state self.old) x) }
    {
        let Sign::Token { kind, number, .. } = x else {
            return Ok(None);
        };
        match kind {
            Kind::Name(_) => return self.atom(depth, Atom::Name(number)),
            Kind::Number => return self.atom(depth, Atom::Number(number)),
            Kind::Text => return self.atom(depth, Atom::Text(number)),
            Kind::Word(word) => return self.primary_word(depth, word, number),
            Kind::Bracket(Bracket::Open) => self.expect(&[
                Symbol::Do(Act::Wrap(Wrap::Parenthesis(number))),
                Symbol::Take(Terminal::Close, depth),
                Symbol::Part(Expected::Expression(false), depth),
            ])?,
            Kind::Bracket(Bracket::SquareOpen) => self.begin_list(&[
                Symbol::Do(Act::Wrap(Wrap::Array(number))),
                Symbol::Stage(Stage::Elements, depth),
            ])?,
            Kind::Bracket(Bracket::BraceOpen) => self.begin_list(&[
                Symbol::Do(Act::Wrap(Wrap::Object(number))),
                Symbol::Stage(Stage::Listed(Listing::Properties), depth),
            ])?,
            _ => return Ok(None),
        }
        Ok(Some(depth))
    }

    /// A primary expression that begins with a reserved word.
    fn primary_word(&mut self, depth: u32, word: Word, number: u32) -> Result<Option<u32>, NoMemory>
        ensures { (after_break : Bool) → Moves self.old self.new result (grammar_machine.at_primary State numbers depth (stack self.old) (state self.old) (Sign.Token (Kind.Word word) number after_break)) }
    {
        match word {
            Word::This => self.atom(depth, Atom::This(number)),
            Word::Null => self.atom(depth, Atom::Null(number)),
            Word::True => self.atom(
                depth,
                Atom::Bool {
                    value: true,
                    word: number,
                },
            ),
            Word::False => self.atom(
                depth,
                Atom::Bool {
                    value: false,
                    word: number,
                },
            ),
            Word::Function => self.stage_deeper(depth, Stage::AfterFunction(number)),
            Word::New => self.part_deeper(depth, Expected::Callee(number)),
            _ => Ok(None),
        }
    }

    /// `this`, a name, a literal, or what a bracket, `function` or `new` begins, with the members, calls and updates behind it.
    fn left(&mut self, depth: u32, x: Sign) -> Result<Option<u32>, NoMemory>
        ensures { Moves self.old self.new result (grammar_machine.at_left State numbers depth (stack self.old) (state self.old) x) }
    {
        self.expect(&[
            Symbol::Tail(Tail::Update, depth),
            Symbol::Tail(Tail::Left, depth),
        ])?;
        self.primary(depth, x)
    }

    pub(super) fn unary(&mut self, depth: u32, x: Sign) -> Result<Option<u32>, NoMemory>
        ensures { Moves self.old self.new result (grammar_machine.at_unary State numbers depth (stack self.old) (state self.old) x) }
    {
        let Sign::Token { kind, number, .. } = x else {
            return Ok(None);
        };
        if let Kind::Update(increment) = kind {
            let inner = deeper(depth)?;
            self.expect(&[
                Symbol::Do(Act::Wrap(Wrap::Update {
                    increment,
                    prefix: true,
                    token: number,
                })),
                Symbol::Part(Expected::Target, inner),
            ])?;
            return Ok(Some(inner));
        }
        match prefix_of(kind) {
            Some(operator) => {
                let inner = deeper(depth)?;
                self.expect(&[
                    Symbol::Do(Act::Wrap(Wrap::Unary(operator, number))),
                    Symbol::Part(Expected::Unary, inner),
                ])?;
                Ok(Some(inner))
            }
            None => self.left(depth, x),
        }
    }

    /// Expects what may go on behind operands of the levels below one, the tightest first.
    fn expect_below(&mut self, level: Level, plain: bool, depth: u32) -> Result<(), NoMemory>
        ensures apart { self.new.symbols ≡ self.old.symbols }
        ensures state { state self.new ≡ state self.old }
        ensures stack { OnOk result (stack self.new ≡ grammar_machine.below level plain depth (stack self.old)) }
    {
        let and = level_tail(Level::And, plain, depth);
        let equal = level_tail(Level::Equal, plain, depth);
        let relation = level_tail(Level::Relation, plain, depth);
        let add = level_tail(Level::Add, plain, depth);
        let multiply = level_tail(Level::Multiply, plain, depth);
        match level {
            Level::Or => self.expect(&[and, equal, relation, add, multiply]),
            Level::And => self.expect(&[equal, relation, add, multiply]),
            Level::Equal => self.expect(&[relation, add, multiply]),
            Level::Relation => self.expect(&[add, multiply]),
            Level::Add => self.expect(&[multiply]),
            Level::Multiply => Ok(()),
        }
    }

    pub(super) fn operand(
        &mut self,
        level: Level,
        plain: bool,
        depth: u32,
        x: Sign,
    ) -> Result<Option<u32>, NoMemory>
        ensures { Moves self.old self.new result (grammar_machine.at_operand State numbers level plain depth (stack self.old) (state self.old) x) }
    {
        self.expect_below(level, plain, depth)?;
        self.unary(depth, x)
    }

    pub(super) fn assign(
        &mut self,
        plain: bool,
        depth: u32,
        x: Sign,
    ) -> Result<Option<u32>, NoMemory>
        ensures { Moves self.old self.new result (grammar_machine.at_assign State numbers plain depth (stack self.old) (state self.old) x) }
    {
        let inner = deeper(depth)?;
        self.expect(&[
            Symbol::Tail(Tail::Assign(plain), inner),
            Symbol::Tail(Tail::Conditional(plain), inner),
            Symbol::Tail(Tail::Short(plain), inner),
            Symbol::Tail(Tail::Level(Level::Or, plain), inner),
        ])?;
        self.operand(Level::Or, plain, inner, x)
    }

    pub(super) fn expression(
        &mut self,
        plain: bool,
        depth: u32,
        x: Sign,
    ) -> Result<Option<u32>, NoMemory>
        ensures { Moves self.old self.new result (grammar_machine.at_expr State numbers plain depth (stack self.old) (state self.old) x) }
    {
        self.expect(&[Symbol::Tail(Tail::Expression(plain), depth)])?;
        self.assign(plain, depth, x)
    }
}
