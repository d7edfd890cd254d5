//! Functions, object literals and catch clauses (ECMA-262, 13.2.5, 14.15 and clause 15).

ghost use Rattle.std.specs.Prelude.{◌≡◌, ◌++◌, ◌∷◌, suc, Bool, false, true, reverse, OnOk, IfOk};
ghost use Rattle.script_grammar.specs.Machine as grammar_machine;
ghost use Rattle.script_parser.specs.State.{Moves, State, numbers, stack, state, some_of};

use super::Parser;
use super::expressions::deeper;
use super::operators::is_key;
use property_keys::NoMemory;
use script_grammar::{
    Act, Atom, Bracket, Expected, Kind, Listing, Loose, Mark, NameRole, Pair, Sign, Stage, Symbol,
    Terminal, Triple, Word, Wrap,
};

impl Parser {
    pub(super) fn parameters(&mut self, depth: u32, x: Sign) -> Result<Option<u32>, NoMemory>
        ensures { Moves self.old self.new result (grammar_machine.at_params State numbers depth (stack self.old) (state self.old) x) }
    {
        let Sign::Token {
            kind: Kind::Bracket(Bracket::Open),
            ..
        } = x
        else {
            return Ok(None);
        };
        self.begin_list(&[Symbol::Stage(Stage::Listed(Listing::Parameters), depth)])?;
        Ok(Some(depth))
    }

    pub(super) fn parameter(&mut self, depth: u32, x: Sign) -> Result<Option<u32>, NoMemory>
        ensures { Moves self.old self.new result (grammar_machine.at_param State numbers depth (stack self.old) (state self.old) x) }
    {
        match x {
            Sign::Token {
                kind: Kind::Name(_),
                number,
                ..
            } => self.atom(depth, Atom::Binding(number)),
            _ => Ok(None),
        }
    }

    pub(super) fn body(&mut self, depth: u32, x: Sign) -> Result<Option<u32>, NoMemory>
        ensures { Moves self.old self.new result (grammar_machine.at_body State numbers depth (stack self.old) (state self.old) x) }
    {
        let Sign::Token {
            kind: Kind::Bracket(Bracket::BraceOpen),
            ..
        } = x
        else {
            return Ok(None);
        };
        self.begin_list(&[
            Symbol::Take(Terminal::BraceClose, depth),
            Symbol::Loose(Loose::Items(true), depth),
        ])?;
        Ok(Some(depth))
    }

    /// Parameters and body, and work to be done behind them.
    fn expect_function(&mut self, label: Pair, depth: u32) -> Result<Option<u32>, NoMemory>
        ensures { Moves self.old self.new result (grammar_machine.Next (Symbol.Part Expected.Parameters depth ∷ Symbol.Part Expected.Body depth ∷ Symbol.Do (Act.Pair label) ∷ stack self.old) (state self.old) depth) }
    {
        self.expect(&[
            Symbol::Do(Act::Pair(label)),
            Symbol::Part(Expected::Body, depth),
            Symbol::Part(Expected::Parameters, depth),
        ])?;
        Ok(Some(depth))
    }

    /// The name of a declared function.
    pub(super) fn function_name(
        &mut self,
        first: u32,
        depth: u32,
        x: Sign,
    ) -> Result<Option<u32>, NoMemory>
        ensures { Moves self.old self.new result (grammar_machine.function_name State numbers first depth (stack self.old) (state self.old) x) }
    {
        match x {
            Sign::Token {
                kind: Kind::Name(_),
                number,
                ..
            } => self.expect_function(
                Pair::DeclaredFunction {
                    first,
                    name: number,
                },
                depth,
            ),
            _ => Ok(None),
        }
    }

    /// Behind the `function` of an expression: its name or its parameters.
    pub(super) fn after_function(
        &mut self,
        first: u32,
        depth: u32,
        x: Sign,
    ) -> Result<Option<u32>, NoMemory>
        ensures { Moves self.old self.new result (grammar_machine.after_function State numbers first depth (stack self.old) (state self.old) x) }
    {
        match x {
            Sign::Token {
                kind: Kind::Name(_),
                number,
                ..
            } => self.expect_function(
                Pair::NamedFunction {
                    first,
                    name: number,
                },
                depth,
            ),
            _ => {
                self.expect(&[
                    Symbol::Do(Act::Pair(Pair::Function(first))),
                    Symbol::Part(Expected::Body, depth),
                ])?;
                self.parameters(depth, x)
            }
        }
    }

    /// The name of a property.
    fn key(&mut self, depth: u32, x: Sign) -> Result<Option<u32>, NoMemory>
        ensures { Moves self.old self.new result (grammar_machine.at_key State numbers depth (stack self.old) (state self.old) x) }
    {
        let Sign::Token { kind, number, .. } = x else {
            return Ok(None);
        };
        if let Kind::Bracket(Bracket::SquareOpen) = kind {
            self.expect(&[
                Symbol::Do(Act::Wrap(Wrap::Computed(number))),
                Symbol::Take(Terminal::SquareClose, depth),
                Symbol::Part(Expected::Assign(false), depth),
            ])?;
            return Ok(Some(depth));
        }
        if is_key(kind) {
            self.atom(depth, Atom::Key(number))
        } else {
            Ok(None)
        }
    }

    /// A property definition.
    pub(super) fn property(&mut self, depth: u32, x: Sign) -> Result<Option<u32>, NoMemory>
        ensures { Moves self.old self.new result (grammar_machine.at_prop State numbers depth (stack self.old) (state self.old) x) }
    {
        match x {
            Sign::Token {
                kind: Kind::Name(role),
                number,
                ..
            } => {
                self.expect(&[Symbol::Loose(Loose::Property { role, name: number }, depth)])?;
                Ok(Some(depth))
            }
            _ => {
                self.expect(&[Symbol::Stage(Stage::AfterKey, depth)])?;
                self.key(depth, x)
            }
        }
    }

    /// Behind the `:` of a property definition.
    fn property_value(&mut self, depth: u32) -> Result<u32, NoMemory>
        ensures { Moves self.old self.new (some_of result) (grammar_machine.after_key State numbers depth (stack self.old) (state self.old) (Sign.Token (Kind.Mark Mark.Colon) 0 false)) }
    {
        self.expect(&[
            Symbol::Do(Act::Pair(Pair::Property)),
            Symbol::Part(Expected::Assign(false), depth),
        ])?;
        Ok(depth)
    }

    /// Behind the `(` of a method.
    fn method(&mut self, depth: u32) -> Result<u32, NoMemory>
        ensures { Moves self.old self.new (some_of result) (grammar_machine.after_key State numbers depth (stack self.old) (state self.old) (Sign.Token (Kind.Bracket Bracket.Open) 0 false)) }
    {
        let inner = deeper(depth)?;
        self.begin_list(&[
            Symbol::Do(Act::Triple(Triple::Method)),
            Symbol::Part(Expected::Body, inner),
            Symbol::Stage(Stage::Listed(Listing::Parameters), inner),
        ])?;
        Ok(inner)
    }

    /// Behind the name of a property.
    pub(super) fn after_key(&mut self, depth: u32, x: Sign) -> Result<Option<u32>, NoMemory>
        ensures { Moves self.old self.new result (grammar_machine.after_key State numbers depth (stack self.old) (state self.old) x) }
    {
        match x {
            Sign::Token {
                kind: Kind::Mark(Mark::Colon),
                ..
            } => Ok(Some(self.property_value(depth)?)),
            Sign::Token {
                kind: Kind::Bracket(Bracket::Open),
                ..
            } => Ok(Some(self.method(depth)?)),
            _ => Ok(None),
        }
    }

    /// Behind the `get` or `set` of an accessor: the name of the property.
    fn accessor(
        &mut self,
        role: NameRole,
        first: u32,
        depth: u32,
        x: Sign,
    ) -> Result<Option<u32>, NoMemory>
        ensures { Moves self.old self.new result (grammar_machine.at_accessor State numbers role first depth (stack self.old) (state self.old) x) }
    {
        match role {
            NameRole::Get => {
                let inner = deeper(depth)?;
                self.expect(&[
                    Symbol::Do(Act::Pair(Pair::Getter(first))),
                    Symbol::Part(Expected::Body, inner),
                    Symbol::Take(Terminal::Close, inner),
                    Symbol::Take(Terminal::Open, inner),
                ])?;
                self.key(depth, x)
            }
            NameRole::Set => {
                let inner = deeper(depth)?;
                self.expect(&[
                    Symbol::Stage(Stage::SetterName(first), inner),
                    Symbol::Take(Terminal::Open, inner),
                ])?;
                self.key(depth, x)
            }
            NameRole::Plain => Ok(None),
        }
    }

    /// Behind a name that begins a property definition.
    pub(super) fn after_property(
        &mut self,
        role: NameRole,
        name: u32,
        depth: u32,
        x: Sign,
    ) -> Result<Option<u32>, NoMemory>
        ensures { Moves self.old self.new result (grammar_machine.after_prop State numbers role name depth (stack self.old) (state self.old) x) }
    {
        match x {
            Sign::Token {
                kind: Kind::Mark(Mark::Colon),
                ..
            } => {
                self.act(Act::Atom(Atom::Key(name)))?;
                Ok(Some(self.property_value(depth)?))
            }
            Sign::Token {
                kind: Kind::Bracket(Bracket::Open),
                ..
            } => {
                self.act(Act::Atom(Atom::Key(name)))?;
                Ok(Some(self.method(depth)?))
            }
            _ => self.accessor(role, name, depth, x),
        }
    }

    /// The parameter of a setter.
    pub(super) fn setter_name(
        &mut self,
        first: u32,
        depth: u32,
        x: Sign,
    ) -> Result<Option<u32>, NoMemory>
        ensures { Moves self.old self.new result (grammar_machine.setter_name State numbers first depth (stack self.old) (state self.old) x) }
    {
        let Sign::Token {
            kind: Kind::Name(_),
            number,
            ..
        } = x
        else {
            return Ok(None);
        };
        self.expect(&[
            Symbol::Do(Act::Pair(Pair::Setter {
                first,
                parameter: number,
            })),
            Symbol::Part(Expected::Body, depth),
            Symbol::Take(Terminal::Close, depth),
        ])?;
        Ok(Some(depth))
    }

    /// Behind the block of a `try`.
    pub(super) fn after_try(
        &mut self,
        first: u32,
        depth: u32,
        x: Sign,
    ) -> Result<Option<u32>, NoMemory>
        ensures { Moves self.old self.new result (grammar_machine.after_try State numbers first depth (stack self.old) (state self.old) x) }
    {
        match x {
            Sign::Token {
                kind: Kind::Word(Word::Catch),
                ..
            } => self.expect(&[
                Symbol::Loose(Loose::Finally(first), depth),
                Symbol::Stage(Stage::AfterCatch, depth),
            ])?,
            Sign::Token {
                kind: Kind::Word(Word::Finally),
                ..
            } => self.begin_list(&[
                Symbol::Do(Act::Triple(Triple::Try(first))),
                Symbol::Part(Expected::Block, depth),
            ])?,
            _ => return Ok(None),
        }
        Ok(Some(depth))
    }

    /// Behind a `catch`: its parameter or its block.
    pub(super) fn after_catch(&mut self, depth: u32, x: Sign) -> Result<Option<u32>, NoMemory>
        ensures { Moves self.old self.new result (grammar_machine.after_catch State numbers depth (stack self.old) (state self.old) x) }
    {
        match x {
            Sign::Token {
                kind: Kind::Bracket(Bracket::Open),
                ..
            } => {
                self.expect(&[Symbol::Stage(Stage::CatchName, depth)])?;
                Ok(Some(depth))
            }
            _ => {
                self.expect(&[Symbol::Do(Act::Wrap(Wrap::Catch))])?;
                self.block(depth, x)
            }
        }
    }

    /// The parameter of a `catch`.
    pub(super) fn catch_name(&mut self, depth: u32, x: Sign) -> Result<Option<u32>, NoMemory>
        ensures { Moves self.old self.new result (grammar_machine.catch_name State numbers depth (stack self.old) (state self.old) x) }
    {
        let Sign::Token {
            kind: Kind::Name(_),
            number,
            ..
        } = x
        else {
            return Ok(None);
        };
        self.expect(&[
            Symbol::Do(Act::Wrap(Wrap::CatchName(number))),
            Symbol::Part(Expected::Block, depth),
            Symbol::Take(Terminal::Close, depth),
        ])?;
        Ok(Some(depth))
    }
}
