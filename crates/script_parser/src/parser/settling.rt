//! What is left alone at a token, and the symbol that takes it.

ghost use Rattle.std.specs.Prelude.{◌≡◌, ◌++◌, ◌∷◌, [], false, reverse, OnOk, IfOk, IfNone, option_to_list};
ghost use Rattle.script_grammar.specs.Machine as grammar_machine;
ghost use Rattle.script_parser.specs.Settling as settling;
ghost use Rattle.script_parser.specs.State.{Moves, State, numbers, stack, state};
ghost use Rattle.script_parser.specs.Progress.{Firm, Loosened, Settled, Shifted, Tried};

use super::Parser;
use super::signs::{fits, keeps, takes};
use property_keys::NoMemory;
use script_grammar::{Act, Atom, Loose, Pair, Sign, Symbol, Triple};

impl Parser {
    /// Takes the symbol at the top off the stack.
    fn pop(&mut self) -> Option<Symbol>
        ensures state { state self.new ≡ state self.old }
        ensures stack { stack self.old ≡ option_to_list result ++ stack self.new }
        ensures none { IfNone result (stack self.new ≡ []) }
    {
        match self.pending.pop() {
            Some(top) => Some(top),
            None => self.symbols.pop(),
        }
    }

    /// Whether what may go on may be left alone.
    fn may_leave(&self, loose: Loose) -> bool
        ensures { result ≡ grammar_machine.may_leave State numbers loose (state self.now) }
    {
        match loose {
            Loose::Target => self.has_target(),
            Loose::Binding { constant, .. } => !constant,
            _ => true,
        }
    }

    /// The work of what is left alone.
    fn leave(&mut self, loose: Loose) -> Result<(), NoMemory>
        ensures stack { stack self.new ≡ stack self.old }
        ensures left { OnOk result (state self.new ≡ grammar_machine.leave State numbers loose (state self.old)) }
    {
        match loose {
            Loose::Items(_) | Loose::Target => Ok(()),
            Loose::Else(first) => self.act(Act::Pair(Pair::If(first))),
            Loose::Finally(first) => {
                self.nothing()?;
                self.act(Act::Triple(Triple::Try(first)))
            }
            Loose::Callee(first) => {
                self.nothing()?;
                self.act(Act::Pair(Pair::New(first)))
            }
            Loose::Binding { name, .. } => self.act(Act::Atom(Atom::Binding(name))),
            Loose::Property { name, .. } => self.act(Act::Atom(Atom::Shorthand(name))),
        }
    }

    /// Whether a symbol is left alone at this token.
    fn is_loose(&self, symbol: Symbol, x: Sign) -> bool
        ensures { result ≡ settling.loose State numbers symbol (state self.now) x }
    {
        match symbol {
            Symbol::Tail(tail, _) => !takes(tail, x),
            Symbol::Loose(loose, _) => !keeps(loose, x) && self.may_leave(loose),
            Symbol::Do(_) => true,
            Symbol::Part(..) | Symbol::Stage(..) | Symbol::Take(..) => false,
        }
    }

    /// The work of a symbol that is left alone.
    fn leave_symbol(&mut self, symbol: Symbol) -> Result<(), NoMemory>
        ensures stack { stack self.new ≡ stack self.old }
        ensures left { OnOk result (state self.new ≡ settling.drops State numbers symbol (state self.old)) }
    {
        match symbol {
            Symbol::Loose(loose, _) => self.leave(loose),
            Symbol::Do(act) => self.act(act),
            _ => Ok(()),
        }
    }

    /// Takes off one symbol that is left alone at this token, and does its work.
    fn loosen(&mut self, x: Sign) -> Result<bool, NoMemory>
        ensures { IfOk result (λ b. Loosened self.old self.new x b) }
    {
        let Some(top) = self.pop() else {
            return Ok(false);
        };
        if !self.is_loose(top, x) {
            self.expect(&[top])?;
            return Ok(false);
        }
        self.leave_symbol(top)?;
        Ok(true)
    }

    /// Takes off all that is left alone at this token.
    pub(super) fn settle(&mut self, x: Sign) -> Result<(), NoMemory>
        ensures settled { OnOk result (Settled self.old self.new x) }
        ensures firm { OnOk result (Firm self.new x) }
    {
        loop {
            if !self.loosen(x)? {
                return Ok(());
            }
        }
    }

    /// Takes the token at a symbol that is not left alone, and that is off the stack.
    fn take(&mut self, top: Symbol, x: Sign) -> Result<Option<u32>, NoMemory>
        requires { settling.loose State numbers top (state self.old) x ≡ false }
        ensures { Moves self.old self.new result (grammar_machine.step State numbers (top ∷ stack self.old) (state self.old) x) }
    {
        match top {
            Symbol::Part(part, depth) => self.part(part, depth, x),
            Symbol::Stage(stage, depth) => self.stage(stage, depth, x),
            Symbol::Tail(tail, depth) => self.continue_with(tail, depth, x),
            Symbol::Loose(loose, depth) if keeps(loose, x) => self.go_on(loose, depth, x),
            Symbol::Take(terminal, depth) if fits(terminal, x) => Ok(Some(depth)),
            Symbol::Loose(..) | Symbol::Take(..) | Symbol::Do(_) => Ok(None),
        }
    }

    /// The pending symbols join the others.
    fn commit(&mut self) -> Result<(), NoMemory>
        ensures state { state self.new ≡ state self.old }
        ensures stack { OnOk result (stack self.new ≡ stack self.old) }
        ensures pending { OnOk result (self.new.pending.items ≡ []) }
    {
        match self.symbols.append(&mut self.pending) {
            Ok(()) => Ok(()),
            Err(_) => Err(NoMemory),
        }
    }

    /// Takes a symbol off the stack, where none is pending.
    fn pop_settled(&mut self) -> Option<Symbol>
        requires { self.old.pending.items ≡ [] }
        ensures pending { self.new.pending.items ≡ [] }
        ensures state { state self.new ≡ state self.old }
        ensures stack { stack self.old ≡ option_to_list result ++ stack self.new }
        ensures none { IfNone result (stack self.new ≡ []) }
    {
        self.symbols.pop()
    }

    /// Puts a symbol back and forgets what is pending.
    fn restore(&mut self, top: Symbol) -> Result<(), NoMemory>
        ensures state { state self.new ≡ state self.old }
        ensures stack { OnOk result (stack self.new ≡ top ∷ reverse self.old.symbols.items) }
    {
        self.pending.clear();
        match self.symbols.push(top) {
            Ok(()) => Ok(()),
            Err(_) => Err(NoMemory),
        }
    }

    /// Takes the token at the symbol at the top, which is not left alone. Where it is refused, all is as before.
    pub(super) fn shift(&mut self, x: Sign) -> Result<Option<u32>, NoMemory>
        requires { Firm self.old x }
        ensures { IfOk result (λ n. Shifted self.old self.new x n) }
    {
        self.commit()?;
        let Some(top) = self.pop_settled() else {
            return Ok(None);
        };
        match self.take(top, x)? {
            Some(nesting) => Ok(Some(nesting)),
            None => {
                self.restore(top)?;
                Ok(None)
            }
        }
    }

    /// Takes the token, if the grammar allows it here.
    pub(super) fn try_take(&mut self, x: Sign) -> Result<Option<u32>, NoMemory>
        ensures { IfOk result (λ n. Tried self.old self.new x n) }
    {
        self.settle(x)?;
        self.shift(x)
    }
}
