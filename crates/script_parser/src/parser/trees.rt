//! Trees.

ghost use Rattle.std.specs.Prelude.{◌≡◌, ◌++◌, ◌∷◌, [], List, OnOk, IfNone, option_to_list, reverse, slice_get};
ghost use Rattle.script_grammar.specs.declared.act.Act.TheVariants as act_kinds;
ghost use Rattle.script_grammar.specs.declared.node.ParseNode.{ParseNode};
ghost use Rattle.script_grammar.specs.declared.labels.Atom.TheVariants as atom;
ghost use Rattle.script_parser.specs.State.{stack, state, ids, built, act_on, head_of, is_target_node, is_plain_node, newest};

use super::Parser;
use es_tree::ShortOperator;
use property_keys::NoMemory;
use script_grammar::{Act, Atom, Pair, ParseNode, Quad, Symbol, Triple, Wrap};

impl Parser {
    /// Puts symbols on the stack, the last on top.
    pub(super) fn expect(&mut self, symbols: &[Symbol]) -> Result<(), NoMemory>
        ensures apart { self.new.symbols ≡ self.old.symbols }
        ensures state { state self.new ≡ state self.old }
        ensures stack { OnOk result (stack self.new ≡ reverse symbols.now ++ stack self.old) }
    {
        match self.pending.extend_from_slice(symbols) {
            Ok(()) => Ok(()),
            Err(_) => Err(NoMemory),
        }
    }

    fn push_node(&mut self, node: ParseNode) -> Result<(), NoMemory>
        ensures symbols { self.new.symbols ≡ self.old.symbols }
        ensures pending { self.new.pending ≡ self.old.pending }
        ensures values { self.new.values ≡ self.old.values }
        ensures nodes { OnOk result (self.new.nodes.items ≡ self.old.nodes.items ++ node ∷ []) }
    {
        match self.nodes.push(node) {
            Ok(()) => Ok(()),
            Err(_) => Err(NoMemory),
        }
    }

    fn push_value(&mut self, id: u32) -> Result<(), NoMemory>
        ensures symbols { self.new.symbols ≡ self.old.symbols }
        ensures pending { self.new.pending ≡ self.old.pending }
        ensures nodes { self.new.nodes ≡ self.old.nodes }
        ensures values { OnOk result (self.new.values.items ≡ self.old.values.items ++ id ∷ []) }
    {
        match self.values.push(id) {
            Ok(()) => Ok(()),
            Err(_) => Err(NoMemory),
        }
    }

    /// Makes a node and puts it on the stack.
    fn build(&mut self, node: ParseNode) -> Result<(), NoMemory>
        ensures symbols { self.new.symbols ≡ self.old.symbols }
        ensures pending { self.new.pending ≡ self.old.pending }
        ensures built { OnOk result (state self.new ≡ built node self.old.nodes.items (ids self.old)) }
    {
        let Ok(id) = u32::try_from(self.nodes.len()) else {
            return Err(NoMemory);
        };
        self.push_node(node)?;
        self.push_value(id)
    }

    /// Takes the newest value.
    fn pop_value(&mut self) -> Option<u32>
        ensures symbols { self.new.symbols ≡ self.old.symbols }
        ensures pending { self.new.pending ≡ self.old.pending }
        ensures nodes { self.new.nodes ≡ self.old.nodes }
        ensures values { ids self.old ≡ option_to_list result ++ ids self.new }
        ensures none { IfNone result (ids self.new ≡ []) }
    {
        self.values.pop()
    }

    fn wrap(&mut self, label: Wrap) -> Result<(), NoMemory>
        ensures symbols { self.new.symbols ≡ self.old.symbols }
        ensures pending { self.new.pending ≡ self.old.pending }
        ensures made { OnOk result (state self.new ≡ act_on (act_kinds.Wrap label) self.old.nodes.items (ids self.old)) }
    {
        let Some(x) = self.pop_value() else {
            return Ok(());
        };
        self.build(ParseNode::Wrap(label, x))
    }

    fn pair(&mut self, label: Pair) -> Result<(), NoMemory>
        ensures symbols { self.new.symbols ≡ self.old.symbols }
        ensures pending { self.new.pending ≡ self.old.pending }
        ensures made { OnOk result (state self.new ≡ act_on (act_kinds.Pair label) self.old.nodes.items (ids self.old)) }
    {
        let Some(y) = self.pop_value() else {
            return Ok(());
        };
        let Some(x) = self.pop_value() else {
            return Ok(());
        };
        self.build(ParseNode::Pair(label, x, y))
    }

    fn triple(&mut self, label: Triple) -> Result<(), NoMemory>
        ensures symbols { self.new.symbols ≡ self.old.symbols }
        ensures pending { self.new.pending ≡ self.old.pending }
        ensures made { OnOk result (state self.new ≡ act_on (act_kinds.Triple label) self.old.nodes.items (ids self.old)) }
    {
        let Some(z) = self.pop_value() else {
            return Ok(());
        };
        let Some(y) = self.pop_value() else {
            return Ok(());
        };
        let Some(x) = self.pop_value() else {
            return Ok(());
        };
        self.build(ParseNode::Triple(label, x, y, z))
    }

    fn quad(&mut self, label: Quad) -> Result<(), NoMemory>
        ensures symbols { self.new.symbols ≡ self.old.symbols }
        ensures pending { self.new.pending ≡ self.old.pending }
        ensures made { OnOk result (state self.new ≡ act_on (act_kinds.Quad label) self.old.nodes.items (ids self.old)) }
    {
        let Some(w) = self.pop_value() else {
            return Ok(());
        };
        let Some(z) = self.pop_value() else {
            return Ok(());
        };
        let Some(y) = self.pop_value() else {
            return Ok(());
        };
        let Some(x) = self.pop_value() else {
            return Ok(());
        };
        self.build(ParseNode::Quad(label, x, y, z, w))
    }

    /// Makes the newest values one.
    pub(super) fn act(&mut self, act: Act) -> Result<(), NoMemory>
        ensures symbols { self.new.symbols ≡ self.old.symbols }
        ensures stack { stack self.new ≡ stack self.old }
        ensures made { OnOk result (state self.new ≡ act_on act self.old.nodes.items (ids self.old)) }
    {
        match act {
            Act::Atom(label) => self.build(ParseNode::Atom(label)),
            Act::Wrap(label) => self.wrap(label),
            Act::Pair(label) => self.pair(label),
            Act::Triple(label) => self.triple(label),
            Act::Quad(label) => self.quad(label),
        }
    }

    /// An empty list, or a part that is left out.
    pub(super) fn nothing(&mut self) -> Result<(), NoMemory>
        ensures symbols { self.new.symbols ≡ self.old.symbols }
        ensures stack { stack self.new ≡ stack self.old }
        ensures made { OnOk result (state self.new ≡ act_on (act_kinds.Atom atom.Nothing) self.old.nodes.items (ids self.old)) }
    {
        self.act(Act::Atom(Atom::Nothing))
    }

    /// An empty list on the stack of values, and symbols on the other, the last on top.
    pub(super) fn begin_list(&mut self, symbols: &[Symbol]) -> Result<(), NoMemory>
        ensures apart { self.new.symbols ≡ self.old.symbols }
        ensures made { OnOk result (state self.new ≡ act_on (act_kinds.Atom atom.Nothing) self.old.nodes.items (ids self.old)) }
        ensures stack { OnOk result (stack self.new ≡ reverse symbols.now ++ stack self.old) }
    {
        self.nothing()?;
        self.expect(symbols)
    }

    fn newest_value(&self) -> Option<u32>
        ensures { result ≡ head_of (ids self.now) }
    {
        self.values.last().copied()
    }

    fn node(&self, id: u32) -> Option<ParseNode>
        ensures { result ≡ slice_get self.now.nodes.items id }
    {
        self.nodes.get(id as usize).copied()
    }

    /// The node of the newest value.
    fn newest_node(&self) -> Option<ParseNode>
        ensures { result ≡ newest self.now.nodes.items (ids self.now) }
    {
        match self.newest_value() {
            Some(id) => self.node(id),
            None => None,
        }
    }

    /// Whether the newest value is a target.
    pub(super) fn has_target(&self) -> bool
        ensures { result ≡ is_target_node (newest self.now.nodes.items (ids self.now)) }
    {
        matches!(
            self.newest_node(),
            Some(
                ParseNode::Atom(Atom::Name(_))
                    | ParseNode::Wrap(Wrap::Member { .. }, _)
                    | ParseNode::Pair(Pair::Index(_), _, _)
            )
        )
    }

    /// Whether the newest value may stand beside `??`.
    pub(super) fn has_plain(&self) -> bool
        ensures { result ≡ is_plain_node (newest self.now.nodes.items (ids self.now)) }
    {
        match self.newest_node() {
            Some(ParseNode::Pair(Pair::Short(ShortOperator::And | ShortOperator::Or), _, _))
            | None => false,
            Some(_) => true,
        }
    }
}
