//! A script without a fault.

ghost use Rattle.std.specs.Prelude.{◌≡◌, ◌<◌, length, slice_get, Some};
ghost use Rattle.std.specs.List.{AllByRecursion};
ghost use Rattle.es_tree.specs.Definitions.{most_definitions};
ghost use Rattle.es_tree.specs.Tree.{IsTree, children_of, top_names, tree_of};

use crate::definitions::most_definitions;
use crate::{
    Body, FunctionFacts, FunctionNo, LiteralFacts, LiteralNo, Node, NodeId, SiteFacts, SiteId,
};
use es_source::Place;
use std::marker::Model;

/// The syntax tree of a script whose names are resolved. A child's number is below its parent's, each number in it is that of something that is there, and there
/// are fewer than 2^32 of each.
#[derive(Drop)]
pub struct Checked {
    nodes: Vec<Node>,
    places: Vec<Place>,
    functions: Vec<FunctionFacts>,
    bodies: Vec<Body>,
    literals: Vec<LiteralFacts>,
    sites: Vec<SiteFacts>,
    script: Body,
    strict: bool,
    longest: usize,
}

impl Model for Checked {
    ghost use Rattle.std.specs.Prelude.{◌≡◌};
    ghost use Rattle.es_tree.specs.Definitions.{most_definitions};
    ghost use Rattle.es_tree.specs.Tree.{Tree, IsTree, tree_of};

    ghost Value = { Tree };

    ghost view = { λ c. tree_of c.nodes.items c.places.items c.functions.items c.bodies.items c.literals.items c.sites.items c.script c.strict };

    ghost invariant = { λ c. IsTree (tree_of c.nodes.items c.places.items c.functions.items c.bodies.items c.literals.items c.sites.items c.script c.strict) × (c.longest ≡ most_definitions c.nodes.items) };
}

impl Checked {
    /// A tree of all its parts, which needs to be a good one.
    pub fn new(
        nodes: Vec<Node>,
        places: Vec<Place>,
        functions: Vec<FunctionFacts>,
        bodies: Vec<Body>,
        literals: Vec<LiteralFacts>,
        sites: Vec<SiteFacts>,
        script: Body,
        strict: bool,
    ) -> Checked
        requires { IsTree (tree_of nodes.items places.items functions.items bodies.items literals.items sites.items script strict) }
        ensures { result ≡ tree_of nodes.items places.items functions.items bodies.items literals.items sites.items script strict }
    {
        let longest = most_definitions(&nodes);
        Checked {
            nodes,
            places,
            functions,
            bodies,
            literals,
            sites,
            script,
            strict,
            longest,
        }
    }

    /// How many nodes there are.
    pub fn nodes(&self) -> u32
        ensures { result ≡ length self.now.nodes }
    {
        self.nodes.len() as u32
    }

    /// How many functions there are.
    pub fn functions(&self) -> u32
        ensures { result ≡ length self.now.functions }
    {
        self.functions.len() as u32
    }

    /// How many object literals there are.
    pub fn literals(&self) -> u32
        ensures { result ≡ length self.now.literals }
    {
        self.literals.len() as u32
    }

    /// How many sites there are.
    pub fn sites(&self) -> u32
        ensures { result ≡ length self.now.sites }
    {
        self.sites.len() as u32
    }

    /// The most property definitions of an object literal.
    pub fn most_definitions(&self) -> usize
        ensures { result ≡ most_definitions self.now.nodes }
    {
        self.longest
    }

    /// How many lexical names the script's top scope has, which are those of the `let` and `const` among the script's own statements (ECMA-262, 16.1.7).
    pub fn top_names(&self) -> u32
        ensures { result ≡ top_names self.now }
    {
        self.script.names
    }

    /// The script's own code.
    pub fn script(&self) -> &Body
        ensures script { result.now ≡ self.now.script }
        ensures tree { IsTree self.now }
    {
        &self.script
    }

    /// Whether the script's own code is strict (ECMA-262, 11.2.2). Of a function its facts say so.
    pub fn strict(&self) -> bool
        ensures { result ≡ self.now.strict }
    {
        self.strict
    }

    /// The code of the function with a known number.
    pub fn body(&self, f: FunctionNo) -> &Body
        requires { f.0 < length self.now.functions }
        ensures body { slice_get self.now.bodies f.0 ≡ Some result.now }
        ensures tree { IsTree self.now }
    {
        &self.bodies[f.0 as usize]
    }

    /// Where the first token of the node with a known number stands.
    pub fn place(&self, n: NodeId) -> Place
        requires { n.0 < length self.now.nodes }
        ensures { slice_get self.now.places n.0 ≡ Some result }
    {
        self.places[n.0 as usize]
    }

    /// The node with a known number.
    pub fn node(&self, n: NodeId) -> &Node
        requires { n.0 < length self.now.nodes }
        ensures node { slice_get self.now.nodes n.0 ≡ Some result.now }
        ensures below { AllByRecursion (λ child. child.0 < n.0) (children_of result.now) }
        ensures tree { IsTree self.now }
    {
        &self.nodes[n.0 as usize]
    }

    /// What is known of the function with a known number.
    pub fn function(&self, f: FunctionNo) -> &FunctionFacts
        requires { f.0 < length self.now.functions }
        ensures { slice_get self.now.functions f.0 ≡ Some result.now }
    {
        &self.functions[f.0 as usize]
    }

    /// What is known of the object literal with a known number.
    pub fn literal(&self, l: LiteralNo) -> &LiteralFacts
        requires { l.0 < length self.now.literals }
        ensures { slice_get self.now.literals l.0 ≡ Some result.now }
    {
        &self.literals[l.0 as usize]
    }

    /// What is known of the site with a known number.
    pub fn site(&self, s: SiteId) -> &SiteFacts
        requires { s.0 < length self.now.sites }
        ensures { slice_get self.now.sites s.0 ≡ Some result.now }
    {
        &self.sites[s.0 as usize]
    }
}
