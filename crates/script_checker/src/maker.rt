//! What is made of a tree.

ghost use Rattle.std.specs.Prelude.{◌≡◌, ◌<◌, ◌+◌, ◌^◌, length, IfOk, OnOk};
ghost use Rattle.es_tree.specs.Tree.{IsTree};
ghost use Rattle.script_checker.specs.Made.{add_function, add_literal, add_node, next_node, add_site_where, is_read, is_written, made_of, next_function, nothing_made, script_tree, site_where, with_access, with_node, with_operator, with_primary, with_statement};
ghost use Rattle.script_checker.specs.Making.{Adds, HasRoom, HasSites, Makes};

use crate::{MadePart, MadeParts};
use es_source::Place;
use es_tree::{
    Access, Body, Checked, FunctionFacts, FunctionNo, LiteralFacts, LiteralNo, Node, NodeId,
    Operator, Primary, SiteFacts, SiteId, Statement,
};
use property_keys::NoMemory;
use script_rules::Role;
use std::alloc::Global;
use std::marker::Model;

/// The tree of a script so far. There is room for 2^32 - 1 nodes, functions, literals and sites.
#[derive(Drop)]
pub struct Maker {
    alloc: Global,
    nodes: Vec<Node>,
    places: Vec<Place>,
    functions: Vec<FunctionFacts>,
    bodies: Vec<Body>,
    literals: Vec<LiteralFacts>,
    sites: Vec<SiteFacts>,
}

impl Model for Maker {
    ghost use Rattle.script_checker.specs.Made.{Made, made_of};
    ghost use Rattle.script_checker.specs.Making.{HasRoom};

    ghost Value = { Made };

    ghost view = { λ m. made_of m.nodes.items m.places.items m.functions.items m.bodies.items m.literals.items m.sites.items };

    ghost invariant = { λ m. HasRoom (made_of m.nodes.items m.places.items m.functions.items m.bodies.items m.literals.items m.sites.items) };
}

/// The number of the next of a list, where there is room for it.
fn next_number(count: usize) -> Result<u32, NoMemory>
    ensures number { IfOk result (λ n. n ≡ count) }
    ensures room { IfOk result (λ n. n + 1 < 2 ^ 32) }
{
    if count < u32::MAX as usize {
        Ok(count as u32)
    } else {
        Err(NoMemory)
    }
}

impl Maker {
    /// Nothing was made. It takes no memory.
    pub fn new(alloc: Global) -> Maker
        ensures { result ≡ nothing_made }
    {
        Maker {
            alloc,
            nodes: Vec::new(alloc),
            places: Vec::new(alloc),
            functions: Vec::new(alloc),
            bodies: Vec::new(alloc),
            literals: Vec::new(alloc),
            sites: Vec::new(alloc),
        }
    }

    /// Where memory comes from.
    pub fn alloc(&self) -> Global {
        self.alloc
    }

    /// Adds a node with the place of its first token.
    pub fn add_node(&mut self, place: Place, node: Node) -> Result<NodeId, NoMemory>
        ensures { Adds (add_node place node self.old) (next_node self.old) self.new result }
    {
        let number = next_number(self.nodes.len())?;
        if self.nodes.push(node).is_err() || self.places.push(place).is_err() {
            return Err(NoMemory);
        }
        Ok(NodeId(number))
    }

    /// A node with the place of its first token.
    pub fn node(&mut self, place: Place, node: Node) -> Result<MadeParts, NoMemory>
        ensures { Makes (with_node place node self.old) self.new result }
    {
        let id = self.add_node(place, node)?;
        Ok(MadeParts::One(MadePart::Node(id)))
    }

    pub fn statement(&mut self, place: Place, statement: Statement) -> Result<MadeParts, NoMemory>
        ensures { Makes (with_statement place statement self.old) self.new result }
    {
        self.node(place, Node::Statement(statement))
    }

    pub fn operator(&mut self, place: Place, operator: Operator) -> Result<MadeParts, NoMemory>
        ensures { Makes (with_operator place operator self.old) self.new result }
    {
        self.node(place, Node::Operator(operator))
    }

    pub fn access(&mut self, place: Place, access: Access) -> Result<MadeParts, NoMemory>
        ensures { Makes (with_access place access self.old) self.new result }
    {
        self.node(place, Node::Access(access))
    }

    pub fn primary(&mut self, place: Place, primary: Primary) -> Result<MadeParts, NoMemory>
        ensures { Makes (with_primary place primary self.old) self.new result }
    {
        self.node(place, Node::Primary(primary))
    }

    /// A site at a `.` or a `[`, where an access has one in this direction.
    fn site_where(
        &mut self,
        has: bool,
        token: Place,
        write: bool,
    ) -> Result<Option<SiteId>, NoMemory>
        ensures { Adds (add_site_where has token write self.old) (site_where has self.old) self.new result }
    {
        if !has {
            return Ok(None);
        }
        let number = next_number(self.sites.len())?;
        let site = SiteFacts {
            place: token,
            write,
        };
        if self.sites.push(site).is_err() {
            return Err(NoMemory);
        }
        Ok(Some(SiteId(number)))
    }

    /// The sites of an access where it is read and where it is written.
    pub fn sites(
        &mut self,
        token: Place,
        role: Role,
    ) -> Result<(Option<SiteId>, Option<SiteId>), NoMemory>
        ensures { HasSites token role self.old self.new result }
    {
        let read = self.site_where(is_read(role), token, false)?;
        let write = self.site_where(is_written(role), token, true)?;
        Ok((read, write))
    }

    /// An object literal with so many property definitions, at its `{`.
    pub fn literal(&mut self, place: Place, definitions: usize) -> Result<LiteralNo, NoMemory>
        ensures { Adds (add_literal place definitions self.old) (record { 0 = length self.old.literals }) self.new result }
    {
        let number = next_number(self.literals.len())?;
        let literal = LiteralFacts {
            place,
            definitions: next_number(definitions)?,
        };
        if self.literals.push(literal).is_err() {
            return Err(NoMemory);
        }
        Ok(LiteralNo(number))
    }

    /// A function with its body.
    pub fn function(&mut self, facts: FunctionFacts, body: Body) -> Result<FunctionNo, NoMemory>
        ensures { Adds (add_function facts body self.old) (next_function self.old) self.new result }
    {
        let number = next_number(self.functions.len())?;
        if self.functions.push(facts).is_err() || self.bodies.push(body).is_err() {
            return Err(NoMemory);
        }
        Ok(FunctionNo(number))
    }

    /// The tree with the script's own code, and whether that is strict.
    pub fn finish(self, script: Body, strict: bool) -> Checked
        requires { HasRoom self → IsTree (script_tree self script strict) }
        ensures { result ≡ script_tree self script strict }
    {
        let Maker {
            alloc: _,
            nodes,
            places,
            functions,
            bodies,
            literals,
            sites,
        } = self;
        Checked::new(
            nodes, places, functions, bodies, literals, sites, script, strict,
        )
    }
}

/// Whether an access in this role is read.
fn is_read(role: Role) -> bool
    ensures { result ≡ is_read role }
{
    !matches!(role, Role::Written | Role::Deleted)
}

/// Whether an access in this role is written.
fn is_written(role: Role) -> bool
    ensures { result ≡ is_written role }
{
    matches!(role, Role::Written | Role::Updated)
}
