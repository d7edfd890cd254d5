//! A script in the grammar's form.

ghost use Rattle.std.specs.Prelude.{◌≡◌, ◌<◌, length, slice_get, Some};
ghost use Rattle.script_grammar.specs.Scripts.{parts_of};

use crate::{Leaf, NameHashing, ParseNode};
use std::marker::Model;

/// A script before its names are resolved: its nodes, its root, and one leaf for each token, by which the labels of the nodes name tokens.
#[derive(Drop)]
pub struct Script {
    nodes: Vec<ParseNode>,
    leaves: Vec<Leaf>,
    root: u32,
    hashing: NameHashing,
}

impl Model for Script {
    ghost use Rattle.script_grammar.specs.Scripts.{Parts, parts_of};

    ghost Value = { Parts };

    ghost view = { λ s. parts_of s.nodes.items s.leaves.items s.root };
}

impl Script {
    /// A script of nodes and leaves.
    pub fn new(nodes: Vec<ParseNode>, leaves: Vec<Leaf>, root: u32) -> Script
        ensures { result ≡ parts_of nodes.items leaves.items root }
    {
        let hashing = NameHashing::of(&leaves);
        Script {
            nodes,
            leaves,
            root,
            hashing,
        }
    }

    /// How many nodes there are.
    pub fn nodes(&self) -> usize
        ensures { result ≡ length self.now.nodes }
    {
        self.nodes.len()
    }

    /// How many leaves there are.
    pub fn leaves(&self) -> usize
        ensures { result ≡ length self.now.leaves }
    {
        self.leaves.len()
    }

    /// The number of the root.
    pub fn root(&self) -> u32
        ensures { result ≡ self.now.root }
    {
        self.root
    }

    /// How tables of its names are hashed.
    pub fn hashing(&self) -> NameHashing {
        self.hashing
    }

    /// The node with a known number.
    pub fn node(&self, n: u32) -> ParseNode
        requires { n < length self.now.nodes }
        ensures { slice_get self.now.nodes n ≡ Some result }
    {
        self.nodes[n as usize]
    }

    /// The leaf of the token with a known number.
    pub fn leaf(&self, n: u32) -> &Leaf
        requires { n < length self.now.leaves }
        ensures { slice_get self.now.leaves n ≡ Some result.now }
    {
        &self.leaves[n as usize]
    }
}
