//! A stack.

ghost use Rattle.std.specs.Prelude.{◌≡◌, ◌∷◌, [], OnOk};
ghost use Rattle.script_checker.specs.Stacks.{Pops};

use property_keys::NoMemory;
use std::alloc::Global;
use std::marker::Model;

/// A stack, which contracts see as the list of what is on it, the top first.
#[derive(Drop)]
pub struct Stack<T> {
    all: Vec<T>,
}

impl<T> Model for Stack<T> {
    ghost use Rattle.std.specs.Prelude.{List, reverse};

    ghost Value = { List T };

    ghost view = { λ s. reverse s.all.items };
}

impl<T: Drop> Stack<T> {
    /// An empty stack. It takes no memory.
    pub fn new(alloc: Global) -> Stack<T>
        ensures { result ≡ [] }
    {
        Stack {
            all: Vec::new(alloc),
        }
    }

    /// Puts something on top.
    pub fn push(&mut self, x: T) -> Result<(), NoMemory>
        ensures { OnOk result (self.new ≡ x ∷ self.old) }
    {
        self.all.push(x).map_err(|_| NoMemory)
    }

    /// Takes the top away. None exactly where the stack is empty.
    pub fn pop(&mut self) -> Option<T>
        ensures { Pops self.old self.new result }
    {
        self.all.pop()
    }
}
