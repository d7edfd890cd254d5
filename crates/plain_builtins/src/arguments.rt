//! The arguments that an operation still has to take.

ghost use Rattle.std.specs.Prelude.{◌≡◌, IfOk};
ghost use Rattle.plain_builtins.specs.Counting.{before_taking};

use es_model::Values;
use property_keys::{NoMemory, Value};
use std::alloc::Global;
use std::collections::VecDeque;
use std::marker::Model;

/// Arguments that are left, seen as their list.
#[derive(Drop)]
pub struct Arguments {
    left: VecDeque<Value>,
}

impl Model for Arguments {
    ghost use Rattle.std.specs.Prelude.{List};
    ghost use Rattle.property_keys.specs.declared.values.Value.{Value as Datum};

    ghost Value = { List Datum };

    ghost view = { λ a. a.left.items };
}

impl Arguments {
    /// All of a list.
    pub fn of(alloc: Global, values: &Values) -> Result<Arguments, NoMemory>
        ensures { IfOk result (λ left. left ≡ values.now) }
    {
        let mut left = VecDeque::new(alloc);
        let mut n = 0;
        'copied: while n < values.len() {
            match left.push_back(*values.at(n)) {
                Ok(()) => n += 1,
                Err(_) => return Err(NoMemory),
            }
        }
        Ok(Arguments { left })
    }

    /// The first of those that are left.
    pub fn take(&mut self) -> Option<Value>
        ensures { self.old ≡ before_taking result self.new }
    {
        self.left.pop_front()
    }
}
