//! What is read off the texts and the kinds of objects of a heap.

ghost use Rattle.std.specs.Prelude.{◌≡◌, ◌≤◌, length, IfOk, OnErr, OnOk};
ghost use Rattle.std.specs.Result.{result_ok};
ghost use Rattle.property_keys.specs.Keys.{key_of};
ghost use Rattle.property_keys.specs.Numbers.{number_of as number_in};
ghost use Rattle.property_keys.specs.Wholes.{IsWhole};
ghost use Rattle.es_model.specs.Changes.{Interning, changed};
ghost use Rattle.es_model.specs.World.{World, number_of, units_of as units_in};
ghost use Rattle.es_model.specs.programs.Methods.{method_in};
ghost use Rattle.es_model.specs.programs.Testing.{is_callable, is_truth};
ghost use Rattle.object_heap.specs.Retains.{Retains};
ghost use Rattle.object_heap.specs.Stands.{Goes, Keeps, StandsFor};

use crate::Heap;
use crate::starting::units_of;
use es_model::Method;
use property_keys::{NoMemory, NotWhole, PropKey, TextId, Units, Value};

impl Heap {
    /// The code units of a text. A text that is not there has none.
    pub fn units(&self, text: TextId) -> &Units
        ensures { (w : World) → StandsFor self.now w → result.now ≡ units_in w.lists text }
    {
        self.texts.units(self.known(text))
    }

    /// The key of a text (ECMA-262, 7.1.19): an index exactly for an array index.
    pub fn key(&self, text: TextId) -> PropKey
        ensures { (w : World) → StandsFor self.now w → result ≡ key_of (units_in w.lists text) text }
    {
        if (text.0 as usize) < self.texts.len() {
            self.texts.key(text)
        } else {
            PropKey::Name(text)
        }
    }

    /// The number of a text (ECMA-262, 7.1.4.1.1). NotWhole exactly where it has no whole number in the range.
    pub fn text_whole(&self, text: TextId) -> Result<i64, NotWhole>
        ensures number { (w : World) → StandsFor self.now w → result_ok result ≡ number_in (units_in w.lists text) }
        ensures range { IfOk result IsWhole }
    {
        self.texts.text_whole(self.known(text))
    }

    /// The number of a text of the standard's own, new or known: one code unit for each byte.
    pub fn word(&mut self, bytes: &[u8]) -> Result<TextId, NoMemory>
        requires { length bytes.now ≤ 40 }
        ensures number { IfOk result (λ id. (w : World) → StandsFor self.old w → id ≡ number_of w.lists bytes.now) }
        ensures ok { OnOk result ((w : World) → StandsFor self.old w → Goes self.old self.new w (changed (Interning bytes.now) w)) }
        ensures err { OnErr result (Keeps self.old self.new) }
        ensures retains { Retains self.old self.new }
    {
        let units = units_of(self.alloc, bytes)?;
        self.intern(units)
    }

    /// Whether a value is an object with [[Call]] (ECMA-262, 7.2.3).
    pub fn is_callable(&self, value: Value) -> bool
        ensures { (w : World) → StandsFor self.now w → result ≡ is_callable w.lists value }
    {
        match value {
            Value::Object(object) => self.kind(object).is_callable(),
            Value::Undefined
            | Value::Null
            | Value::Bool(_)
            | Value::Whole(_)
            | Value::Text(_)
            | Value::Symbol(_) => false,
        }
    }

    /// ToBoolean (ECMA-262, 7.1.2).
    pub fn is_truth(&self, value: Value) -> bool
        ensures { (w : World) → StandsFor self.now w → result ≡ is_truth w.lists value }
    {
        match value {
            Value::Undefined | Value::Null => false,
            Value::Bool(flag) => flag,
            Value::Whole(n) => n != 0,
            Value::Text(text) => 0 < self.units(text).len(),
            Value::Symbol(_) | Value::Object(_) => true,
        }
    }

    /// What GetMethod makes of the value that stands under the key (ECMA-262, 7.3.10, steps 2 to 4).
    pub fn method(&self, value: Value) -> Method
        ensures { (w : World) → StandsFor self.now w → result ≡ method_in w.lists value }
    {
        match value {
            Value::Undefined | Value::Null => Method::Absent,
            Value::Object(object) => {
                if self.kind(object).is_callable() {
                    Method::Function(object)
                } else {
                    Method::Other
                }
            }
            Value::Bool(_) | Value::Whole(_) | Value::Text(_) | Value::Symbol(_) => Method::Other,
        }
    }
}
