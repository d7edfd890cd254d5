//! Error objects (20.5).

ghost use Rattle.std.specs.Prelude.{◌≡◌, IfOk, OnErr, OnOk};
ghost use Rattle.es_model.specs.World.{World};
ghost use Rattle.object_heap.specs.Errors.{error_made, error_number};
ghost use Rattle.object_heap.specs.Retains.{Retains};
ghost use Rattle.object_heap.specs.Stands.{Goes, Keeps, StandsFor};

use crate::Heap;
use descriptors::Complete;
use es_model::{Class, ErrorKind, Intrinsic, ObjectKind, StartText};
use property_keys::{Attributes, Ledger, NoMemory, ObjectId, PropKey, Steps, TextId, Value};

impl Heap {
    /// A new error object with a message (ECMA-262, 20.5.1.1, 20.5.6.1.1).
    pub fn make_error<L: Ledger>(
        &mut self,
        kind: ErrorKind,
        text: TextId,
        _steps: &mut Steps<L>,
    ) -> Result<ObjectId, NoMemory>
        ensures object { IfOk result (λ object. (w : World) → StandsFor self.old w → object ≡ error_number w) }
        ensures ok { OnOk result ((w : World) → StandsFor self.old w → Goes self.old self.new w (error_made w kind text)) }
        ensures err { OnErr result (Keeps self.old self.new) }
        ensures retains { Retains self.old self.new }
    {
        let parent = Intrinsic::Prototype(Class::Error(kind)).object();
        let message = Complete::Stored {
            value: Value::Text(text),
            attributes: Attributes {
                writable: true,
                enumerable: false,
                configurable: true,
            },
        };
        let error = self.objects.make_with(
            self.alloc,
            ObjectKind::Error,
            Some(parent),
            PropKey::Name(StartText::Message.number()),
            message,
        )?;
        Ok(error)
    }
}
