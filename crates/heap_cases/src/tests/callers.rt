//! Four calls of the heap in a row.

use descriptors::{Complete, Descriptor};
use es_model::{Completion, Reply, Stop, Turn};
use heap_callers::{put, strip};
use object_heap::Heap;
use property_keys::{Attributes, Counting, ObjectId, PropKey, Steps, Value};
use std::test::Fail;

/// What is made first: there are so many start objects.
const FIRST_OBJECT: ObjectId = ObjectId(41);

#[test]
fn four_calls(rt: HostRuntime) -> Result<(), Fail> {
    let mut heap = Heap::new(rt.alloc(), 2)?;
    let mut steps = Steps::new(Counting::new());
    let wanted = Descriptor {
        value: Some(Value::Whole(7)),
        configurable: Some(true),
        ..Descriptor::default()
    };
    let made = put(&mut heap, PropKey::Index(3), &wanted, &mut steps)?;
    assert!(rt;
        matches!(
            made,
            Turn::Done(Completion::Normal(Reply::Value(Value::Object(FIRST_OBJECT))))
        )
    );
    let property = Complete::Stored {
        value: Value::Whole(7),
        attributes: Attributes {
            writable: false,
            enumerable: false,
            configurable: true,
        },
    };
    assert_eq!(rt;
        heap.own(FIRST_OBJECT, PropKey::Index(3), &mut steps),
        Some(property)
    );
    let stripped = strip(&mut heap, FIRST_OBJECT, PropKey::Index(3), &mut steps)?;
    assert!(rt; matches!(stripped, Turn::Done(Completion::Normal(Reply::Flag(true)))));
    assert_eq!(rt; heap.own(FIRST_OBJECT, PropKey::Index(3), &mut steps), None);
    assert!(rt; !heap.extensible(FIRST_OBJECT));
    // the two turns are taken
    let halted = strip(&mut heap, FIRST_OBJECT, PropKey::Index(3), &mut steps);
    assert!(rt; matches!(halted, Err(Stop::Halted)));
    Ok(())
}
