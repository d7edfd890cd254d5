//! Tables of definitions and what becomes of them.

ghost use Rattle.std.specs.Prelude.{◌≡◌};
ghost use Rattle.descriptors.specs.Kinds.{is_function_field};

mod cases;

use cases::{CASES, F, FREE_F, G, NOTHING, ONE, WRITABLE};
use descriptors::{
    Descriptor, Verdict, complete, from_complete, is_compatible, is_mixed, validate,
};
use property_keys::Value;

/// Whether a getter or setter, where one is wanted, is one.
fn is_function(field: Option<Value>) -> bool
    ensures { result ≡ is_function_field field }
{
    matches!(field, None | Some(Value::Undefined | Value::Object(_)))
}

#[test]
fn validates(rt: HostRuntime) {
    for (row, case) in CASES.iter().enumerate() {
        let wanted = &case.wanted;
        assert!(rt;
            is_function(wanted.get) && is_function(wanted.set),
            "row {row}"
        );
        assert!(rt; !is_mixed(wanted), "row {row}");
        let current = case.current.as_ref();
        assert_eq!(rt;
            validate(case.extensible, wanted, current),
            case.verdict,
            "row {row}"
        );
        let allowed = case.verdict != Verdict::Refuse;
        assert_eq!(rt;
            is_compatible(case.extensible, wanted, current),
            allowed,
            "row {row}"
        );
    }
}

#[test]
fn tells_mixed(rt: HostRuntime) {
    let cases = [
        (NOTHING, false),
        (
            Descriptor {
                enumerable: Some(true),
                configurable: Some(true),
                ..NOTHING
            },
            false,
        ),
        (
            Descriptor {
                value: Some(ONE),
                writable: Some(true),
                ..NOTHING
            },
            false,
        ),
        (
            Descriptor {
                get: Some(F),
                set: Some(G),
                ..NOTHING
            },
            false,
        ),
        (
            Descriptor {
                value: Some(ONE),
                get: Some(F),
                ..NOTHING
            },
            true,
        ),
        (
            Descriptor {
                value: Some(ONE),
                set: Some(Value::Undefined),
                ..NOTHING
            },
            true,
        ),
        (
            Descriptor {
                writable: Some(false),
                get: Some(Value::Undefined),
                ..NOTHING
            },
            true,
        ),
        (
            Descriptor {
                writable: Some(false),
                set: Some(G),
                ..NOTHING
            },
            true,
        ),
    ];
    for (wanted, mixed) in cases {
        assert!(rt; is_function(wanted.get) && is_function(wanted.set));
        assert_eq!(rt; is_mixed(&wanted), mixed, "{wanted:?}");
    }
}

#[test]
fn tells_the_fields(rt: HostRuntime) {
    let stored = Descriptor {
        value: Some(ONE),
        writable: Some(true),
        enumerable: Some(false),
        configurable: Some(false),
        ..NOTHING
    };
    let accessor = Descriptor {
        get: Some(F),
        set: Some(Value::Undefined),
        enumerable: Some(true),
        configurable: Some(true),
        ..NOTHING
    };
    for (property, fields) in [(WRITABLE, stored), (FREE_F, accessor)] {
        assert_eq!(rt; from_complete(&property), fields);
        assert_eq!(rt; complete(&from_complete(&property)), property);
    }
    assert_eq!(rt; Descriptor::default(), NOTHING);
}
