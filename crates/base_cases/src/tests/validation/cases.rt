//! What is wanted of a property, what stands there, and what comes of it (ECMA-262, 10.1.6.3).

use descriptors::{Complete, Descriptor, Verdict};
use property_keys::{Attributes, ObjectId, Value};

/// No field is wanted.
pub(super) const NOTHING: Descriptor = Descriptor {
    value: None,
    writable: None,
    get: None,
    set: None,
    enumerable: None,
    configurable: None,
};

pub(super) const ONE: Value = Value::Whole(1);

pub(super) const TWO: Value = Value::Whole(2);

/// A function as a wanted field.
pub(super) const F: Value = Value::Object(ObjectId(7));

pub(super) const G: Value = Value::Object(ObjectId(8));

/// The same function in a property.
pub(super) const AT_F: Option<ObjectId> = Some(ObjectId(7));

pub(super) const AT_G: Option<ObjectId> = Some(ObjectId(8));

pub(super) const ALL: Attributes = Attributes {
    writable: true,
    enumerable: true,
    configurable: true,
};

pub(super) const LISTED: Attributes = Attributes {
    writable: false,
    enumerable: true,
    configurable: true,
};

pub(super) const HIDDEN: Attributes = Attributes {
    writable: true,
    enumerable: false,
    configurable: true,
};

pub(super) const WRITE: Attributes = Attributes {
    writable: true,
    enumerable: false,
    configurable: false,
};

pub(super) const NONE: Attributes = Attributes {
    writable: false,
    enumerable: false,
    configurable: false,
};

/// A value that may be written, listed and configured.
pub(super) const FREE: Complete = Complete::Stored {
    value: ONE,
    attributes: ALL,
};

/// A value that may be written and configured, and is not listed.
pub(super) const HIDDEN_ONE: Complete = Complete::Stored {
    value: ONE,
    attributes: HIDDEN,
};

/// A value that may be written and listed.
pub(super) const LISTED_ONE: Complete = Complete::Stored {
    value: ONE,
    attributes: Attributes {
        writable: true,
        enumerable: true,
        configurable: false,
    },
};

/// A getter that may be configured, and is not listed.
pub(super) const HIDDEN_F: Complete = Complete::Accessor {
    get: AT_F,
    set: None,
    enumerable: false,
    configurable: true,
};

/// A value that may be written and no more.
pub(super) const WRITABLE: Complete = Complete::Stored {
    value: ONE,
    attributes: WRITE,
};

/// A value that nothing may be done to.
pub(super) const FIXED: Complete = Complete::Stored {
    value: ONE,
    attributes: NONE,
};

/// A getter that may be listed and configured.
pub(super) const FREE_F: Complete = Complete::Accessor {
    get: AT_F,
    set: None,
    enumerable: true,
    configurable: true,
};

/// A getter that nothing may be done to.
pub(super) const FIXED_F: Complete = Complete::Accessor {
    get: AT_F,
    set: None,
    enumerable: false,
    configurable: false,
};

/// What is wanted of a property on an object that is extensible or not, what stands there, and what comes of it.
pub(super) struct Case {
    pub(super) extensible: bool,
    pub(super) wanted: Descriptor,
    pub(super) current: Option<Complete>,
    pub(super) verdict: Verdict,
}

pub(super) static CASES: [Case; 39] = [
    // Nothing stands there.
    Case {
        extensible: false,
        wanted: NOTHING,
        current: None,
        verdict: Verdict::Refuse,
    },
    Case {
        extensible: true,
        wanted: NOTHING,
        current: None,
        verdict: Verdict::Apply(Complete::Stored {
            value: Value::Undefined,
            attributes: NONE,
        }),
    },
    Case {
        extensible: true,
        wanted: Descriptor {
            value: Some(ONE),
            writable: Some(true),
            ..NOTHING
        },
        current: None,
        verdict: Verdict::Apply(Complete::Stored {
            value: ONE,
            attributes: WRITE,
        }),
    },
    Case {
        extensible: true,
        wanted: Descriptor {
            set: Some(G),
            enumerable: Some(true),
            ..NOTHING
        },
        current: None,
        verdict: Verdict::Apply(Complete::Accessor {
            get: None,
            set: AT_G,
            enumerable: true,
            configurable: false,
        }),
    },
    // Nothing is wanted.
    Case {
        extensible: false,
        wanted: NOTHING,
        current: Some(FIXED),
        verdict: Verdict::Keep,
    },
    Case {
        extensible: false,
        wanted: NOTHING,
        current: Some(FIXED_F),
        verdict: Verdict::Keep,
    },
    // Each refusal where it is not configurable, and beside it what is near to it and is not refused.
    Case {
        extensible: true,
        wanted: Descriptor {
            configurable: Some(true),
            ..NOTHING
        },
        current: Some(FIXED),
        verdict: Verdict::Refuse,
    },
    Case {
        extensible: true,
        wanted: Descriptor {
            configurable: Some(false),
            ..NOTHING
        },
        current: Some(FIXED),
        verdict: Verdict::Keep,
    },
    Case {
        extensible: true,
        wanted: Descriptor {
            configurable: Some(true),
            ..NOTHING
        },
        current: Some(FREE),
        verdict: Verdict::Keep,
    },
    Case {
        extensible: true,
        wanted: Descriptor {
            enumerable: Some(true),
            ..NOTHING
        },
        current: Some(FIXED_F),
        verdict: Verdict::Refuse,
    },
    Case {
        extensible: true,
        wanted: Descriptor {
            enumerable: Some(false),
            ..NOTHING
        },
        current: Some(FIXED_F),
        verdict: Verdict::Keep,
    },
    Case {
        extensible: true,
        wanted: Descriptor {
            get: Some(Value::Undefined),
            ..NOTHING
        },
        current: Some(WRITABLE),
        verdict: Verdict::Refuse,
    },
    Case {
        extensible: true,
        wanted: Descriptor {
            writable: Some(false),
            ..NOTHING
        },
        current: Some(FIXED_F),
        verdict: Verdict::Refuse,
    },
    Case {
        extensible: true,
        wanted: Descriptor {
            enumerable: Some(false),
            configurable: Some(false),
            ..NOTHING
        },
        current: Some(FIXED_F),
        verdict: Verdict::Keep,
    },
    Case {
        extensible: true,
        wanted: Descriptor {
            get: Some(G),
            ..NOTHING
        },
        current: Some(FIXED_F),
        verdict: Verdict::Refuse,
    },
    Case {
        extensible: true,
        wanted: Descriptor {
            get: Some(F),
            set: Some(Value::Undefined),
            ..NOTHING
        },
        current: Some(FIXED_F),
        verdict: Verdict::Keep,
    },
    Case {
        extensible: true,
        wanted: Descriptor {
            set: Some(G),
            ..NOTHING
        },
        current: Some(FIXED_F),
        verdict: Verdict::Refuse,
    },
    Case {
        extensible: true,
        wanted: Descriptor {
            writable: Some(true),
            ..NOTHING
        },
        current: Some(FIXED),
        verdict: Verdict::Refuse,
    },
    Case {
        extensible: true,
        wanted: Descriptor {
            writable: Some(true),
            ..NOTHING
        },
        current: Some(WRITABLE),
        verdict: Verdict::Keep,
    },
    Case {
        extensible: true,
        wanted: Descriptor {
            value: Some(TWO),
            ..NOTHING
        },
        current: Some(FIXED),
        verdict: Verdict::Refuse,
    },
    Case {
        extensible: true,
        wanted: Descriptor {
            value: Some(ONE),
            writable: Some(false),
            ..NOTHING
        },
        current: Some(FIXED),
        verdict: Verdict::Keep,
    },
    Case {
        extensible: true,
        wanted: Descriptor {
            value: Some(TWO),
            ..NOTHING
        },
        current: Some(WRITABLE),
        verdict: Verdict::Apply(Complete::Stored {
            value: TWO,
            attributes: WRITE,
        }),
    },
    Case {
        extensible: true,
        wanted: Descriptor {
            writable: Some(false),
            ..NOTHING
        },
        current: Some(WRITABLE),
        verdict: Verdict::Apply(FIXED),
    },
    // The kind changes: enumerable and configurable stay unless they are wanted.
    Case {
        extensible: false,
        wanted: Descriptor {
            get: Some(F),
            ..NOTHING
        },
        current: Some(FREE),
        verdict: Verdict::Apply(Complete::Accessor {
            get: AT_F,
            set: None,
            enumerable: true,
            configurable: true,
        }),
    },
    Case {
        extensible: true,
        wanted: Descriptor {
            get: Some(F),
            set: Some(Value::Undefined),
            enumerable: Some(false),
            configurable: Some(false),
            ..NOTHING
        },
        current: Some(FREE),
        verdict: Verdict::Apply(FIXED_F),
    },
    Case {
        extensible: false,
        wanted: Descriptor {
            value: Some(TWO),
            ..NOTHING
        },
        current: Some(FREE_F),
        verdict: Verdict::Apply(Complete::Stored {
            value: TWO,
            attributes: LISTED,
        }),
    },
    Case {
        extensible: true,
        wanted: Descriptor {
            writable: Some(false),
            ..NOTHING
        },
        current: Some(FREE_F),
        verdict: Verdict::Apply(Complete::Stored {
            value: Value::Undefined,
            attributes: LISTED,
        }),
    },
    // What is not listed stays so, whatever it becomes.
    Case {
        extensible: true,
        wanted: Descriptor {
            get: Some(F),
            ..NOTHING
        },
        current: Some(HIDDEN_ONE),
        verdict: Verdict::Apply(HIDDEN_F),
    },
    Case {
        extensible: true,
        wanted: Descriptor {
            value: Some(TWO),
            ..NOTHING
        },
        current: Some(HIDDEN_F),
        verdict: Verdict::Apply(Complete::Stored {
            value: TWO,
            attributes: Attributes {
                writable: false,
                enumerable: false,
                configurable: true,
            },
        }),
    },
    // Enumerable alone decides, either way, where it is not configurable, and nothing does where it is.
    Case {
        extensible: true,
        wanted: Descriptor {
            enumerable: Some(false),
            ..NOTHING
        },
        current: Some(LISTED_ONE),
        verdict: Verdict::Refuse,
    },
    Case {
        extensible: true,
        wanted: Descriptor {
            enumerable: Some(true),
            ..NOTHING
        },
        current: Some(WRITABLE),
        verdict: Verdict::Refuse,
    },
    Case {
        extensible: true,
        wanted: Descriptor {
            enumerable: Some(true),
            ..NOTHING
        },
        current: Some(HIDDEN_ONE),
        verdict: Verdict::Apply(FREE),
    },
    // Configurable alone decides.
    Case {
        extensible: true,
        wanted: Descriptor {
            configurable: Some(true),
            ..NOTHING
        },
        current: Some(LISTED_ONE),
        verdict: Verdict::Refuse,
    },
    // The kind stays: each wanted field replaces, and only it.
    Case {
        extensible: false,
        wanted: Descriptor {
            value: Some(TWO),
            ..NOTHING
        },
        current: Some(FREE),
        verdict: Verdict::Apply(Complete::Stored {
            value: TWO,
            attributes: ALL,
        }),
    },
    Case {
        extensible: true,
        wanted: Descriptor {
            writable: Some(false),
            ..NOTHING
        },
        current: Some(FREE),
        verdict: Verdict::Apply(Complete::Stored {
            value: ONE,
            attributes: LISTED,
        }),
    },
    Case {
        extensible: true,
        wanted: Descriptor {
            value: Some(ONE),
            writable: Some(true),
            enumerable: Some(true),
            configurable: Some(true),
            ..NOTHING
        },
        current: Some(FREE),
        verdict: Verdict::Keep,
    },
    Case {
        extensible: true,
        wanted: Descriptor {
            set: Some(G),
            ..NOTHING
        },
        current: Some(FREE_F),
        verdict: Verdict::Apply(Complete::Accessor {
            get: AT_F,
            set: AT_G,
            enumerable: true,
            configurable: true,
        }),
    },
    Case {
        extensible: true,
        wanted: Descriptor {
            get: Some(Value::Undefined),
            configurable: Some(false),
            ..NOTHING
        },
        current: Some(FREE_F),
        verdict: Verdict::Apply(Complete::Accessor {
            get: None,
            set: None,
            enumerable: true,
            configurable: false,
        }),
    },
    Case {
        extensible: true,
        wanted: Descriptor {
            get: Some(F),
            set: Some(Value::Undefined),
            enumerable: Some(true),
            ..NOTHING
        },
        current: Some(FREE_F),
        verdict: Verdict::Keep,
    },
];
