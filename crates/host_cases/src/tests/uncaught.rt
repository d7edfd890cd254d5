//! Scripts that end with an uncaught value, with what they print before and the value's text.

use super::host::throws;
use std::alloc::Global;
use std::test::Fail;

struct Thrown {
    file: &'static str,
    out: &'static str,
    note: &'static str,
}

static THROWN: &[Thrown] = &[
    // errors of the standard
    Thrown {
        file: "print(9007199254740991 + 1);",
        out: "",
        note: "hcjs: uncaught RangeError: number outside the profile\n",
    },
    Thrown {
        file: "x;",
        out: "",
        note: "hcjs: uncaught ReferenceError: x is not defined\n",
    },
    Thrown {
        file: "let a = a;",
        out: "",
        note: "hcjs: uncaught ReferenceError: a is not initialised\n",
    },
    Thrown {
        file: "const a = 1; a = 2;",
        out: "",
        note: "hcjs: uncaught TypeError: a is constant\n",
    },
    Thrown {
        file: "null.a;",
        out: "",
        note: "hcjs: uncaught TypeError: not an object\n",
    },
    Thrown {
        file: "1();",
        out: "",
        note: "hcjs: uncaught TypeError: not a function\n",
    },
    Thrown {
        file: "new 1;",
        out: "",
        note: "hcjs: uncaught TypeError: not a constructor\n",
    },
    Thrown {
        file: "'use strict'; undefined = 1;",
        out: "",
        note: "hcjs: uncaught TypeError: refused\n",
    },
    Thrown {
        file: "print({ a: 1 } + 1);",
        out: "",
        note: "hcjs: uncaught TypeError: cannot convert\n",
    },
    // what was printed before stays, and nothing behind it runs
    Thrown {
        file: "print(1); throw 2; print(3);",
        out: "1\n",
        note: "hcjs: uncaught 2\n",
    },
    Thrown {
        file: "try { throw 1; } finally { print(2); }",
        out: "2\n",
        note: "hcjs: uncaught 1\n",
    },
    Thrown {
        file: "try { throw 1; } catch (e) { print(e); throw e + 1; }",
        out: "1\n",
        note: "hcjs: uncaught 2\n",
    },
    // primitive values
    Thrown {
        file: "throw undefined;",
        out: "",
        note: "hcjs: uncaught undefined\n",
    },
    Thrown {
        file: "throw null;",
        out: "",
        note: "hcjs: uncaught null\n",
    },
    Thrown {
        file: "throw true;",
        out: "",
        note: "hcjs: uncaught true\n",
    },
    Thrown {
        file: "throw false;",
        out: "",
        note: "hcjs: uncaught false\n",
    },
    Thrown {
        file: "throw 0;",
        out: "",
        note: "hcjs: uncaught 0\n",
    },
    Thrown {
        file: "throw -9007199254740991;",
        out: "",
        note: "hcjs: uncaught -9007199254740991\n",
    },
    Thrown {
        file: "throw '';",
        out: "",
        note: "hcjs: uncaught \n",
    },
    Thrown {
        file: "throw 'a\\uD800b \\uD83D\\uDE00';",
        out: "",
        note: "hcjs: uncaught a\u{FFFD}b \u{1F600}\n",
    },
    // objects that are no errors
    Thrown {
        file: "throw {};",
        out: "",
        note: "hcjs: uncaught an object\n",
    },
    Thrown {
        file: "throw { name: 'n', message: 'm' };",
        out: "",
        note: "hcjs: uncaught an object\n",
    },
    Thrown {
        file: "throw print;",
        out: "",
        note: "hcjs: uncaught an object\n",
    },
    Thrown {
        file: "try { x; } catch (e) { throw { __proto__: e }; }",
        out: "",
        note: "hcjs: uncaught an object\n",
    },
    // errors whose name and message are others by a plain look
    Thrown {
        file: "try { x; } catch (e) { e.name = 'N'; throw e; }",
        out: "",
        note: "hcjs: uncaught N: x is not defined\n",
    },
    Thrown {
        file: "try { x; } catch (e) { e.message = ''; throw e; }",
        out: "",
        note: "hcjs: uncaught ReferenceError\n",
    },
    Thrown {
        file: "try { x; } catch (e) { delete e.message; throw e; }",
        out: "",
        note: "hcjs: uncaught ReferenceError\n",
    },
    Thrown {
        file: "try { x; } catch (e) { e.message = 5; throw e; }",
        out: "",
        note: "hcjs: uncaught ReferenceError\n",
    },
    Thrown {
        file: "try { x; } catch (e) { e.name = ''; throw e; }",
        out: "",
        note: "hcjs: uncaught : x is not defined\n",
    },
    Thrown {
        file: "try { x; } catch (e) { e.name = 5; e.message = {}; throw e; }",
        out: "",
        note: "hcjs: uncaught \n",
    },
    Thrown {
        file: "try { x; } catch (e) { e.message = '\\uD800'; throw e; }",
        out: "",
        note: "hcjs: uncaught ReferenceError: \u{FFFD}\n",
    },
];

/// The number of the first script that ends otherwise.
fn first_other(alloc: Global) -> Result<Option<usize>, Fail> {
    for (number, case) in THROWN.iter().enumerate() {
        if !throws(alloc, case.file.as_bytes(), case.out, case.note)? {
            return Ok(Some(number));
        }
    }
    Ok(None)
}

#[test]
fn uncaught_values(rt: HostRuntime) -> Result<(), Fail> {
    assert_eq!(rt; first_other(rt.alloc())?, None);
    Ok(())
}
