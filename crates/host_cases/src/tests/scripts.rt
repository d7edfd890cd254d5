//! Scripts that run to their end, with what they print, and scripts that are refused, with their notes.

use super::host::{prints, refuses};
use std::alloc::Global;
use std::test::Fail;

// A script that runs to its end, and what it prints.
struct Script {
    file: &'static str,
    out: &'static str,
}

static RUNNING: &[Script] = &[
    Script { file: "", out: "" },
    Script {
        file: " // nothing\n/* at all */\n",
        out: "",
    },
    Script {
        file: "let o={b:1,a:\"x\"}; o.c=o.b+2; delete o.b; print(o.b, o.a+o.c, typeof o, \"a\" in o, 2<10, \"2\"<\"10\");",
        out: "undefined x3 object true true false\n",
    },
    // a constructor that is not built has no name
    Script {
        file: "print(typeof Object, typeof Symbol, typeof Proxy, 'x'.constructor, {}.constructor);",
        out: "undefined function undefined undefined undefined\n",
    },
    // one object, in many layouts
    Script {
        file: "let o = {}",
        out: "",
    },
    Script {
        file: "let o={};o.a=7;print(o.a);print(o.b)",
        out: "7\nundefined\n",
    },
    Script {
        file: "#!/usr/bin/env hcjs\nlet o = {}\no.a = 7\nprint(o.a)\nprint(o.b)\n",
        out: "7\nundefined\n",
    },
    Script {
        file: "// a new object\nlet\no\n=\n{ /* empty */ }\no\n.\na // a key\n= 7\nprint\n(\no.a /* once\nmore */ )\n",
        out: "7\n",
    },
    Script {
        file: "let o = ({});\n(o).a = (7);\n(print)((o).a);\n(print(((o.b))));\n",
        out: "7\nundefined\n",
    },
    Script {
        file: "let o = {}; o.a = 0x10; o.b = 0b11; print(o.a); print(o.b);",
        out: "16\n3\n",
    },
    Script {
        file: "let o = {};\r\no.a = 1;\r\no.a = 2;\r\nprint(o.a);\r\n",
        out: "2\n",
    },
    Script {
        file: "let o = {};\no.if = 1;\no.print = 2;\no.let = 3;\nprint(o.if);\nprint(o.print);\nprint(o.let);\n",
        out: "1\n2\n3\n",
    },
    Script {
        file: "let o = {};\no.a = 9007199254740991;\nprint(o.a);\n",
        out: "9007199254740991\n",
    },
    Script {
        file: "let o = {};\nprint(o.a,);\n",
        out: "undefined\n",
    },
    Script {
        file: "let o = {}; o[\"a\"] = 1; print(o[\"a\"]);",
        out: "1\n",
    },
    Script {
        file: "let o = {};\no.a = o.b = 1;\no.a += 2;\nprint(o.a, o.b);\n",
        out: "3 1\n",
    },
    Script {
        file: "let o = {}, p = { a: 1 };\np.o = o;\no.p = p;\nprint(o.p.o.p.a);\n",
        out: "1\n",
    },
    // lines: texts with a space between two, and a line feed; U+FFFD for a surrogate without a partner
    Script {
        file: "print();",
        out: "\n",
    },
    Script {
        file: "print(\"\", \"\");",
        out: " \n",
    },
    Script {
        file: "print(null, undefined, true, false, 0, -1, \"a b\");",
        out: "null undefined true false 0 -1 a b\n",
    },
    Script {
        file: "print(\"a\\nb\"); print(\"c\");",
        out: "a\nb\nc\n",
    },
    Script {
        file: "print(\"h\\u00e9\", \"\\u{1F600}\", \"\\uD83D\" + \"\\uDE00\", \"a\\uD800b\", \"\\uDC00\");",
        out: "h\u{E9} \u{1F600} \u{1F600} a\u{FFFD}b \u{FFFD}\n",
    },
    Script {
        file: "print(\"\\uD83D\", \"\\uDE00\");",
        out: "\u{FFFD} \u{FFFD}\n",
    },
    // `print` is a property of the global object, and an object
    Script {
        file: "let print2 = print; print2(1); globalThis.print(2); print(print.length, print.name);",
        out: "1\n2\n0 print\n",
    },
    Script {
        file: "let write = print; { let print = 3; write(print); } print(print(4));",
        out: "3\n4\nundefined\n",
    },
    // names
    Script {
        file: "a = 1; print(a, globalThis.a, typeof b, this === globalThis); undefined = 1; print(undefined);",
        out: "1 1 undefined true\nundefined\n",
    },
    Script {
        file: "let a; { let a; } while (1) { { break; } } try {} catch (e) { { let e; } } print(a);",
        out: "undefined\n",
    },
    // loops, and what leaves them
    Script {
        file: "for (let i = 0; i < 3; i++) { if (i === 1) continue; print(i); }",
        out: "0\n2\n",
    },
    Script {
        file: "let i = 0; while (true) { i = i + 1; if (i > 3) break; print(i % 2 ? \"odd\" : \"even\"); }",
        out: "odd\neven\nodd\n",
    },
    // what is thrown is caught, and `finally` stands behind it
    Script {
        file: "try { x; } catch (e) { print(e.name, e.message); } finally { print(1); }",
        out: "ReferenceError x is not defined\n1\n",
    },
    Script {
        file: "try { throw 7; } catch (e) { print(e); }",
        out: "7\n",
    },
    Script {
        file: "for (let i = 0; i < 2; i++) { try { continue; } finally { print(i); } }",
        out: "0\n1\n",
    },
    // operators
    Script {
        file: "print(1 + \"2\", \"3\" * \"4\", 7 % 4, -7 % 4, 1 == \"1\", 1 === \"1\", null == undefined, null ?? 5, 0 || 6, 0 && 7);",
        out: "12 12 3 -3 true false true 5 6 0\n",
    },
    Script {
        file: "let i = 1; print(i++, ++i, i--, --i, +\"5\", -\"5\", !i, void i, (1, 2));",
        out: "1 3 3 1 5 -5 false undefined 2\n",
    },
    Script {
        file: "let p = { a: 1 }; let o = { __proto__: p, b: 2 }; print(\"a\" in o, o.a, delete o.a, o.a, delete o.b, o.b);",
        out: "true 1 true 1 true undefined\n",
    },
];

// A script that is refused, and the note on it.
struct Refused {
    file: &'static str,
    note: &'static str,
}

// No fault, and an array literal, or a function, a method or an accessor whose code uses `arguments`: the first of them is told.
static UNBUILT: &[Refused] = &[
    Refused {
        file: "let a = [];",
        note: "hcjs: 1:9: not built\n",
    },
    Refused {
        file: "if (false) { [1, , 2]; }",
        note: "hcjs: 1:14: not built\n",
    },
    // in a function, and beside one
    Refused {
        file: "let f = function () { return [1]; };",
        note: "hcjs: 1:30: not built\n",
    },
    Refused {
        file: "let a = [function () {}];",
        note: "hcjs: 1:9: not built\n",
    },
    Refused {
        file: "print(1, []);\nfunction f() {}",
        note: "hcjs: 1:10: not built\n",
    },
    Refused {
        file: "function f() {}\nprint([]);",
        note: "hcjs: 2:7: not built\n",
    },
    Refused {
        file: "let o = { m() {}, a: [] };",
        note: "hcjs: 1:22: not built\n",
    },
    Refused {
        file: "let o = { a: [], m() {} };",
        note: "hcjs: 1:14: not built\n",
    },
    // the function whose own code uses `arguments`
    Refused {
        file: "function f() { arguments; }\nprint(1);",
        note: "hcjs: 1:1: not built\n",
    },
    Refused {
        file: "print(1);\n(function f() { return arguments; });",
        note: "hcjs: 2:2: not built\n",
    },
    Refused {
        file: "function f() { return function() { this; arguments; }; }",
        note: "hcjs: 1:23: not built\n",
    },
    Refused {
        file: "let o = { m() { return arguments; } };",
        note: "hcjs: 1:11: not built\n",
    },
    Refused {
        file: "let o = { get a() { return arguments; } };",
        note: "hcjs: 1:11: not built\n",
    },
    Refused {
        file: "let o = { b: 1, set a(x) { arguments; } };",
        note: "hcjs: 1:17: not built\n",
    },
    Refused {
        file: "let o = { [1]() { arguments; } };",
        note: "hcjs: 1:11: not built\n",
    },
    // the first of both
    Refused {
        file: "print([]); function f() { arguments; }",
        note: "hcjs: 1:7: not built\n",
    },
    Refused {
        file: "function f() { arguments; } print([]);",
        note: "hcjs: 1:1: not built\n",
    },
];

// A note for each kind of fault; those of length and depth are among the limits. A fault is told also where something does not run yet before it.
static FAULTY: &[Refused] = &[
    Refused {
        file: "let o = {};\no.a = 07;\nprint(o.a);\nprint(o.b);\n",
        note: "hcjs: 2:7: fault 3 BadToken\n",
    },
    Refused {
        file: "let a = 1\nlet b = 2 let c\n",
        note: "hcjs: 2:11: fault 4 Unexpected\n",
    },
    Refused {
        file: "let a = 1;\nlet b = a +;",
        note: "hcjs: 2:12: fault 4 Unexpected\n",
    },
    Refused {
        file: "let a = []; let a;",
        note: "hcjs: 1:17: fault 6 Duplicate\n",
    },
    Refused {
        file: "function f(){ let x=1; return function(){ return x; }; }",
        note: "hcjs: 1:50: fault 7 Capture\n",
    },
    Refused {
        file: "let arguments = 1;",
        note: "hcjs: 1:5: fault 8 BadBinding\n",
    },
    Refused {
        file: "break;",
        note: "hcjs: 1:1: fault 9 Misplaced\n",
    },
];

/// The number of the first script that prints something else or does not come to its end.
fn first_other(alloc: Global) -> Result<Option<usize>, Fail> {
    for (number, case) in RUNNING.iter().enumerate() {
        if !prints(alloc, case.file.as_bytes(), case.out)? {
            return Ok(Some(number));
        }
    }
    Ok(None)
}

/// The number of the first script that is not refused so.
fn first_passed(alloc: Global, cases: &[Refused]) -> Result<Option<usize>, Fail> {
    for (number, case) in cases.iter().enumerate() {
        if !refuses(alloc, case.file.as_bytes(), case.note)? {
            return Ok(Some(number));
        }
    }
    Ok(None)
}

#[test]
fn scripts_that_run(rt: HostRuntime) -> Result<(), Fail> {
    assert_eq!(rt; first_other(rt.alloc())?, None);
    Ok(())
}

#[test]
fn scripts_that_are_refused(rt: HostRuntime) -> Result<(), Fail> {
    assert_eq!(rt; first_passed(rt.alloc(), UNBUILT)?, None);
    assert_eq!(rt; first_passed(rt.alloc(), FAULTY)?, None);
    let ill_formed = [0x22, 0xC3];
    assert!(rt; refuses(rt.alloc(), &ill_formed, "hcjs: 1:2: fault 2 NotUtf8\n")?);
    Ok(())
}
