//! Scripts that call built-in functions, with what they print.

use super::host::prints;
use std::alloc::Global;
use std::test::Fail;

/// A script that runs to its end, and what it prints.
struct Script {
    file: &'static str,
    out: &'static str,
}

static CALLS: &[Script] = &[
    // Number
    Script {
        file: "print((255).toString(16), (255).toString(), (-35).toString(36), (5).toString(2));",
        out: "ff 255 -z 101\n",
    },
    Script {
        file: "print(Number('0x10'), Number(), new Number(7) + 1, typeof new Number(7));",
        out: "16 0 8 object\n",
    },
    Script {
        file: "try { (5).toString(37); } catch (e) { print(e.toString()); }",
        out: "RangeError: invalid radix\n",
    },
    // Boolean
    Script {
        file: "print(Boolean(''), Boolean('x'), new Boolean(false).valueOf(), (true).toString());",
        out: "false true false true\n",
    },
    // Symbol
    Script {
        file: "let s = Symbol('a'); print(s.toString(), s.description, Symbol().description, typeof s, s === Symbol('a'));",
        out: "Symbol(a) a undefined symbol false\n",
    },
    Script {
        file: "print(Symbol.hasInstance.toString(), Symbol.iterator);",
        out: "Symbol(Symbol.hasInstance) undefined\n",
    },
    Script {
        file: "try { new Symbol(); } catch (e) { print(e.toString()); }",
        out: "TypeError: wrong value\n",
    },
    Script {
        file: "try { Symbol.prototype.toString.call(1); } catch (e) { print(e.toString()); }",
        out: "TypeError: wrong value\n",
    },
    // Error
    Script {
        file: "let e = new TypeError('m'); print(e.message, e.name, e.toString(), e instanceof TypeError, e instanceof Error, e instanceof RangeError);",
        out: "m TypeError TypeError: m true true false\n",
    },
    Script {
        file: "print(Error('m', { cause: 7 }).cause, 'cause' in Error('m'), new Error().message === '', '' + Error('x'));",
        out: "7 false true Error: x\n",
    },
    Script {
        file: "let show = Error.prototype.toString; print(show.call({ name: 'N', message: 'm' }), show.call({}), show.call({ name: '', message: 'm' }), show.call({ name: 'N', message: '' }));",
        out: "N: m Error m N\n",
    },
    // Function
    Script {
        file: "print.call(0, 1, 2); print.apply(0, { length: 2, 0: 'a', 1: 'b' }); print.apply();",
        out: "1 2\na b\n\n",
    },
    Script {
        file: "try { Function('x'); } catch (e) { print(e.message); }",
        out: "wrong value\n",
    },
    Script {
        file: "print(Function.prototype(1), typeof Function.prototype, Function.length, Number.name, (1).toString.length);",
        out: "undefined function 1 Number 1\n",
    },
    Script {
        file: "print(Error.prototype.constructor === Error, Error.constructor === Function, (1).constructor === Number);",
        out: "true true true\n",
    },
];

/// The number of the first script that does something else.
fn first_other(alloc: Global) -> Result<Option<usize>, Fail> {
    for (number, case) in CALLS.iter().enumerate() {
        if !prints(alloc, case.file.as_bytes(), case.out)? {
            return Ok(Some(number));
        }
    }
    Ok(None)
}

#[test]
fn scripts_that_call_built_in_functions(rt: HostRuntime) -> Result<(), Fail> {
    assert_eq!(rt; first_other(rt.alloc())?, None);
    Ok(())
}
