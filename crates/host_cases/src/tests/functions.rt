//! Scripts with functions, and what they print. Each was worked out by hand from the standard's steps.

use super::host::prints;
use std::alloc::Global;
use std::test::Fail;

// A script that runs to its end, and what it prints.
struct Script {
    file: &'static str,
    out: &'static str,
}

static RUNNING: &[Script] = &[
    Script {
        file: "function f(){ return 7; } print(f());",
        out: "7\n",
    },
    Script {
        file: "print(f(2)); function f(x){ return x + 1; }",
        out: "3\n",
    },
    // what returns nothing gives undefined
    Script {
        file: "let a = 1\nlet b = 2\nprint(a\n+ b)\nfunction f(){ return\n7; } print(f())",
        out: "3\nundefined\n",
    },
    // a parameter without an argument is undefined
    Script {
        file: "function f(a, b){ return a + ',' + b; } print(f(1));",
        out: "1,undefined\n",
    },
    // the last function of a name is the one
    Script {
        file: "function f(){ return 1; } print(f()); function f(){ return 2; }",
        out: "2\n",
    },
    // a declared function takes the place of a parameter of its name
    Script {
        file: "function f(g){ return g(); function g(){ return 5; } } print(f(1));",
        out: "5\n",
    },
    Script {
        file: "function P(x){ this.x=x; } P.prototype.get=function(){ return this.x; }; let o={get y(){ return this.x+1; }, x:4}; print(new P(3).get(), o.y);",
        out: "3 5\n",
    },
    // names of functions: written, from a binding, from an assignment, from a property, from a key
    Script {
        file: "let a = function(){}; let b = function c(){}; let d; d = function(){}; let o = {e: function(){}, f(){}, get g(){ return 1; }}; print(a.name, b.name, d.name, o.e.name, o.f.name, (function(){}).name + '|');",
        out: "a c d e f |\n",
    },
    // a method is no constructor and has no prototype
    Script {
        file: "let o = {m(a, b){}}; print(o.m.length, o.m.prototype); try { new o.m(); } catch (e) { print(e.name, e.message); }",
        out: "2 undefined\nTypeError not a constructor\n",
    },
    // the own name of a function expression is the function
    Script {
        file: "let f = function g(n){ return n < 1 ? 0 : n + g(n - 1); }; print(f(4));",
        out: "10\n",
    },
    Script {
        file: "let f = function g(){ g = 1; return typeof g; }; print(f());",
        out: "function\n",
    },
    Script {
        file: "let f = function g(){ 'use strict'; g = 1; }; try { f(); } catch (e) { print(e.name, e.message); }",
        out: "TypeError g is constant\n",
    },
    // this
    Script {
        file: "function f(){ return this === globalThis; } print(f()); function g(){ 'use strict'; return this; } print(g());",
        out: "true\nundefined\n",
    },
    Script {
        file: "function f(){ return typeof this; } let o = {f}; print(o.f());",
        out: "object\n",
    },
    // a constructor's primitive gives the new object, its object is the result
    Script {
        file: "function P(){ this.a = 1; return 5; } function Q(){ this.a = 1; return {a: 2}; } print(new P().a, new Q().a);",
        out: "1 2\n",
    },
    Script {
        file: "function P(){} P.prototype = 3; let p = new P(); P.prototype = {k: 1}; let q = new P(); print(p.k, q.k, p instanceof P, q instanceof P);",
        out: "undefined 1 false true\n",
    },
    // finally takes the place of a return
    Script {
        file: "function f(){ try { return 1; } finally { print('last'); } } print(f()); function g(){ try { return 1; } finally { return 2; } } print(g());",
        out: "last\n1\n2\n",
    },
    Script {
        file: "function f(){ while (true) { try { return 1; } finally { break; } } return 3; } print(f());",
        out: "3\n",
    },
    // the declared function is a property of the global object
    Script {
        file: "function f(){} print(globalThis.f === f, delete globalThis.f, typeof f);",
        out: "true false function\n",
    },
    // too many calls
    Script {
        file: "let n = 0; function f(){ n = n + 1; f(); } try { f(); } catch (e) { print(e.name, e.message, n); }",
        out: "RangeError too many nested calls 2000\n",
    },
    // length, name and prototype, and constructor
    Script {
        file: "function f(a, b){} print(f.length, f.name, f.prototype.constructor === f);",
        out: "2 f true\n",
    },
    // accessors
    Script {
        file: "let o = {v: 1, get x(){ return this.v; }, set x(n){ this.v = n + 1; }}; o.x = 5; print(o.x); o.x += 1; print(o.v);",
        out: "6\n8\n",
    },
    Script {
        file: "let o = {get a(){ throw 1; }}; try { o.a; } catch (e) { print(e); } try { ({b: o.a, c: print('no')}); } catch (e) { print('again', e); }",
        out: "1\nagain 1\n",
    },
    // outside of functions `arguments` is a name as any other
    Script {
        file: "print(typeof arguments);",
        out: "undefined\n",
    },
    // functions that nothing calls
    Script {
        file: "let o = {};\nprint(o.a); function f() {}\nprint(1);\nfunction f() {} (function() { return function() { o; }; });",
        out: "undefined\n1\n",
    },
];

// The place of the first script that prints something else, if one does.
fn first_other(alloc: Global) -> Result<Option<usize>, Fail> {
    for (i, script) in RUNNING.iter().enumerate() {
        if !prints(alloc, script.file.as_bytes(), script.out)? {
            return Ok(Some(i));
        }
    }
    Ok(None)
}

#[test]
fn scripts_with_functions(rt: HostRuntime) -> Result<(), Fail> {
    assert_eq!(rt; first_other(rt.alloc())?, None);
    Ok(())
}
