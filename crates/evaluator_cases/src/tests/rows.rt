//! Scripts, with what each prints and how many turns it takes.

/// A script, and what it prints: a line for each call of `print`, and how it ends where it throws or halts.
pub struct Row(pub &'static str, pub &'static str);

pub const ROWS: [Row; 62] = [
    Row("", ""),
    Row("print(1);", "1\n"),
    Row("throw 3;", "throws 3"),
    Row("let a; print(a);", "undefined\n"),
    Row("let a = 1; print(a + 1);", "2\n"),
    Row("let a = 1, b = a + 1; print(a, b);", "1 2\n"),
    // scopes
    Row("let a = 1; { let a = 2; print(a); } print(a);", "2\n1\n"),
    Row(
        "{ let a = 1; { let b = 2; print(a, b); } let c = 3; print(a, c); }",
        "1 2\n1 3\n",
    ),
    Row("{ print(a); let a = 1; }", "throws a is not initialised"),
    Row(
        "{ print(typeof a); let a = 1; }",
        "throws a is not initialised",
    ),
    Row("const a = 1; a = 2;", "throws a is constant"),
    Row("a = 5; print(a);", "5\n"),
    Row("'use strict'; a = 5;", "throws a is not defined"),
    Row("a;", "throws a is not defined"),
    // loops
    Row(
        "let i = 0; while (i < 3) { print(i); i = i + 1; }",
        "0\n1\n2\n",
    ),
    Row(
        "for (let i = 0; i < 3; i++) { if (i === 1) continue; print(i); }",
        "0\n2\n",
    ),
    Row(
        "for (let i = 0, j = 5; i < j; i++, j--) print(i + j);",
        "5\n5\n5\n",
    ),
    Row(
        "for (let i = 0; i < 2; i++) { for (let j = 0; j < 5; j++) { if (j === 2) break; print(i * 10 + j); } }",
        "0\n1\n10\n11\n",
    ),
    Row("while (true) {}", "halts"),
    Row("if (0) { print(1); } else { print(2); }", "2\n"),
    // try
    Row(
        "try { throw 7; } catch (e) { print(e); } finally { print(8); }",
        "7\n8\n",
    ),
    Row("try { throw 1; } catch { print(2); }", "2\n"),
    Row(
        "try { throw 1; } catch (e) { let f = e + 1; print(e, f); }",
        "1 2\n",
    ),
    Row("try { a; } catch (e) { print(e); }", "a is not defined\n"),
    Row("for (;;) { try { break; } finally { print(1); } }", "1\n"),
    Row(
        "try { try { throw 1; } finally { throw 2; } } catch (e) { print(e); }",
        "2\n",
    ),
    Row(
        "try { try { throw 1; } finally { print(0); } } catch (e) { print(e); }",
        "0\n1\n",
    ),
    Row(
        "try { throw 1; } catch (e) { throw e + 1; } finally { print(5); }",
        "5\nthrows 2",
    ),
    Row(
        "for (let i = 0; i < 2; i++) { try { continue; } finally { print(i); } }",
        "0\n1\n",
    ),
    // object literals
    Row("let o = {a: 1, b: 2}; print(o.a + o.b);", "3\n"),
    Row(
        "let a = 1; let b = 2; let o = {a, b}; print(o.a, o.b);",
        "1 2\n",
    ),
    Row(
        "a = 5; let b = 1; let o = {a, b}; print(o.a, o.b);",
        "5 1\n",
    ),
    Row("let o = {a};", "throws a is not defined"),
    Row("{ let o = {a}; let a = 1; }", "throws a is not initialised"),
    Row(
        "let k = 'q'; let o = {[k + 1]: 3, b: 4}; print(o.q1, o.b);",
        "3 4\n",
    ),
    Row(
        "let p = {a: 4}; let o = {__proto__: p, b: 5}; print(o.a, o.b);",
        "4 5\n",
    ),
    Row(
        "let o = {__proto__: null, b: 1}; print(o.b, o.a);",
        "1 undefined\n",
    ),
    Row("let o = {__proto__: 3, b: 1}; print(o.b);", "1\n"),
    Row("let o = {1: 'x', a: 'y'}; print(o[1], o['a']);", "x y\n"),
    Row("let o = {m() {}};", ""),
    Row("let f = function () {};", ""),
    // accesses and assignments
    Row(
        "let o = {n: 1}; o.n += 4; print(o.n++); print(o.n);",
        "5\n6\n",
    ),
    Row(
        "let o = {a: 1}; o['a'] *= 5; print(o.a); o.a -= 2; print(o.a % 2);",
        "5\n1\n",
    ),
    Row("let a = 1; print(++a, a--, --a);", "2 2 0\n"),
    Row("null.a;", "throws not an object"),
    Row("null.a = print(1);", "1\nthrows not an object"),
    Row(
        "let o = {a: 1}; print(delete o.a, o.a);",
        "true undefined\n",
    ),
    // operators
    Row(
        "print(typeof 1, typeof 'a', typeof q, typeof {});",
        "number string undefined object\n",
    ),
    Row(
        "print(1 ? 2 : 3, (1, 2), 0 || 4, null ?? 5, 0 && 6);",
        "2 2 4 5 0\n",
    ),
    Row("let o = {a: 1}; print('a' in o, 'b' in o);", "true false\n"),
    Row("print('ab' + 'cd', 'abc'.length, 'abc'[1]);", "abcd 3 b\n"),
    Row("print(-3, +'4', !0, void 0);", "-3 4 true undefined\n"),
    Row(
        "print(1 == 1, 1 != 2, 'a' === 'a', null == void 0);",
        "true true true true\n",
    ),
    Row(
        "print(1 < 2, 2 > 3, 2 <= 2, 1 >= 2);",
        "true false true false\n",
    ),
    Row("print(typeof this);", "object\n"),
    Row("new 3;", "throws not a constructor"),
    // array literals
    Row(
        "let a = [1, 2, 3]; print(a.length, a[0], a[2], a[3]);",
        "3 1 3 undefined\n",
    ),
    Row(
        "print([].length, [,].length, [1,,].length, [,,3].length);",
        "0 1 2 3\n",
    ),
    Row("let a = [1,,3]; print(1 in a, 2 in a);", "false true\n"),
    Row("print([[1, 2], [3]][0][1]);", "2\n"),
    Row("print([function () {}][0].name === '');", "true\n"),
    Row("let o = {}; [1, o.a.b, print(2)];", "throws not an object"),
];

/// A script, and the turns that it takes.
pub struct Taken(pub &'static str, pub u64);

pub const TAKEN: [Taken; 12] = [
    Taken("1;", 2),
    Taken("let a = 1;", 2),
    Taken("{ let a = 1; a; }", 5),
    // the statement, the call, its function and its argument
    Taken("print(1);", 4),
    Taken("while (false) {}", 2),
    // the test is read before each of three rounds, and each has the block
    Taken("let i = 0; while (i < 2) { i++; }", 18),
    Taken("for (;;) { break; }", 3),
    Taken("try { 1; } finally { 2; }", 5),
    Taken("if (1) 2;", 4),
    // the statement, the conditional operator, its test and the operand that is taken
    Taken("1 ? 2 : 3;", 4),
    // the statement, the literal and two elements
    Taken("[1, , 2];", 4),
    // A name of 2^20 + 4 code units is too long, and it is made once the accessor is there: after its turn. The first statement takes 2, the loop
    // 1 + 2 + 21 * 3 + 20 * 4, and then come the `try`, its statement, the literal, its key and the accessor
    Taken(
        "let k = 'a'; for (let i = 0; i < 20; i++) k += k; try { ({ get [k]() {} }); } catch { }",
        153,
    ),
];
