//! The trees of the grammar in a printed form: a node's label, then its parts, in brackets. The numbers in the labels are those of tokens, from 0.

use super::reading::parsed;
use script_grammar::{ParseNode, Script};
use std::alloc::Global;
use std::test::Fail;

/// A source and its tree.
struct Row(&'static str, &'static str);

static TREES: &[Row] = &[
    // the script that docs/TOKENS.md, GRAMMAR.md and TREE.md go through
    Row(
        "let o = {};\no.a = 7\nprint(o.a);",
        "(And (And (And Nothing (Lexical { constant: false, first: 0 } (And Nothing (Binding(1) (Object(3) Nothing))))) (Evaluate (Assign(Plain) (Member { dot: 7, word: 8 } Name(6)) Number(10)))) (Evaluate (Call Name(11) (And Nothing (Member { dot: 14, word: 15 } Name(13))))))",
    ),
    Row(
        "a + b * c",
        "(And Nothing (Evaluate (Binary(Add) Name(0) (Binary(Multiply) Name(2) Name(4)))))",
    ),
    Row(
        "a - b - c",
        "(And Nothing (Evaluate (Binary(Subtract) (Binary(Subtract) Name(0) Name(2)) Name(4))))",
    ),
    Row(
        "a * b % c * d",
        "(And Nothing (Evaluate (Binary(Multiply) (Binary(Remainder) (Binary(Multiply) Name(0) Name(2)) Name(4)) Name(6))))",
    ),
    Row(
        "a in b instanceof c",
        "(And Nothing (Evaluate (Binary(InstanceOf) (Binary(In) Name(0) Name(2)) Name(4))))",
    ),
    Row(
        "a || b && c || d",
        "(And Nothing (Evaluate (Short(Or) (Short(Or) Name(0) (Short(And) Name(2) Name(4))) Name(6))))",
    ),
    Row(
        "a ?? b ?? c",
        "(And Nothing (Evaluate (Short(Coalesce) (Short(Coalesce) Name(0) Name(2)) Name(4))))",
    ),
    Row(
        "a ? b : c ? d : e",
        "(And Nothing (Evaluate (Conditional Name(0) Name(2) (Conditional Name(4) Name(6) Name(8)))))",
    ),
    Row(
        "a = b += c",
        "(And Nothing (Evaluate (Assign(Plain) Name(0) (Assign(Add) Name(2) Name(4)))))",
    ),
    Row(
        "a, b, c",
        "(And Nothing (Evaluate (Comma (Comma Name(0) Name(2)) Name(4))))",
    ),
    Row(
        "-typeof !a",
        "(And Nothing (Evaluate (Unary(Minus, 0) (Unary(Typeof, 1) (Unary(Not, 2) Name(3))))))",
    ),
    Row(
        "a.b++",
        "(And Nothing (Evaluate (Update { increment: true, prefix: false, token: 3 } (Member { dot: 1, word: 2 } Name(0)))))",
    ),
    Row(
        "a\n++b",
        "(And (And Nothing (Evaluate Name(0))) (Evaluate (Update { increment: true, prefix: true, token: 1 } Name(2))))",
    ),
    Row(
        "a.if['b'](c)",
        "(And Nothing (Evaluate (Call (Index(3) (Member { dot: 1, word: 2 } Name(0)) Text(4)) (And Nothing Name(7)))))",
    ),
    Row(
        "a\n(b)",
        "(And Nothing (Evaluate (Call Name(0) (And Nothing Name(2)))))",
    ),
    Row(
        "new a.b(c)",
        "(And Nothing (Evaluate (New(0) (Member { dot: 2, word: 3 } Name(1)) (And Nothing Name(5)))))",
    ),
    Row(
        "new a().b",
        "(And Nothing (Evaluate (Member { dot: 4, word: 5 } (New(0) Name(1) Nothing))))",
    ),
    Row(
        "new new a(b)(c)",
        "(And Nothing (Evaluate (New(0) (New(1) Name(2) (And Nothing Name(4))) (And Nothing Name(7)))))",
    ),
    Row(
        "new a[b]",
        "(And Nothing (Evaluate (New(0) (Index(2) Name(1) Name(3)) Nothing)))",
    ),
    Row(
        "null == true",
        "(And Nothing (Evaluate (Binary(Equal) Null(0) Bool { value: true, word: 2 })))",
    ),
    Row(
        "[, a,, b, ]",
        "(And Nothing (Evaluate (Array(0) (And (And (And (And Nothing Hole) Name(2)) Hole) Name(5)))))",
    ),
    Row(
        "[a, b]",
        "(And Nothing (Evaluate (Array(0) (And (And Nothing Name(1)) Name(3)))))",
    ),
    Row(
        "({get a() {}, set b(c) {}, d() {}, e, f: g, 'h': i, [j]: k})",
        "(And Nothing (Evaluate (Parenthesis(0) (Object(1) (And (And (And (And (And (And (And Nothing (Getter(2) Key(3) Nothing)) (Setter { first: 9, parameter: 12 } Key(10) Nothing)) (Method Key(17) Nothing Nothing)) Shorthand(23)) (Property Key(25) Name(27))) (Property Key(29) Name(31))) (Property (Computed(33) Name(34)) Name(37)))))))",
    ),
    Row(
        "(function f(a, b,) {})",
        "(And Nothing (Evaluate (Parenthesis(0) (NamedFunction { first: 1, name: 2 } (And (And Nothing Binding(4)) Binding(6)) Nothing))))",
    ),
    Row(
        "(function () { this })",
        "(And Nothing (Evaluate (Parenthesis(0) (Function(1) Nothing (And Nothing (Evaluate This(5)))))))",
    ),
    Row(
        "{ a; { } }",
        "(And Nothing (Block(0) (And (And Nothing (Evaluate Name(1))) (Block(3) Nothing))))",
    ),
    Row(
        "if (a) if (b) c; else d",
        "(And Nothing (If(0) Name(2) (IfElse(4) Name(6) (Evaluate Name(8)) (Evaluate Name(11)))))",
    ),
    Row(
        "if (a) ; else while (b) continue",
        "(And Nothing (IfElse(0) Name(2) Empty(4) (While(6) Name(8) Continue(10))))",
    ),
    Row(
        "while (a) break",
        "(And Nothing (While(0) Name(2) Break(4)))",
    ),
    Row(
        "for (let a = 0; a < 9; a++) ;",
        "(And Nothing (For(0) (Lexical { constant: false, first: 2 } (And Nothing (Binding(3) Number(5)))) (Binary(Less) Name(7) Number(9)) (Update { increment: true, prefix: false, token: 12 } Name(11)) Empty(14)))",
    ),
    Row(
        "for (;;) a",
        "(And Nothing (For(0) Nothing Nothing Nothing (Evaluate Name(5))))",
    ),
    Row(
        "return\na",
        "(And (And Nothing Return(0)) (Evaluate Name(1)))",
    ),
    Row("return a", "(And Nothing (Return(0) Name(1)))"),
    Row(
        "throw a.b;",
        "(And Nothing (Throw(0) (Member { dot: 2, word: 3 } Name(1))))",
    ),
    Row(
        "try { a } catch (b) { c } finally { d }",
        "(And Nothing (Try(0) (Block(1) (And Nothing (Evaluate Name(2)))) (CatchName(6) (Block(8) (And Nothing (Evaluate Name(9))))) (Block(12) (And Nothing (Evaluate Name(13))))))",
    ),
    Row(
        "try {} catch {}",
        "(And Nothing (Try(0) (Block(1) Nothing) (Catch (Block(4) Nothing)) Nothing))",
    ),
    Row(
        "try {} finally {}",
        "(And Nothing (Try(0) (Block(1) Nothing) Nothing (Block(4) Nothing)))",
    ),
    Row(
        "const a = 1, b = 2",
        "(And Nothing (Lexical { constant: true, first: 0 } (And (And Nothing (Binding(1) Number(3))) (Binding(5) Number(7)))))",
    ),
    Row(
        "let a",
        "(And Nothing (Lexical { constant: false, first: 0 } (And Nothing Binding(1))))",
    ),
    Row(
        "let a = 1\nlet b = 2\nprint(a\n+ b)\nfunction f(){ return\n7; } print(f())",
        "(And (And (And (And (And Nothing (Lexical { constant: false, first: 0 } (And Nothing (Binding(1) Number(3))))) (Lexical { constant: false, first: 4 } (And Nothing (Binding(5) Number(7))))) (Evaluate (Call Name(8) (And Nothing (Binary(Add) Name(10) Name(12)))))) (DeclaredFunction { first: 14, name: 15 } Nothing (And (And Nothing Return(19)) (Evaluate Number(20))))) (Evaluate (Call Name(23) (And Nothing (Call Name(25) Nothing)))))",
    ),
];

/// The printed form of a part, where it is one of those that stand before.
fn part(texts: &[String], n: u32) -> &str {
    match texts.get(n as usize) {
        Some(text) => text.as_str(),
        None => "?",
    }
}

fn node_text(alloc: Global, node: ParseNode, texts: &[String]) -> Result<String, Fail> {
    Ok(match node {
        ParseNode::Atom(label) => format!(in alloc; "{label:?}")?,
        ParseNode::Wrap(label, x) => {
            let x = part(texts, x);
            format!(in alloc; "({label:?} {x})")?
        }
        ParseNode::Pair(label, x, y) => {
            let x = part(texts, x);
            let y = part(texts, y);
            format!(in alloc; "({label:?} {x} {y})")?
        }
        ParseNode::Triple(label, x, y, z) => {
            let x = part(texts, x);
            let y = part(texts, y);
            let z = part(texts, z);
            format!(in alloc; "({label:?} {x} {y} {z})")?
        }
        ParseNode::Quad(label, x, y, z, w) => {
            let x = part(texts, x);
            let y = part(texts, y);
            let z = part(texts, z);
            let w = part(texts, w);
            format!(in alloc; "({label:?} {x} {y} {z} {w})")?
        }
    })
}

/// The printed form of the root.
fn printed(alloc: Global, script: &Script) -> Result<String, Fail> {
    let mut texts = Vec::new(alloc);
    for place in 0..script.nodes() {
        let Ok(n) = u32::try_from(place) else {
            break;
        };
        let text = node_text(alloc, script.node(n), &texts)?;
        texts.push(text)?;
    }
    Ok(format!(in alloc; "{}", part(&texts, script.root()))?)
}

#[test]
fn trees_of_the_grammar(rt: HostRuntime) -> Result<(), Fail> {
    for Row(source, wanted) in TREES {
        match parsed(rt.alloc(), source.as_bytes()) {
            Ok(script) => {
                let text = printed(rt.alloc(), &script)?;
                assert_eq!(rt; text.as_str(), *wanted, "{source:?}");
            }
            Err(stop) => panic!(rt; "{source:?}: {stop:?}"),
        }
    }
    Ok(())
}
