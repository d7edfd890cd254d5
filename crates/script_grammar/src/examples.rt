//! Small sources, from their characters to the tree that they derive or to the place of their first fault. Each function here only names laws. The
//! numbers in a tree are those of tokens, from 0.

ghost use Rattle.std.specs.Prelude.{List, [], ◌∷◌, codes, true, false};
ghost use Rattle.es_tree.specs.declared.expressions.AssignOperator.TheVariants as assign;
ghost use Rattle.es_tree.specs.declared.expressions.BinaryOperator.TheVariants as binary;
ghost use Rattle.es_tree.specs.declared.expressions.ShortOperator.TheVariants as short;
ghost use Rattle.es_tree.specs.declared.expressions.UnaryOperator.TheVariants as unary;
ghost use Rattle.es_source.specs.declared.faults.FaultCode.TheVariants as fault;
ghost use Rattle.script_grammar.specs.declared.labels.Atom.TheVariants as atom;
ghost use Rattle.script_grammar.specs.declared.labels.Wrap.TheVariants as wrap;
ghost use Rattle.script_grammar.specs.declared.labels.Pair.TheVariants as pair;
ghost use Rattle.script_grammar.specs.declared.labels.Triple.TheVariants as triple;
ghost use Rattle.script_grammar.specs.declared.labels.Quad.TheVariants as quad;
ghost use Rattle.script_grammar.specs.Tree.{ParseTree as tree};
ghost use Rattle.script_grammar.specs.Grammar.{nothing};
ghost use Rattle.script_grammar.specs.Samples.{Accepts, FaultAt, all, block, call, declare, evaluate, inside, name, number, parenthesis, parenthesised, sum};

/// A `;` is put in before a token behind a line break, before `}` and at the end, where it is needed and ends a statement.
pub fn semicolons_put_in()
    ensures lines { Accepts (codes "let a = 1\nlet b = 2") (all (declare 0 1 (number 3) ∷ declare 4 5 (number 7) ∷ [])) }
    ensures before_a_brace { Accepts (codes "{ a }") (all (block 0 (evaluate (name 1) ∷ []) ∷ [])) }
    ensures before_an_update { Accepts (codes "a\n++b") (all (evaluate (name 0) ∷ evaluate (tree.Wrap (wrap.Update true true 1) (name 2)) ∷ [])) }
    ensures own_semicolon_behind_a_break { Accepts (codes "break\n;") (all (tree.Atom (atom.Break 0) ∷ [])) }
    ensures five_lines { Accepts (codes "let a = 1\nlet b = 2\nprint(a\n+ b)\nfunction f(){ return\n7; } print(f())") (all (
        declare 0 1 (number 3) ∷ declare 4 5 (number 7)
        ∷ evaluate (call (name 8) (sum (name 10) (name 12) ∷ []))
        ∷ tree.Pair (pair.DeclaredFunction 14 15) nothing (all (tree.Atom (atom.Return 19) ∷ evaluate (number 20) ∷ []))
        ∷ evaluate (call (name 23) (call (name 25) [] ∷ [])) ∷ []
        )) }
{}

/// None is put in on the same line, in the head of a `for`, as an empty statement, behind `throw`, or where it helps nothing.
pub fn semicolons_left_out()
    ensures on_the_same_line { FaultAt (codes "let a = 1\nlet b = 2 let c") fault.Unexpected 2 11 }
    ensures in_the_head_of_a_for { FaultAt (codes "for (;\n) ;") fault.Unexpected 2 1 }
    ensures as_an_empty_statement { FaultAt (codes "if (a)\n") fault.Unexpected 2 1 }
    ensures behind_throw { FaultAt (codes "throw\n1") fault.Unexpected 2 1 }
    ensures behind_an_operator { FaultAt (codes "let a = 1;\nlet b = a +;") fault.Unexpected 2 12 }
    ensures behind_an_update { FaultAt (codes "a\n++") fault.Unexpected 2 3 }
{}

/// How operators group.
pub fn operators_group()
    ensures from_the_left { Accepts (codes "a - b - c") (all (evaluate (tree.Pair (pair.Binary binary.Subtract) (tree.Pair (pair.Binary binary.Subtract) (name 0) (name 2)) (name 4)) ∷ [])) }
    ensures by_their_levels { Accepts (codes "a + b * c < d") (all (
        evaluate (tree.Pair (pair.Binary binary.Less) (sum (name 0) (tree.Pair (pair.Binary binary.Multiply) (name 2) (name 4))) (name 6)) ∷ []
        )) }
    ensures assignments_from_the_right { Accepts (codes "a = b = c") (all (evaluate (tree.Pair (pair.Assign assign.Plain) (name 0) (tree.Pair (pair.Assign assign.Plain) (name 2) (name 4))) ∷ [])) }
    ensures with_parentheses { Accepts (codes "(a || b) ?? c") (all (
        evaluate (tree.Pair (pair.Short short.Coalesce) (parenthesis 0 (tree.Pair (pair.Short short.Or) (name 1) (name 3))) (name 6)) ∷ []
        )) }
    ensures new_with_its_callee { Accepts (codes "new a.b().c") (all (
        evaluate (tree.Wrap (wrap.Member 6 7) (tree.Pair (pair.New 0) (tree.Wrap (wrap.Member 2 3) (name 1)) nothing)) ∷ []
        )) }
{}

/// Other expressions.
pub fn expressions_read()
    ensures conditional_in_a_list { Accepts (codes "a ? b : c, d") (all (evaluate (tree.Pair pair.Comma (tree.Triple triple.Conditional (name 0) (name 2) (name 4)) (name 6)) ∷ [])) }
    ensures prefix_operators { Accepts (codes "typeof -a[b](c)") (all (
        evaluate (tree.Wrap (wrap.Unary unary.Typeof 0) (tree.Wrap (wrap.Unary unary.Minus 1) (call (tree.Pair (pair.Index 3) (name 2) (name 4)) (name 7 ∷ [])))) ∷ []
        )) }
    ensures updates { Accepts (codes "--a.in; a++") (all (
        evaluate (tree.Wrap (wrap.Update false true 0) (tree.Wrap (wrap.Member 2 3) (name 1)))
        ∷ evaluate (tree.Wrap (wrap.Update true false 6) (name 5)) ∷ []
        )) }
    ensures words { Accepts (codes "this; null; true; false; 'x'") (all (
        evaluate (tree.Atom (atom.This 0)) ∷ evaluate (tree.Atom (atom.Null 2)) ∷ evaluate (tree.Atom (atom.Bool true 4))
        ∷ evaluate (tree.Atom (atom.Bool false 6)) ∷ evaluate (tree.Atom (atom.Text 8)) ∷ []
        )) }
    ensures function_with_a_last_comma { Accepts (codes "(function f(a, b,) { })") (all (
        evaluate (parenthesis 0 (tree.Pair (pair.NamedFunction 1 2) (all (tree.Atom (atom.Binding 4) ∷ tree.Atom (atom.Binding 6) ∷ [])) nothing)) ∷ []
        )) }
{}

/// Operators and operands that do not go together.
pub fn operators_refused()
    ensures or_behind_coalesce { FaultAt (codes "a ?? b || c") fault.Unexpected 1 8 }
    ensures coalesce_behind_and { FaultAt (codes "a && b ?? c") fault.Unexpected 1 8 }
    ensures target_in_parentheses { FaultAt (codes "(a) = 1") fault.Unexpected 1 5 }
    ensures update_of_a_call { FaultAt (codes "++a()") fault.Unexpected 1 6 }
    ensures in_within_the_head_of_a_for { FaultAt (codes "for (a in b;;) ;") fault.Unexpected 1 8 }
{}

/// Statements, with what belongs to them.
pub fn statements_read()
    ensures else_of_the_nearest_if { Accepts (codes "if (a) if (b) c; else d;") (all (
        tree.Pair (pair.If 0) (name 2) (tree.Triple (triple.IfElse 4) (name 6) (evaluate (name 8)) (evaluate (name 11))) ∷ []
        )) }
    ensures in_within_brackets { Accepts (codes "for (let i = (a in b);;) break") (all (
        tree.Quad (quad.For 0) (declare 2 3 (parenthesis 5 (tree.Pair (pair.Binary binary.In) (name 6) (name 8)))) nothing nothing (tree.Atom (atom.Break 13)) ∷ []
        )) }
    ensures for_with_expressions { Accepts (codes "for (a; b; c) continue; ;") (all (
        tree.Quad (quad.For 0) (name 2) (name 4) (name 6) (tree.Atom (atom.Continue 8)) ∷ tree.Atom (atom.Empty 10) ∷ []
        )) }
    ensures while_with_a_throw { Accepts (codes "while (a) throw b;") (all (tree.Pair (pair.While 0) (name 2) (tree.Wrap (wrap.Throw 4) (name 5)) ∷ [])) }
    ensures constants { Accepts (codes "const a = 1, b = 2;") (all (
        tree.Wrap (wrap.Lexical true 0) (all (tree.Wrap (wrap.Binding 1) (number 3) ∷ tree.Wrap (wrap.Binding 5) (number 7) ∷ [])) ∷ []
        )) }
    ensures names_without_values { Accepts (codes "let a, b") (all (tree.Wrap (wrap.Lexical false 0) (all (tree.Atom (atom.Binding 1) ∷ tree.Atom (atom.Binding 3) ∷ [])) ∷ [])) }
    ensures try_without_a_catch { Accepts (codes "try { } finally { }") (all (tree.Triple (triple.Try 0) (block 1 []) nothing (block 4 []) ∷ [])) }
    ensures try_with_all { Accepts (codes "try { } catch (e) { } finally { }") (all (
        tree.Triple (triple.Try 0) (block 1 []) (tree.Wrap (wrap.CatchName 5) (block 7 [])) (block 10 []) ∷ []
        )) }
{}

/// What no statement or declaration has.
pub fn statements_refused()
    ensures second_else { FaultAt (codes "if (a) b; else c; else d;") fault.Unexpected 1 19 }
    ensures try_alone { FaultAt (codes "try { } a") fault.Unexpected 1 9 }
    ensures constant_without_a_value { FaultAt (codes "const a;") fault.Unexpected 1 8 }
    ensures function_as_a_statement { FaultAt (codes "if (a) function f() { }") fault.Unexpected 1 8 }
    ensures reserved_word_as_a_name { FaultAt (codes "let class") fault.Unexpected 1 5 }
{}

/// Literals.
pub fn literals_read()
    ensures array_with_a_hole { Accepts (codes "[a, , b]") (all (evaluate (tree.Wrap (wrap.Array 0) (all (name 1 ∷ tree.Atom atom.Hole ∷ name 4 ∷ []))) ∷ [])) }
    ensures object_with_a_setter { Accepts (codes "({set a(b) { }, [c]: 1})") (all (
        evaluate (parenthesis 0 (tree.Wrap (wrap.Object 1) (all (
        tree.Pair (pair.Setter 2 5) (tree.Atom (atom.Key 3)) nothing
        ∷ tree.Pair pair.Property (tree.Wrap (wrap.Computed 10) (name 11)) (number 14) ∷ []
        )))) ∷ []
        )) }
    ensures get_and_set_as_names { Accepts (codes "({get, set: 1, get() { }})") (all (
        evaluate (parenthesis 0 (tree.Wrap (wrap.Object 1) (all (
        tree.Atom (atom.Shorthand 2) ∷ tree.Pair pair.Property (tree.Atom (atom.Key 4)) (number 6)
        ∷ tree.Triple triple.Method (tree.Atom (atom.Key 8)) nothing nothing ∷ []
        )))) ∷ []
        )) }
    ensures object_with_each_property { Accepts (codes "({a, get b() { return 1 }, 'c': 2, d() { }})") (all (
        evaluate (parenthesis 0 (tree.Wrap (wrap.Object 1) (all (
        tree.Atom (atom.Shorthand 2)
        ∷ tree.Pair (pair.Getter 4) (tree.Atom (atom.Key 5)) (all (tree.Wrap (wrap.Return 9) (number 10) ∷ []))
        ∷ tree.Pair pair.Property (tree.Atom (atom.Key 13)) (number 15)
        ∷ tree.Triple triple.Method (tree.Atom (atom.Key 17)) nothing nothing ∷ []
        )))) ∷ []
        )) }
{}

/// A statement and each Assign in it count for nesting: behind 198 parentheses a token has the nesting 200.
pub fn nesting_limited()
    ensures within { Accepts (parenthesised 198) (all (evaluate (inside 198 0) ∷ [])) }
    ensures beyond { FaultAt (parenthesised 199) fault.TooDeep 1 200 }
{}
