//! Laws of the grammar. Each function here only names a law.

ghost use Rattle.std.specs.Prelude.{◌≡◌, ℕ, true, List, [], ◌∷◌, ◌++◌, Option, Some, None};
ghost use Rattle.es_source.specs.Reading.{Reading};
ghost use Rattle.es_source.specs.declared.faults.SourceFault.{SourceFault};
ghost use Rattle.es_source.specs.declared.token.Token.{Token};
ghost use Rattle.script_grammar.specs.declared.sign.Sign.{Sign};
ghost use Rattle.script_grammar.specs.Tree.{ParseTree, first_token};
ghost use Rattle.script_grammar.specs.Grammar.{Nonterminal, Read, read, Plain, Spells, Viable};
ghost use Rattle.script_grammar.specs.Firsts.{has_first, first_number};
ghost use Rattle.script_grammar.specs.Completed.{ParseAnswer, Completes, Derives, HasGrammarFault, ReadsAs};

/// One list of tokens has at most one script.
pub fn at_most_one_script()
    ensures { (ts : List Read) (s s' : ParseTree) → Plain ts s → Plain ts s' → s ≡ s' }
{}

/// A token has one nesting, whatever follows it.
pub fn one_nesting_each()
    ensures { (done : List Read) (x : Sign) (n m : ℕ) → Viable (done ++ (read x n ∷ [])) → Viable (done ++ (read x m ∷ [])) → n ≡ m }
{}

/// Tokens have at most one answer.
pub fn one_answer_each()
    ensures { (ts : List Token) (a b : ParseAnswer) → ReadsAs [] 0 ts a → ReadsAs [] 0 ts b → a ≡ b }
{}

/// A node begins with a token of the file, and its tree names that token.
pub fn first_token_of_each()
    ensures { (q : Nonterminal) (d : ℕ) (e : ParseTree) (ts rs : List Read) → Spells q d e ts rs → has_first q ≡ true
        → (i : ℕ) × (first_number ts ≡ Some i) × (first_token e ≡ Some i) }
{}

/// Tokens have an answer.
pub fn some_answer_each()
    ensures { (ts : List Token) → (a : ParseAnswer) × ReadsAs [] 0 ts a }
{}

/// The list with all semicolons put in has the script.
pub fn completed_list_has_script()
    ensures { (ts : List Token) (full : List Read) (x : ParseTree) → Completes ts full x → Plain full x }
{}

/// A reading has one first fault of the grammar, or none.
pub fn one_first_fault_each()
    ensures { (all : Reading) → (f : Option SourceFault) × HasGrammarFault all f × ((g : Option SourceFault) → HasGrammarFault all g → g ≡ f) }
{}

/// It has none exactly where its tokens derive a tree.
pub fn faultless_where_derived()
    ensures { (all : Reading)
        → (HasGrammarFault all None → (x : ParseTree) × Derives all.tokens x)
        × ((x : ParseTree) → Derives all.tokens x → HasGrammarFault all None) }
{}
