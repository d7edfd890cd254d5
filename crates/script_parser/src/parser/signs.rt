//! Tests of the token that is read next.

ghost use Rattle.std.specs.Prelude.{◌≡◌};
ghost use Rattle.script_grammar.specs.Grammar as grammar;
ghost use Rattle.script_grammar.specs.Machine as grammar_machine;

use super::operators::{is_in, is_key, level_of};
use es_tree::{AssignOperator, BinaryOperator, ShortOperator};
use script_grammar::{
    Bracket, Kind, Level, Listing, Loose, Mark, NameRole, Sign, Tail, Terminal, Word,
};

/// Whether it ends a statement or a declaration, or a declaration in the head of a `for`.
pub(super) fn is_end(head: bool, x: Sign) -> bool
    ensures { result ≡ grammar.is_end head x }
{
    match x {
        Sign::Token {
            kind: Kind::Mark(Mark::Semicolon),
            ..
        } => true,
        Sign::Token { .. } => false,
        Sign::Inserted => !head,
    }
}

fn level_rank(level: Level) -> u32
    ensures { result ≡ grammar_machine.level_rank level }
{
    match level {
        Level::Multiply => 3,
        Level::Add => 4,
        Level::Relation => 5,
        Level::Equal => 6,
        Level::And => 7,
        Level::Or => 8,
    }
}

/// The level of the tail that a token belongs to, and 13 where it belongs to none.
pub(super) fn reach(x: Sign) -> u32
    ensures { result ≡ grammar_machine.reach x }
{
    let Sign::Token {
        kind,
        after_break,
        ..
    } = x
    else {
        return 13;
    };
    match kind {
        Kind::Mark(Mark::Dot) | Kind::Bracket(Bracket::Open | Bracket::SquareOpen) => 1,
        Kind::Update(_) if !after_break => 2,
        Kind::Infix(operator) => level_rank(level_of(operator)),
        Kind::Short(ShortOperator::And) => 7,
        Kind::Short(ShortOperator::Or) => 8,
        Kind::Short(ShortOperator::Coalesce) => 9,
        Kind::Mark(Mark::Question) => 10,
        Kind::Assign(_) => 11,
        Kind::Mark(Mark::Comma) => 12,
        _ => 13,
    }
}

fn rank(tail: Tail) -> u32
    ensures { result ≡ grammar_machine.rank tail }
{
    match tail {
        Tail::Left => 1,
        Tail::Update => 2,
        Tail::Level(level, _) => level_rank(level),
        Tail::Short(_) => 9,
        Tail::Conditional(_) => 10,
        Tail::Assign(_) => 11,
        Tail::Expression(_) => 12,
    }
}

fn bars_in(tail: Tail) -> bool
    ensures { result ≡ grammar_machine.bars_in tail }
{
    match tail {
        Tail::Level(_, plain) => plain,
        _ => false,
    }
}

fn is_in_sign(x: Sign) -> bool
    ensures { result ≡ grammar_machine.is_in_sign x }
{
    match x {
        Sign::Token { kind, .. } => is_in(kind),
        Sign::Inserted => false,
    }
}

/// Whether the tail takes the token.
pub(super) fn takes(tail: Tail, x: Sign) -> bool
    ensures { result ≡ grammar_machine.takes tail x }
{
    reach(x) == rank(tail) && !(bars_in(tail) && is_in_sign(x))
}

/// Whether this is the token that must come.
pub(super) fn fits(terminal: Terminal, x: Sign) -> bool
    ensures { result ≡ grammar_machine.fits terminal x }
{
    if let Terminal::Semicolon(head) = terminal {
        return is_end(head, x);
    }
    let Sign::Token { kind, .. } = x else {
        return false;
    };
    matches!(
        (terminal, kind),
        (Terminal::Open, Kind::Bracket(Bracket::Open))
            | (Terminal::Close, Kind::Bracket(Bracket::Close))
            | (Terminal::BraceClose, Kind::Bracket(Bracket::BraceClose))
            | (Terminal::SquareClose, Kind::Bracket(Bracket::SquareClose))
            | (Terminal::Colon, Kind::Mark(Mark::Colon))
    )
}

/// The bracket that closes a list.
pub(super) fn closing(listing: Listing) -> Terminal
    ensures { result ≡ grammar_machine.closing listing }
{
    match listing {
        Listing::Arguments | Listing::Parameters => Terminal::Close,
        Listing::Properties => Terminal::BraceClose,
    }
}

pub(super) fn is_comma(x: Sign) -> bool
    ensures { result ≡ grammar_machine.is_comma x }
{
    matches!(
        x,
        Sign::Token {
            kind: Kind::Mark(Mark::Comma),
            ..
        }
    )
}

fn is_else(x: Sign) -> bool
    ensures { result ≡ grammar_machine.is_word_sign Word.Else x }
{
    matches!(
        x,
        Sign::Token {
            kind: Kind::Word(Word::Else),
            ..
        }
    )
}

fn is_finally(x: Sign) -> bool
    ensures { result ≡ grammar_machine.is_word_sign Word.Finally x }
{
    matches!(
        x,
        Sign::Token {
            kind: Kind::Word(Word::Finally),
            ..
        }
    )
}

fn is_equals(x: Sign) -> bool
    ensures { result ≡ grammar_machine.is_equals x }
{
    matches!(
        x,
        Sign::Token {
            kind: Kind::Assign(AssignOperator::Plain),
            ..
        }
    )
}

/// Whether no line break stands before the token.
pub(super) fn is_on_same_line(x: Sign) -> bool
    ensures { result ≡ grammar_machine.same_line x }
{
    match x {
        Sign::Token { after_break, .. } => !after_break,
        Sign::Inserted => true,
    }
}

fn begins_with_word(of_body: bool, word: Word) -> bool
    ensures { result ≡ grammar_machine.begins_word of_body word }
{
    match word {
        Word::Function => of_body,
        Word::Catch | Word::Else | Word::Finally | Word::Unused => false,
        _ => true,
    }
}

/// Whether it is the first token of some item of a body or, else, of a block.
fn begins_item(of_body: bool, x: Sign) -> bool
    ensures { result ≡ grammar_machine.begins of_body x }
{
    let Sign::Token { kind, .. } = x else {
        return false;
    };
    match kind {
        Kind::Word(word) => begins_with_word(of_body, word),
        Kind::Bracket(Bracket::BraceOpen | Bracket::Open | Bracket::SquareOpen)
        | Kind::Mark(Mark::Semicolon | Mark::Not)
        | Kind::Infix(BinaryOperator::Add | BinaryOperator::Subtract) => true,
        Kind::Name(_) | Kind::Number | Kind::Text | Kind::Update(_) => true,
        _ => false,
    }
}

/// Whether it is the `:` or the `(` behind the name of a property.
pub(super) fn ends_key(x: Sign) -> bool
    ensures { result ≡ grammar_machine.ends_key x }
{
    matches!(
        x,
        Sign::Token {
            kind: Kind::Mark(Mark::Colon) | Kind::Bracket(Bracket::Open),
            ..
        }
    )
}

fn is_key_sign(x: Sign) -> bool
    ensures { result ≡ grammar_machine.is_key_sign x }
{
    match x {
        Sign::Token {
            kind: Kind::Bracket(Bracket::SquareOpen),
            ..
        } => true,
        Sign::Token { kind, .. } => is_key(kind),
        Sign::Inserted => false,
    }
}

/// Whether behind a name of this role it is the name of an accessor.
fn begins_accessor(role: NameRole, x: Sign) -> bool
    ensures { result ≡ grammar_machine.begins_accessor role x }
{
    match role {
        NameRole::Plain => false,
        NameRole::Get | NameRole::Set => is_key_sign(x),
    }
}

/// Whether what may go on takes the token.
pub(super) fn keeps(loose: Loose, x: Sign) -> bool
    ensures { result ≡ grammar_machine.keeps loose x }
{
    match loose {
        Loose::Items(of_body) => begins_item(of_body, x),
        Loose::Else(_) => is_else(x),
        Loose::Finally(_) => is_finally(x),
        Loose::Callee(_) | Loose::Target => reach(x) == 1,
        Loose::Binding { .. } => is_equals(x),
        Loose::Property { role, .. } => ends_key(x) || begins_accessor(role, x),
    }
}
