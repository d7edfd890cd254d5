//! What a kind of token is between or before operands.

ghost use Rattle.std.specs.Prelude.{◌≡◌};
ghost use Rattle.script_grammar.specs.Kinds.{is_word, is_key, prefix_of, level_of, infix_of, is_in};

use es_tree::{BinaryOperator, ShortOperator, UnaryOperator};
use script_grammar::{Kind, Level, Mark, Pair, Word};

/// Whether it is a word, also a reserved one.
pub(super) fn is_word(kind: Kind) -> bool
    ensures { result ≡ is_word kind }
{
    matches!(
        kind,
        Kind::Name(_)
            | Kind::Word(_)
            | Kind::Infix(BinaryOperator::In)
            | Kind::Infix(BinaryOperator::InstanceOf)
    )
}

/// Whether it is the name of a property: a word, a text or a number.
pub(super) fn is_key(kind: Kind) -> bool
    ensures { result ≡ is_key kind }
{
    match kind {
        Kind::Text | Kind::Number => true,
        _ => is_word(kind),
    }
}

/// The operator that it is before an operand.
pub(super) fn prefix_of(kind: Kind) -> Option<UnaryOperator>
    ensures { result ≡ prefix_of kind }
{
    match kind {
        Kind::Word(Word::Delete) => Some(UnaryOperator::Delete),
        Kind::Word(Word::Void) => Some(UnaryOperator::Void),
        Kind::Word(Word::Typeof) => Some(UnaryOperator::Typeof),
        Kind::Infix(BinaryOperator::Add) => Some(UnaryOperator::Plus),
        Kind::Infix(BinaryOperator::Subtract) => Some(UnaryOperator::Minus),
        Kind::Mark(Mark::Not) => Some(UnaryOperator::Not),
        _ => None,
    }
}

/// The level of an operator between two operands.
pub(super) fn level_of(operator: BinaryOperator) -> Level
    ensures { result ≡ level_of operator }
{
    match operator {
        BinaryOperator::Equal
        | BinaryOperator::NotEqual
        | BinaryOperator::StrictlyEqual
        | BinaryOperator::NotStrictlyEqual => Level::Equal,
        BinaryOperator::Less
        | BinaryOperator::Greater
        | BinaryOperator::AtMost
        | BinaryOperator::AtLeast
        | BinaryOperator::InstanceOf
        | BinaryOperator::In => Level::Relation,
        BinaryOperator::Add | BinaryOperator::Subtract => Level::Add,
        BinaryOperator::Multiply | BinaryOperator::Remainder => Level::Multiply,
    }
}

/// The label of what an operator that groups from the left makes of two operands.
pub(super) fn infix_of(kind: Kind) -> Option<(Level, Pair)>
    ensures { result ≡ infix_of kind }
{
    match kind {
        Kind::Short(ShortOperator::Or) => Some((Level::Or, Pair::Short(ShortOperator::Or))),
        Kind::Short(ShortOperator::And) => Some((Level::And, Pair::Short(ShortOperator::And))),
        Kind::Infix(operator) => Some((level_of(operator), Pair::Binary(operator))),
        _ => None,
    }
}

/// Whether it is the operator `in`.
pub(super) fn is_in(kind: Kind) -> bool
    ensures { result ≡ is_in kind }
{
    matches!(kind, Kind::Infix(BinaryOperator::In))
}
