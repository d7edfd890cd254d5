//! What each token is to the grammar (ECMA-262, 12.7 and 12.8).

ghost use Rattle.std.specs.Prelude.{◌≡◌, bytes_eq, map};
ghost use Rattle.script_grammar.specs.Kinds.{kind_of, kind_in, kinds_of_words, punctuators};

use es_source::TokenKind;
use es_tree::{AssignOperator, BinaryOperator, ShortOperator};
use property_keys::Units;
use script_grammar::{Bracket, Kind, Mark, NameRole, Word};

/// The words with a kind of their own.
const WORDS: [(&[u8], Kind); 48] = [
    (b"await", Kind::Word(Word::Unused)),
    (b"break", Kind::Word(Word::Break)),
    (b"case", Kind::Word(Word::Unused)),
    (b"catch", Kind::Word(Word::Catch)),
    (b"class", Kind::Word(Word::Unused)),
    (b"const", Kind::Word(Word::Const)),
    (b"continue", Kind::Word(Word::Continue)),
    (b"debugger", Kind::Word(Word::Unused)),
    (b"default", Kind::Word(Word::Unused)),
    (b"delete", Kind::Word(Word::Delete)),
    (b"do", Kind::Word(Word::Unused)),
    (b"else", Kind::Word(Word::Else)),
    (b"enum", Kind::Word(Word::Unused)),
    (b"export", Kind::Word(Word::Unused)),
    (b"extends", Kind::Word(Word::Unused)),
    (b"false", Kind::Word(Word::False)),
    (b"finally", Kind::Word(Word::Finally)),
    (b"for", Kind::Word(Word::For)),
    (b"function", Kind::Word(Word::Function)),
    (b"if", Kind::Word(Word::If)),
    (b"implements", Kind::Word(Word::Unused)),
    (b"import", Kind::Word(Word::Unused)),
    (b"in", Kind::Infix(BinaryOperator::In)),
    (b"instanceof", Kind::Infix(BinaryOperator::InstanceOf)),
    (b"interface", Kind::Word(Word::Unused)),
    (b"let", Kind::Word(Word::Let)),
    (b"new", Kind::Word(Word::New)),
    (b"null", Kind::Word(Word::Null)),
    (b"package", Kind::Word(Word::Unused)),
    (b"private", Kind::Word(Word::Unused)),
    (b"protected", Kind::Word(Word::Unused)),
    (b"public", Kind::Word(Word::Unused)),
    (b"return", Kind::Word(Word::Return)),
    (b"static", Kind::Word(Word::Unused)),
    (b"super", Kind::Word(Word::Unused)),
    (b"switch", Kind::Word(Word::Unused)),
    (b"this", Kind::Word(Word::This)),
    (b"throw", Kind::Word(Word::Throw)),
    (b"true", Kind::Word(Word::True)),
    (b"try", Kind::Word(Word::Try)),
    (b"typeof", Kind::Word(Word::Typeof)),
    (b"var", Kind::Word(Word::Unused)),
    (b"void", Kind::Word(Word::Void)),
    (b"while", Kind::Word(Word::While)),
    (b"with", Kind::Word(Word::Unused)),
    (b"yield", Kind::Word(Word::Unused)),
    (b"get", Kind::Name(NameRole::Get)),
    (b"set", Kind::Name(NameRole::Set)),
];

/// The punctuators.
const PUNCTUATORS: [(&[u8], Kind); 36] = [
    (b"{", Kind::Bracket(Bracket::BraceOpen)),
    (b"}", Kind::Bracket(Bracket::BraceClose)),
    (b"(", Kind::Bracket(Bracket::Open)),
    (b")", Kind::Bracket(Bracket::Close)),
    (b"[", Kind::Bracket(Bracket::SquareOpen)),
    (b"]", Kind::Bracket(Bracket::SquareClose)),
    (b".", Kind::Mark(Mark::Dot)),
    (b"...", Kind::Mark(Mark::Spread)),
    (b";", Kind::Mark(Mark::Semicolon)),
    (b",", Kind::Mark(Mark::Comma)),
    (b"<", Kind::Infix(BinaryOperator::Less)),
    (b">", Kind::Infix(BinaryOperator::Greater)),
    (b"<=", Kind::Infix(BinaryOperator::AtMost)),
    (b">=", Kind::Infix(BinaryOperator::AtLeast)),
    (b"==", Kind::Infix(BinaryOperator::Equal)),
    (b"!=", Kind::Infix(BinaryOperator::NotEqual)),
    (b"===", Kind::Infix(BinaryOperator::StrictlyEqual)),
    (b"!==", Kind::Infix(BinaryOperator::NotStrictlyEqual)),
    (b"+", Kind::Infix(BinaryOperator::Add)),
    (b"-", Kind::Infix(BinaryOperator::Subtract)),
    (b"*", Kind::Infix(BinaryOperator::Multiply)),
    (b"%", Kind::Infix(BinaryOperator::Remainder)),
    (b"++", Kind::Update(true)),
    (b"--", Kind::Update(false)),
    (b"!", Kind::Mark(Mark::Not)),
    (b"&&", Kind::Short(ShortOperator::And)),
    (b"||", Kind::Short(ShortOperator::Or)),
    (b"??", Kind::Short(ShortOperator::Coalesce)),
    (b"?", Kind::Mark(Mark::Question)),
    (b":", Kind::Mark(Mark::Colon)),
    (b"=", Kind::Assign(AssignOperator::Plain)),
    (b"+=", Kind::Assign(AssignOperator::Add)),
    (b"-=", Kind::Assign(AssignOperator::Subtract)),
    (b"*=", Kind::Assign(AssignOperator::Multiply)),
    (b"%=", Kind::Assign(AssignOperator::Remainder)),
    (b"=>", Kind::Mark(Mark::Arrow)),
];

/// Whether these are the code units of an ASCII text.
fn spells(text: &[u8], units: &Units) -> bool
    ensures { result ≡ bytes_eq text.now units.now }
{
    if text.len() != units.len() {
        return false;
    }
    for i in 0..text.len() {
        if u16::from(text[i]) != units.unit(i) {
            return false;
        }
    }
    true
}

/// The kind in the row of these code units.
fn kind_in(table: &[(&'static [u8], Kind)], units: &Units) -> Option<Kind>
    ensures { result ≡ kind_in (map (λ row. (row.0.now, row.1)) table.now) units.now }
{
    for (text, kind) in table {
        if spells(text, units) {
            return Some(*kind);
        }
    }
    None
}

fn word_kind(units: &Units) -> Option<Kind>
    ensures { result ≡ kind_in kinds_of_words units.now }
{
    kind_in(WORDS.as_slice(), units)
}

fn punctuator_kind(units: &Units) -> Option<Kind>
    ensures { result ≡ kind_in punctuators units.now }
{
    kind_in(PUNCTUATORS.as_slice(), units)
}

/// What a token is to the grammar: a reserved word, a name, a literal or a punctuator.
pub fn kind_of(token: &TokenKind) -> Kind
    ensures { result ≡ kind_of token.now }
{
    match token {
        TokenKind::Name(units) => word_kind(units).unwrap_or(Kind::Name(NameRole::Plain)),
        TokenKind::Number(_) => Kind::Number,
        TokenKind::Text { .. } => Kind::Text,
        TokenKind::Punctuator(units) => punctuator_kind(units).unwrap_or(Kind::Unknown),
    }
}
