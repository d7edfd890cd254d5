//! Which characters the tokens are made of (ECMA-262, 12.2, 12.3, 12.7).

ghost use Rattle.std.specs.Prelude.{◌≡◌};
ghost use Rattle.property_keys.specs.Blanks.{is_white_space, is_line_terminator};
ghost use Rattle.es_source.specs.Characters.{starts_name, continues_name};
ghost use Rattle.es_source.specs.Texts.{is_quote};

use unicode_ident::{is_xid_continue, is_xid_start};

/// White space (12.2).
pub fn is_white_space(character: char) -> bool
    ensures { result ≡ is_white_space character }
{
    matches!(
        character,
        '\t' | '\u{B}'
            | '\u{C}'
            | '\u{FEFF}'
            | ' '
            | '\u{A0}'
            | '\u{1680}'
            | '\u{2000}'..='\u{200A}' | '\u{202F}' | '\u{205F}' | '\u{3000}'
    )
}

/// A line terminator (12.3).
pub fn is_line_terminator(character: char) -> bool
    ensures { result ≡ is_line_terminator character }
{
    matches!(character, '\n' | '\r' | '\u{2028}' | '\u{2029}')
}

/// Whether a name may begin with the character.
pub fn may_start_name(character: char) -> bool
    ensures { result ≡ starts_name character }
{
    character == '$' || character == '_' || is_xid_start(character)
}

/// Whether a name may go on with the character.
pub fn may_continue_name(character: char) -> bool
    ensures { result ≡ continues_name character }
{
    matches!(character, '$' | '_' | '\u{200C}' | '\u{200D}') || is_xid_continue(character)
}

/// Whether the character opens and closes a text.
pub fn is_quote(character: char) -> bool
    ensures { result ≡ is_quote character }
{
    character == '\'' || character == '"'
}
