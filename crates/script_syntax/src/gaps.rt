//! White space, line terminators and comments between tokens (ECMA-262, 12.2 to 12.5).

ghost use Rattle.std.specs.Prelude.{◌≡◌, ◌<◌, ◌≤◌, ◌||◌, ℕ, length, IfSome, MatchResult};
ghost use Rattle.property_keys.specs.Blanks.{is_white_space, is_line_terminator};
ghost use Rattle.es_source.specs.Characters.{begins};
ghost use Rattle.es_source.specs.Gaps.{to_line_end, to_comment_end, separator_length, gap_of};
ghost use Rattle.es_source.specs.Reading.{hashbang_length};

use crate::characters::{is_line_terminator, is_white_space};

/// How many characters stand before the next line terminator, or before the end.
fn to_line_end(rest: &[char]) -> usize
    ensures value { result ≡ to_line_end rest.now }
    ensures bound { result ≤ length rest.now }
{
    rest.iter().take_while(|c| !is_line_terminator(**c)).count()
}

/// How many characters stand up to the first `*/` and in it.
fn to_comment_end(rest: &[char]) -> Option<usize>
    ensures value { result ≡ to_comment_end rest.now }
    ensures bound { IfSome result (λ n. n ≤ length rest.now) }
{
    for i in 0..rest.len() {
        if rest.split_at(i).1.starts_with(&['*', '/']) {
            return Some(i + 2);
        }
    }
    None
}

/// Whether white space or a line terminator stands at the front.
fn begins_with_blank(rest: &[char]) -> bool
    ensures { result ≡ begins (λ c. is_white_space c || is_line_terminator c) rest.now }
{
    match rest.first() {
        Some(first) => is_white_space(*first) || is_line_terminator(*first),
        None => false,
    }
}

/// How many characters the white space, the line terminator or the comment at the front takes, 0 where none stands there; `None` where a comment
/// has no end.
fn separator_length(rest: &[char]) -> Option<usize>
    ensures value { result ≡ separator_length rest.now }
    ensures bound { IfSome result (λ n. n ≤ length rest.now) }
{
    // Blanks come first, since there are many, and none of them begins a comment.
    if begins_with_blank(rest) {
        return Some(1);
    }
    if rest.starts_with(&['/', '/']) {
        return Some(to_line_end(rest));
    }
    if rest.starts_with(&['/', '*']) {
        return match to_comment_end(rest.split_at(2).1) {
            Some(length) => Some(2 + length),
            None => None,
        };
    }
    Some(0)
}

/// How many characters stand before the next token or the end; the error is how many stand before a comment that has no end.
pub fn gap_of(rest: &[char]) -> Result<usize, usize>
    ensures value { result ≡ gap_of rest.now }
    ensures bound { MatchResult result (λ gap. gap ≤ length rest.now) (λ passed. passed < length rest.now) }
{
    let mut passed = 0;
    'separators: while passed < rest.len() {
        match separator_length(rest.split_at(passed).1) {
            None => return Err(passed),
            Some(0) => break,
            Some(length) => passed += length,
        }
    }
    Ok(passed)
}

/// How many characters of a source `#!` and the rest of its line take.
pub fn hashbang_length(source: &[char]) -> usize
    ensures value { result ≡ hashbang_length source.now }
    ensures bound { result ≤ length source.now }
{
    if source.starts_with(&['#', '!']) {
        to_line_end(source)
    } else {
        0
    }
}
