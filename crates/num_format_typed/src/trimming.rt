//! Texts without characters of a class at their ends.
ghost use Rattle.std.specs.Prelude.{◌≡◌, ◌≤◌, ◌<◌, ◌++◌, [], ◌∷◌, IfSome, IsTrue, MatchOption, encode_utf8, length};
ghost use Rattle.std.specs.Str.{chars, encode_utf8_all};
ghost use Rattle.num_format_typed.specs.Classes.{is_of};
ghost use Rattle.num_format_typed.specs.Trimming.{EndsInDigit, without_end, without_ends, without_front};

use crate::classes::Class;
use num_format_rewriting::split_first;

/// Returns what stands before the last character of a text, and that character.
#[inline]
fn split_last(text: &str) -> Option<(&str, char)>
    ensures parts { MatchOption result (chars text.now ≡ [])
        (λ parts. (chars text.now ≡ chars parts.0.now ++ parts.1 ∷ [])
        × (text.now ≡ parts.0.now ++ encode_utf8 parts.1)) }
    ensures shorter { IfSome result (λ parts. length parts.0.now < length text.now) }
    ensures whole { encode_utf8_all (chars text.now) ≡ text.now }
{
    let mut chars = text.chars();
    let Some(last) = chars.next_back() else {
        return None;
    };
    Some((chars.as_str(), last))
}

/// Returns a text without the characters of a class at its start.
#[inline]
pub(crate) fn without_front(text: &str, class: Class) -> &str
    ensures value { result.now ≡ without_front (is_of class) text.now }
    ensures bound { length result.now ≤ length text.now }
{
    let mut left = text;
    while let Some((c, rest)) = split_first(left) {
        if !class.has(c) {
            return left;
        }
        left = rest;
    }
    left
}

/// Returns a text without the characters of a class at its end. Most end in a digit, which is of none.
#[inline(always)]
pub(crate) fn without_end(text: &str, class: Class) -> &str
    ensures value { result.now ≡ without_end (is_of class) text.now }
    ensures bound { length result.now ≤ length text.now }
{
    if ends_in_digit(text.as_bytes()) {
        return text;
    }
    trimmed_end(text, class)
}

/// Returns a text without the characters of a class at both ends.
pub(crate) fn without_ends(text: &str, class: Class) -> &str
    ensures value { result.now ≡ without_ends (is_of class) text.now }
    ensures bound { length result.now ≤ length text.now }
{
    without_end(without_front(text, class), class)
}

/// Returns whether a text ends in a digit.
#[inline(always)]
pub(crate) fn ends_in_digit(text: &[u8]) -> bool
    ensures { IsTrue result → EndsInDigit text.now }
{
    match text.split_last() {
        Some((last, _)) => last.is_ascii_digit(),
        None => false,
    }
}

/// Does the same for any text.
#[inline(always)]
fn trimmed_end(text: &str, class: Class) -> &str
    ensures value { result.now ≡ without_end (is_of class) text.now }
    ensures bound { length result.now ≤ length text.now }
{
    let mut left = text;
    while let Some((rest, c)) = split_last(left) {
        if !class.has(c) {
            return left;
        }
        left = rest;
    }
    left
}
