//! The text of a field, which is converted, and what is around it, which is copied.
ghost use Rattle.std.specs.Prelude.{◌≡◌, ◌≤◌, length};
ghost use Rattle.regroup_core.specs.Places.{blanks_after, blanks_before, content_of, is_in_quotes, len_before_blanks};
ghost use Rattle.regroup_core.specs.Places.{tail_of, trimmed};

use crate::QUOTE;
use crate::dialect::Separation;

/// A field by its parts, which are all of its bytes in turn but for the two quotes that may be around those in the
/// middle.
#[derive(Clone, Copy, Debug)]
pub struct Field<'a> {
    /// Whether it is in quotes.
    pub is_in_quotes: bool,
    /// The ASCII whitespace before the text, in the quotes if there are such.
    pub before: &'a [u8],
    /// The text, without ASCII whitespace at its ends.
    pub text: &'a [u8],
    /// The ASCII whitespace after the text, in the quotes if there are such.
    pub after: &'a [u8],
    /// The ASCII whitespace after the quotes, if there are such.
    pub tail: &'a [u8],
}

impl<'a> Field<'a> {
    /// Returns the parts of a field.
    ///
    /// ```text
    /// Field::of(Separation::Quoted(b','), b"\"1,000 \" ").text    // b"1,000"
    /// ```
    #[inline(always)]
    pub fn of(separation: Separation, field: &'a [u8]) -> Field<'a>
        ensures in_quotes { result.is_in_quotes ≡ is_in_quotes separation field.now }
        ensures before { result.before.now ≡ blanks_before (content_of separation field.now) }
        ensures text { result.text.now ≡ trimmed (content_of separation field.now) }
        ensures after { result.after.now ≡ blanks_after (content_of separation field.now) }
        ensures tail { result.tail.now ≡ tail_of separation field.now }
    {
        let (is_in_quotes, content, tail) = unquote(separation, field);
        let rest = content.trim_ascii_start();
        let text = rest.trim_ascii_end();
        Field {
            is_in_quotes,
            before: &content[..content.len() - rest.len()],
            text,
            after: &rest[text.len()..],
            tail,
        }
    }
}

/// Returns whether a field is in quotes, what is in them, or the field if it is in none, and what is after them.
#[inline(always)]
fn unquote(separation: Separation, field: &[u8]) -> (bool, &[u8], &[u8])
    ensures in_quotes { result.0 ≡ is_in_quotes separation field.now }
    ensures content { result.1.now ≡ content_of separation field.now }
    ensures tail { result.2.now ≡ tail_of separation field.now }
{
    let len = len_before_blanks(field);
    if separation.quotes().is_some() && len >= 2 && field[0] == QUOTE && field[len - 1] == QUOTE {
        (true, &field[1..len - 1], &field[len..])
    } else {
        (false, field, &[])
    }
}

/// Returns how many bytes are before the ASCII whitespace at the end of a text.
#[inline(always)]
fn len_before_blanks(text: &[u8]) -> usize
    ensures value { result ≡ len_before_blanks text.now }
    ensures within { result ≤ length text.now }
{
    text.trim_ascii_end().len()
}
