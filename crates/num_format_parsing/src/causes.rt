//! Why a text is canonical for no number: the second pass over it, which finds the place of a fault.
ghost use Rattle.std.specs.Prelude.{◌≡◌, ℤ, ◌≤◌, IsTrue, drop, length, IsUtf8};
ghost use Rattle.num_format_text.specs.Format.{FormatData};
ghost use Rattle.num_format_int.specs.Grouped.{printed_separator};
ghost use Rattle.num_format_int.specs.Kind.{Kind};
ghost use Rattle.num_format_parsing.specs.Strict.{IsCanonical, IsCause, unread, sign_len};
ghost use Rattle.num_format_parsing.specs.Shapes.{HasPlainSymbols};

use crate::bytes::{begins_with, has_digit, is_utf8};
use crate::error::StrictError;

/// Returns why a text is refused that is canonical for no number. `start` is the length of its minus sign.
#[cold]
#[inline(never)]
pub(crate) fn cause(bytes: &[u8], is_text: bool, start: usize, separator: &[u8]) -> StrictError
    requires utf8 { IsTrue is_text → IsUtf8 bytes.now }
    requires start { start ≤ length bytes.now }
    ensures { (f : FormatData) → HasPlainSymbols f → separator.now ≡ printed_separator f.grouping f.separator
        → start ≡ sign_len f bytes.now → ((z : ℤ) → ¬ (IsCanonical f bytes.now z))
        → (k : Kind) → IsCause k f bytes.now result }
{
    if !is_utf8(bytes, is_text) {
        return StrictError::NotUtf8;
    }
    let at = expected_end(bytes, start, separator);
    if at < bytes.len() {
        return StrictError::Unexpected { at };
    }
    if !has_digit(bytes) {
        return StrictError::NoDigit;
    }
    StrictError::Misspelled
}

/// Returns the place after digits and whole separators, from the start on. A separator is tried first.
pub fn expected_end(text: &[u8], start: usize, separator: &[u8]) -> usize
    requires { start ≤ length text.now }
    ensures within { result ≤ length text.now }
    ensures rest { unread separator.now 0 (drop start text.now) ≡ drop result text.now }
{
    let mut place = start;
    while place < text.len() {
        if begins_with(&text[place..], separator) {
            place += separator.len();
        } else if text[place].is_ascii_digit() {
            place += 1;
        } else {
            return place;
        }
    }
    place
}
