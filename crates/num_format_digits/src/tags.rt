//! The digit set that a language tag names.
ghost use Rattle.std.specs.Prelude.{◌≡◌, ◌∷◌, ◌<◌, [], None, Some, IfSome, MatchOption, length};
ghost use Rattle.std.specs.Option.{option_map};
ghost use Rattle.num_format_locale.specs.Lookup.{language_of};
ghost use Rattle.num_format_digits.specs.Tags.{TagResult, after, digits_in, is_word, name_in, parts, set_of_word};

use crate::digits::Digits;
use crate::sets;
use num_format_locale::Locale;

/// The digits that a language tag names are no digit set, or it names them twice.
#[derive(Clone, Copy, Debug, PartialEq, Eq)]
pub struct UnknownDigits;

impl Digits {
    /// Returns the digit set that a language tag names after `-u-` and `-nu-`, or `None` if it names none.
    ///
    /// `native` is the default set of the locale of the tag. As where a locale is [looked up](Locale::lookup), what
    /// follows the first `.` or `@` does not count, an underscore counts as a hyphen, and the case of letters does not
    /// count. Nor does what follows `-x-`.
    ///
    /// ```rust
    /// Digits::of_tag("fa-u-ca-persian-nu-deva")    // Ok(Some(Digits { zero: 2406 }))
    /// Digits::of_tag("fa_IR_u_nu_DEVA.UTF-8")      // Ok(Some(Digits { zero: 2406 }))
    /// Digits::of_tag("fa-u-nu-native")             // Ok(Some(Digits { zero: 1776 }))
    /// Digits::of_tag("fa")                         // Ok(None)
    /// Digits::of_tag("zh-u-nu-traditio")           // Err(UnknownDigits)
    /// ```
    ///
    /// # Errors
    ///
    /// [`UnknownDigits`] if the name is that of no set, as `traditio`, `finance` and `roman`, if there is no name or a
    /// second `-nu-`, and for `native` if the tag is that of no locale.
    pub fn of_tag(tag: &str) -> Result<Option<Digits>, UnknownDigits>
        ensures { TagResult tag.now (digits_in tag.now) result }
    {
        let Some(name) = digits_in(tag.as_bytes()) else {
            return Ok(None);
        };
        if is_word(b"native", name) {
            return match Locale::lookup(tag) {
                Some(locale) => Ok(Some(Digits::of_locale(locale))),
                None => Err(UnknownDigits),
            };
        }
        match set_of_word(name) {
            Some(digits) => Ok(Some(digits)),
            None => Err(UnknownDigits),
        }
    }
}

/// Returns the name that a tag has for its digits, before the first `.` or `@`.
fn digits_in(tag: &[u8]) -> Option<&[u8]>
    ensures { option_map (λ name. name.now) result ≡ digits_in tag.now }
{
    name_in(language(tag))
}

/// Returns the name that a text has for its digits, which is empty if it has two or an empty one.
fn name_in(text: &[u8]) -> Option<&[u8]>
    ensures { option_map (λ name. name.now) result ≡ name_in text.now }
{
    let rest = after(after(text, b"u")?, b"nu")?;
    if after(rest, b"nu").is_some() {
        return Some(b"");
    }
    match cut(rest) {
        Some((name, _)) => Some(name),
        None => Some(rest),
    }
}

/// Returns what is before the first `.` or `@` of a tag.
fn language(tag: &[u8]) -> &[u8]
    ensures { result.now ≡ language_of tag.now }
{
    let end = tag.iter().position(|&byte| byte == b'.' || byte == b'@');
    &tag[..end.unwrap_or(tag.len())]
}

/// Returns what follows the first part of a tag that is a word, before an `x`.
fn after<'t>(tag: &'t [u8], word: &[u8]) -> Option<&'t [u8]>
    ensures { MatchOption result (after word.now (parts tag.now) ≡ None)
        (λ rest. after word.now (parts tag.now) ≡ Some (parts rest.now)) }
{
    let mut left = tag;
    while let Some((part, rest)) = cut(left) {
        if is_word(word, part) {
            return Some(rest);
        }
        if is_word(b"x", part) {
            return None;
        }
        left = rest;
    }
    if is_word(word, left) { Some(b"") } else { None }
}

/// Returns the first part of a tag, and what follows the hyphen or underscore after it.
fn cut(tag: &[u8]) -> Option<(&[u8], &[u8])>
    ensures parts { MatchOption result (parts tag.now ≡ tag.now ∷ [])
        (λ cut. parts tag.now ≡ cut.0.now ∷ parts cut.1.now) }
    ensures shorter { IfSome result (λ cut. length cut.1.now < length tag.now) }
{
    let end = tag.iter().position(|&byte| byte == b'-' || byte == b'_')?;
    Some((&tag[..end], &tag[end + 1..]))
}

/// Returns whether a part is a word, in any case.
fn is_word(word: &[u8], part: &[u8]) -> bool
    ensures { result ≡ is_word word.now part.now }
{
    part.eq_ignore_ascii_case(word)
}

/// Returns the set whose name a word is, in any case.
fn set_of_word(word: &[u8]) -> Option<Digits>
    ensures { result ≡ set_of_word word.now }
{
    let place = sets::sets()
        .iter()
        .position(|set| is_word(set.0.as_bytes(), word))?;
    Digits::from_number(place as u8)
}
