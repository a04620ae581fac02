//! The look-up of a language tag: of its beginnings that end before a hyphen, the longest that is a
//! name.
ghost use Rattle.std.specs.Prelude.{◌≡◌, ℕ, ◌+◌, ◌<◌, IfNone, IfSome, map, take};
ghost use Rattle.std.specs.Char.{to_ascii_lowercase};
ghost use Rattle.std.specs.Ordering.{nat_cmp};
ghost use Rattle.std.specs.Cmp.Lexicographic.{slice_cmp};
ghost use Rattle.num_format_cldr.specs.declared.TheConstants.{LEN};
ghost use Rattle.num_format_locale.specs.Lookup.{IsLongestMatch, IsSameIgnoringCase, Matches, language_of};
ghost use Rattle.num_format_locale.specs.Names.{name_of};
ghost use Rattle.num_format_locale.specs.Search.{hyphened};

use crate::search::{narrowed, with_hyphen};
use std::cmp::Ordering;

/// The most bytes of a name.
const MAX_NAME_LEN: usize = 14;

/// Returns what is before the first `.` or `@` of a tag, but at most one byte more than a name has:
/// what follows changes nothing, however long the tag.
pub(crate) fn language(tag: &[u8]) -> &[u8]
    ensures { result.now ≡ take (MAX_NAME_LEN + 1) (language_of tag.now) }
{
    let head = &tag[..tag.len().min(MAX_NAME_LEN + 1)];
    let end = head.iter().position(|&byte| byte == b'.' || byte == b'@');
    &head[..end.unwrap_or(head.len())]
}

/// Returns the place of the longest name that is the language, or what is before one of its hyphens,
/// if there is one. An underscore counts as a hyphen, and the case of letters does not count.
pub(crate) fn longest_match(language: &[u8]) -> Option<usize>
    ensures matched { IfSome result (IsLongestMatch (hyphened language.now)) }
    ensures missing { IfNone result ((place : ℕ) → place < LEN → ¬ Matches (hyphened language.now) (name_of place)) }
{
    let mut end = language.len();
    loop {
        let place = find_ignoring_case(&language[..end]);
        if place.is_some() {
            return place;
        }
        end = language[..end]
            .iter()
            .rposition(|&byte| with_hyphen(byte) == b'-')?;
    }
}

/// Returns the place of the name that the text is, with hyphens for underscores and in any case, if
/// there is one.
fn find_ignoring_case(text: &[u8]) -> Option<usize>
    ensures found { IfSome result (λ place. IsSameIgnoringCase (hyphened text.now) (name_of place)) }
    ensures within { IfSome result (λ place. place < LEN) }
    ensures missing { IfNone result ((place : ℕ) → place < LEN
        → ¬ IsSameIgnoringCase (hyphened text.now) (name_of place)) }
{
    let (low, high) = narrowed(text);
    let names = &num_format_cldr::names()[low..high];
    match names.binary_search_by(|name| compare_ignoring_case(name.as_bytes(), text)) {
        Ok(place) => Some(low + place),
        Err(_) => None,
    }
}

/// Returns how the name compares with the text, with hyphens for underscores, both in lower case.
fn compare_ignoring_case(name: &[u8], text: &[u8]) -> Ordering
    ensures { result ≡ slice_cmp nat_cmp (map to_ascii_lowercase name.now)
        (map to_ascii_lowercase (hyphened text.now)) }
{
    let text = text
        .iter()
        .map(|byte| with_hyphen(*byte).to_ascii_lowercase());
    name.iter().map(|byte| byte.to_ascii_lowercase()).cmp(text)
}
