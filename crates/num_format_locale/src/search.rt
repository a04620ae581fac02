//! The search for a name: each comparison halves the names that are left. [`find`] starts from those
//! that begin with the same two letters as the text, and [`search`] from all, with a list of the
//! places compared.
ghost use Rattle.std.specs.Prelude.{◌≡◌, ℕ, ◌<◌, ◌≤◌, ◌↔◌, IfNone, IfSome, IsTrue};
ghost use Rattle.std.specs.Ordering.{nat_cmp};
ghost use Rattle.std.specs.Cmp.Lexicographic.{slice_cmp};
ghost use Rattle.num_format_cldr.specs.declared.TheConstants.{LEN};
ghost use Rattle.num_format_locale.specs.Lookup.{IsSameIgnoringCase};
ghost use Rattle.num_format_locale.specs.Names.{Spells, name_of};
ghost use Rattle.num_format_locale.specs.Pairs.{ListsPairs};
ghost use Rattle.num_format_locale.specs.Search.{Finds, Halves, IsBetween, IsLast, IsMixed, RulesOut};
ghost use Rattle.num_format_locale.specs.Search.{hyphen_for_underscore, hyphened};

use arrayvec::ArrayVec;
use num_format_cldr::LEN;
use std::cmp::Ordering;

mod pair_list;

/// Returns the place of the name that the text spells, if there is one.
pub(crate) fn find(text: &[u8]) -> Option<usize>
    ensures spelled { IfSome result (λ place. Spells text.now (name_of place)) }
    ensures within { IfSome result (λ place. place < LEN) }
    ensures missing { IfNone result ((place : ℕ) → place < LEN → ¬ Spells text.now (name_of place)) }
{
    let place = find_hyphened(text);
    // Only a text that is found is scanned: it is as short as a name.
    if place.is_some() && is_mixed(text) {
        return None;
    }
    place
}

/// Returns the place of the name that the text is, with hyphens for underscores, if there is one.
pub(crate) fn find_hyphened(text: &[u8]) -> Option<usize>
    ensures found { IfSome result (λ place. hyphened text.now ≡ name_of place) }
    ensures within { IfSome result (λ place. place < LEN) }
    ensures missing { IfNone result ((place : ℕ) → place < LEN → ¬ (hyphened text.now ≡ name_of place)) }
{
    let (mut low, mut high) = narrowed(text);
    // The first name with these letters is mostly a language alone, which is looked up most.
    let mut middle = low;
    while low < high {
        match compare(text, middle) {
            Ordering::Equal => return Some(middle),
            Ordering::Less => high = middle,
            Ordering::Greater => low = middle + 1,
        }
        middle = low + (high - low) / 2;
    }
    None
}

/// Returns the first of the places whose names begin with the same two letters as the text, and the
/// place after the last of them. The case of letters does not count.
pub(crate) fn narrowed(text: &[u8]) -> (usize, usize)
    ensures ordered { result.0 ≤ result.1 }
    ensures within { result.1 ≤ LEN }
    ensures kept { (place : ℕ) → place < LEN → IsSameIgnoringCase (hyphened text.now) (name_of place)
        → (result.0 ≤ place) × (place < result.1) }
{
    let places = first_places();
    let [first, second, ..] = text else {
        return (0, 0);
    };
    let (first, second) = (first.to_ascii_lowercase(), second.to_ascii_lowercase());
    if !first.is_ascii_lowercase() || !second.is_ascii_lowercase() {
        return (0, 0);
    }
    let pair = (first - b'a') as usize * 26 + (second - b'a') as usize;
    (places[pair] as usize, places[pair + 1] as usize)
}

/// Returns the place where the names of each pair of letters begin, and last the number of names.
fn first_places() -> &'static [u16]
    ensures { ListsPairs result.now }
{
    &pair_list::FIRST_PLACES
}

/// Returns the place of the name that the text spells, if there is one, and the places of the names
/// that were compared with the text, in order.
pub(crate) fn search(text: &[u8]) -> (Option<usize>, ArrayVec<usize, 10>)
    ensures found { IfSome result.0 (λ place. Finds text.now result.1.items place) }
    ensures within { IfSome result.0 (λ place. place < LEN) }
    ensures missing { IfNone result.0 (RulesOut text.now result.1.items) }
    ensures halved { Halves text.now result.1.items 0 LEN }
{
    let (place, places) = halve(text);
    // Only a text that is found is scanned: it is as short as a name.
    if place.is_some() && is_mixed(text) {
        return (None, places);
    }
    (place, places)
}

/// Returns the place of the name that the text is, with hyphens for underscores, if there is one,
/// and the places of the names that were compared, in order.
fn halve(text: &[u8]) -> (Option<usize>, ArrayVec<usize, 10>)
    ensures found { IfSome result.0 (λ place. (hyphened text.now ≡ name_of place) × IsLast result.1.items place) }
    ensures within { IfSome result.0 (λ place. place < LEN) }
    ensures missing { IfNone result.0 ((k : ℕ) × IsBetween text.now result.1.items k) }
    ensures halved { Halves text.now result.1.items 0 LEN }
{
    let mut places = ArrayVec::new();
    let mut low = 0;
    let mut high = LEN;
    while low < high {
        let middle = low + (high - low) / 2;
        places.push(middle);
        match compare(text, middle) {
            Ordering::Equal => return (Some(middle), places),
            Ordering::Less => high = middle,
            Ordering::Greater => low = middle + 1,
        }
    }
    (None, places)
}

/// Returns how the text, with hyphens for underscores, compares with the name at a place.
fn compare(text: &[u8], place: usize) -> Ordering
    requires { place < LEN }
    ensures { result ≡ slice_cmp nat_cmp (hyphened text.now) (name_of place) }
{
    let name = num_format_cldr::names()[place].as_bytes();
    text.iter()
        .map(|byte| with_hyphen(*byte))
        .cmp(name.iter().copied())
}

/// Returns the byte, but a hyphen for an underscore.
pub(crate) fn with_hyphen(byte: u8) -> u8
    ensures { result ≡ hyphen_for_underscore byte }
{
    if byte == b'_' { b'-' } else { byte }
}

/// Returns whether the text has both a hyphen and an underscore.
fn is_mixed(text: &[u8]) -> bool
    ensures { IsTrue result ↔ IsMixed text.now }
{
    text.contains(&b'-') && text.contains(&b'_')
}
