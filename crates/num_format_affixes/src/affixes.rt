//! Texts that may stand before or after a number.
ghost use Rattle.std.specs.Prelude.{◌≡◌, ◌<◌, ◌≤◌, ◌+◌, ◌++◌, [], ◌∷◌, Some, None, IfSome, MatchOption, MatchResult};
ghost use Rattle.std.specs.Prelude.{encode_utf8, false, is_none, length, true};
ghost use Rattle.std.specs.Str.{chars, encode_utf8_all};
ghost use Rattle.num_format_affixes.specs.Affixes.{IsSplit, affix_len, barred_from, ends_with_letter, error_of};
ghost use Rattle.num_format_affixes.specs.Affixes.{first_error, first_len, has_pointed, is_barred, message_of};

use crate::characters::is_of_number;
use crate::parts::Parts;
use crate::side::Side;
use std::fmt;

/// Texts that may stand before or after a number, as currencies and units.
///
/// One of them may stand before a number and one after it, the first of the list that is there, with blanks between:
/// ASCII whitespace, U+00A0 and U+202F. An affix whose last character is a letter may have a point after it, which is
/// part of it: `kr` is also `kr.`.
///
/// ```rust
/// let affixes = Affixes::new(&["€", "kr", "Fr."])?;
/// str::from_utf8(affixes.split("Fr. 1'234.50".as_bytes()).inner)    // Ok("1'234.50")
/// str::from_utf8(affixes.split("12 kr.".as_bytes()).after)          // Ok(" kr.")
/// str::from_utf8(affixes.split("5 $".as_bytes()).inner)             // Ok("5 $")
/// Affixes::new(&["€", "a-b"]).err()                                 // Some(NumberCharacter { index: 1, at: 1 })
/// ```
#[derive(Clone, Copy, Debug)]
pub struct Affixes<'a> {
    texts: &'a [&'a str],
    pub ghost allowed: { is_none (first_error 0 texts.now) ≡ true },
}

/// Why texts are refused as affixes: what is wrong with the first one that is refused.
#[derive(Clone, Copy, Debug, PartialEq, Eq)]
pub enum AffixError {
    /// The text is empty.
    Empty {
        /// The number of texts before it.
        index: usize,
    },
    /// The text has a character that numbers of locales have, or that people type for one of these: a numeric
    /// character, a sign, a comma, an apostrophe, a blank, a mark of the direction of writing, or a point that does not
    /// follow a letter. So is a parenthesis, by which accountants write a negative number.
    NumberCharacter {
        /// The number of texts before it.
        index: usize,
        /// The number of bytes before the character.
        at: usize,
    },
}

impl<'a> Affixes<'a> {
    /// Returns the texts as affixes.
    ///
    /// ```rust
    /// Affixes::new(&["€", ""]).err()     // Some(Empty { index: 1 })
    /// Affixes::new(&["m²"]).err()        // Some(NumberCharacter { index: 0, at: 1 })
    /// Affixes::new(&["руб."]).is_ok()    // true
    /// ```
    ///
    /// # Errors
    ///
    /// See [`AffixError`].
    pub fn new(texts: &'a [&'a str]) -> Result<Affixes<'a>, AffixError>
        ensures { MatchResult result (λ affixes. (affixes.texts.now ≡ texts.now) × (first_error 0 texts.now ≡ None))
            (λ error. first_error 0 texts.now ≡ Some error) }
    {
        for (index, text) in texts.iter().enumerate() {
            if let Some(error) = error_of(index, text) {
                return Err(error);
            }
        }
        Ok(Affixes { texts })
    }

    /// Returns a number's own text, with the affixes and blanks around it.
    ///
    /// What is around the affixes is not dropped, so trim the text first where blanks may be there. Without an affix
    /// the number's own text is the whole one.
    ///
    /// ```rust
    /// let affixes = Affixes::new(&["EUR", "%"])?;
    /// let parts = affixes.split(b"EUR -5 %");
    /// str::from_utf8(parts.before)    // Ok("EUR ")
    /// str::from_utf8(parts.inner)     // Ok("-5")
    /// str::from_utf8(parts.after)     // Ok(" %")
    /// ```
    pub fn split<'t>(&self, text: &'t [u8]) -> Parts<'t>
        ensures { IsSplit self.now.texts.now text.now result }
    {
        let rest = Side::Start.strip(self.len_at(Side::Start, text), text);
        let inner = Side::End.strip(self.len_at(Side::End, rest), rest);
        Parts::around(text, rest, inner)
    }

    /// Returns how many bytes the first affix has that is at an end of a text, if one is.
    fn len_at(&self, side: Side, text: &[u8]) -> Option<usize>
        ensures { result ≡ first_len side self.now.texts.now text.now }
    {
        let texts = self.texts;
        for affix in texts {
            if let Some(len) = affix_len(side, affix, text) {
                return Some(len);
            }
        }
        None
    }
}

/// Returns how many bytes an affix has that is at an end of a text, with the point after it if that is part of it.
fn affix_len(side: Side, affix: &str, text: &[u8]) -> Option<usize>
    ensures { result ≡ affix_len side affix.now text.now }
{
    if has_pointed(side, affix.as_bytes(), text) && ends_with_letter(affix) {
        Some(affix.len() + 1)
    } else if side.has(affix.as_bytes(), text) {
        Some(affix.len())
    } else {
        None
    }
}

/// Returns whether an affix is at an end of a text with a point after it.
fn has_pointed(side: Side, affix: &[u8], text: &[u8]) -> bool
    ensures value { result ≡ has_pointed side affix.now text.now }
    ensures within { result ≡ true → length affix.now + 1 ≤ length text.now }
{
    match side {
        Side::Start => side.has(affix, text) && side.has(b".", side.without(affix.len(), text)),
        Side::End => side.has(b".", text) && side.has(affix, side.without(1, text)),
    }
}

/// Returns whether the last character of a text is a letter.
fn ends_with_letter(text: &str) -> bool
    ensures { result ≡ ends_with_letter text.now }
{
    text.chars().fold(false, |_, c| c.is_alphabetic())
}

/// Returns what is wrong with the text of this index in a list, if anything is.
fn error_of(index: usize, text: &str) -> Option<AffixError>
    ensures { result ≡ error_of index text.now }
{
    if text.is_empty() {
        return Some(AffixError::Empty { index });
    }
    let at = find_barred(text)?;
    Some(AffixError::NumberCharacter { index, at })
}

/// Returns how many bytes are before the first character of a text that no affix may have there.
fn find_barred(text: &str) -> Option<usize>
    ensures { result ≡ barred_from false 0 (chars text.now) }
{
    let mut after_letter = false;
    let mut at = 0;
    let mut left = text;
    while let Some((c, rest)) = split_first(left) {
        if is_barred(after_letter, c) {
            return Some(at);
        }
        after_letter = c.is_alphabetic();
        at += c.len_utf8();
        left = rest;
    }
    None
}

/// Returns the first character of a text, and what follows it.
fn split_first(text: &str) -> Option<(char, &str)>
    ensures parts { MatchOption result (chars text.now ≡ [])
        (λ parts. (chars text.now ≡ parts.0 ∷ chars parts.1.now) × (text.now ≡ encode_utf8 parts.0 ++ parts.1.now)) }
    ensures shorter { IfSome result (λ parts. length parts.1.now < length text.now) }
    ensures whole { encode_utf8_all (chars text.now) ≡ text.now }
{
    let mut chars = text.chars();
    let Some(first) = chars.next() else {
        return None;
    };
    Some((first, chars.as_str()))
}

/// Returns whether no affix may have a character there: numbers have it, and it is no point after a letter.
fn is_barred(after_letter: bool, c: char) -> bool
    ensures { result ≡ is_barred after_letter c }
{
    is_of_number(c) && !(after_letter && c == '.')
}

impl fmt::Display for AffixError {
    ghost output = { λ error. Some (message_of error) };

    ghost styled_output = { λ error _. Some (message_of error) };

    fn fmt<W: fmt::Write>(&self, f: &mut fmt::Formatter<W>) -> fmt::Result {
        f.write_str(match self {
            AffixError::Empty { .. } => "An affix is empty.",
            AffixError::NumberCharacter { .. } => "An affix has a character that numbers have.",
        })
    }
}

impl std::error::Error for AffixError {}
