//! The type [`Digits`].
ghost use Rattle.std.specs.Prelude.{◌≡◌, ◌==◌, ◌<◌, ◌≤◌, Some, get_or, length};
ghost use Rattle.std.specs.Str.{chars};
ghost use Rattle.num_format_locale.specs.Names.{name_of};
ghost use Rattle.num_format_parsing.specs.Reading.{is_numeric};
ghost use Rattle.num_format_digits.specs.Digits.{HasZero, IsZero, default_zero, digits_named, first_set, is_digit_of};
ghost use Rattle.num_format_digits.specs.Digits.{is_other, plain_char, set_numbered, set_of, zeros};
ghost use Rattle.num_format_digits.specs.Sets.{sets};
ghost use Rattle.num_format_digits.specs.declared.sets.TheConstants.{LEN};

use crate::sets;
use num_format_locale::Locale;
use num_format_rewriting::{Image, split_first};
use std::marker::Model;
use unicode::properties::GeneralCategory;

/// A digit set: the ten decimal digits of a script, or of a style, as fullwidth ones. A contract sees the code point of
/// its zero, after which those of one to nine stand.
///
/// There are as many as Unicode has decimal digits (General_Category `Nd`), ten each. Their names are the Unicode
/// CLDR's, as a language tag has them after `-u-nu-`.
///
/// ```rust
/// Digits::from_name("arab")     // Some(Digits { zero: 1632 })
/// Digits::from_name("roman")    // None: these are no decimal digits
/// ```
#[derive(Clone, Copy, Debug, PartialEq, Eq, Hash)]
pub struct Digits {
    zero: u32,
}

impl Model for Digits {
    ghost use Rattle.std.specs.Prelude.{ℕ};
    ghost use Rattle.num_format_digits.specs.Digits.{IsZero};

    ghost Value = { ℕ };

    ghost view = { λ digits. digits.zero };

    ghost invariant = { λ digits. IsZero digits.zero };

    ghost inverse = { λ zero. record { zero = zero } };
}

impl Digits {
    /// Returns the digit set of a name, in lower case, or `None` if no set has it.
    ///
    /// ```rust
    /// Digits::from_name("fullwide")    // Some(Digits { zero: 65296 })
    /// Digits::from_name("Arab")        // None
    /// ```
    pub fn from_name(name: &str) -> Option<Digits>
        ensures { result ≡ digits_named name.now }
    {
        let zero = sets::zero_of(sets::sets(), name)?;
        Some(Digits { zero })
    }

    /// Returns the default digit set of a locale, as CLDR 42 has it: `latn` for all but 46 locales.
    ///
    /// ```rust
    /// Digits::of_locale(Locale::fa)       // Digits { zero: 1776 }: arabext
    /// Digits::of_locale(Locale::ar_AE)    // Digits { zero: 48 }: latn
    /// ```
    pub fn of_locale(locale: Locale) -> Digits
        ensures { result ≡ default_zero (name_of locale) }
    {
        let zero = sets::zero_of(sets::locales(), locale.name());
        Digits {
            zero: zero.unwrap_or(48),
        }
    }

    /// Returns the set `latn`, of the digits `0` to `9`.
    pub fn latin() -> Digits
        ensures { result ≡ 48 }
    {
        Digits { zero: 48 }
    }

    /// Returns the set at a place in the order of the names.
    fn at(place: usize) -> Digits
        requires { place < LEN }
        ensures { result ≡ get_or (zeros sets) place 0 }
    {
        Digits {
            zero: sets::sets()[place].1,
        }
    }

    /// Returns the set for which a number stands, or `None` if it stands for none: 0 is `latn`, and the others follow
    /// in the order of their names.
    ///
    /// ```rust
    /// Digits::from_number(0)    // Some(Digits { zero: 48 })
    /// Digits::from_number(3)    // Some(Digits { zero: 1632 }): arab
    /// Digits::from_number(77)    // None
    /// ```
    #[inline]
    #[tactic(auto, using(crate::proofs::SetLemmas::numbered_at, crate::proofs::SetLemmas::numbered_past))]
    pub fn from_number(number: u8) -> Option<Digits>
        ensures { result ≡ set_numbered number }
    {
        if number as usize >= sets::LEN {
            return None;
        }
        Some(Digits::at(number as usize))
    }

    /// Returns the number that stands for the set.
    ///
    /// ```rust
    /// Digits::of_locale(Locale::ar_EG).number()    // 3
    /// ```
    #[tactic(auto, using(crate::proofs::SetLemmas::numbered_at))]
    pub fn number(self) -> u8
        ensures { set_numbered result ≡ Some self }
    {
        let zero = self.zero();
        for number in 0..sets::LEN as u8 {
            if Digits::at(number as usize).zero() == zero {
                return number;
            }
        }
        unreachable!()
    }

    /// Returns whether the digits are `0` to `9`, the set `latn`.
    #[inline]
    pub fn is_latin(self) -> bool
        ensures { result ≡ (self == 48) }
    {
        self.zero == 48
    }

    /// Returns the set of a decimal digit, or `None` for any other character.
    ///
    /// ```rust
    /// Digits::of_digit('٣')    // Some(Digits { zero: 1632 })
    /// ```
    pub fn of_digit(c: char) -> Option<Digits>
        ensures { result ≡ set_of c }
    {
        for place in 0..sets::LEN {
            let digits = Digits::at(place);
            if digits.has(c) {
                return Some(digits);
            }
        }
        None
    }

    /// Returns the set of the first decimal digit of a text, or `None` if it has none: that in which to parse texts of
    /// any set.
    ///
    /// ```rust
    /// Digits::of_text("-١٢")    // Some(Digits { zero: 1632 })
    /// ```
    pub fn of_text(text: &str) -> Option<Digits>
        ensures { result ≡ first_set (chars text.now) }
    {
        let mut left = text;
        while let Some((c, rest)) = split_first(left) {
            if let Some(digits) = Digits::of_digit(c) {
                return Some(digits);
            }
            left = rest;
        }
        None
    }

    /// Returns the digit zero of the set.
    ///
    /// ```rust
    /// Digits::of_locale(Locale::ne).zero()    // '०'
    /// ```
    #[inline]
    pub fn zero(self) -> char
        ensures value { result ≡ self }
        ensures set { IsZero self }
    {
        unsafe { char::from_u32_unchecked(self.zero) }
    }

    /// Returns whether a character is a digit of the set.
    #[inline]
    pub fn has(self, c: char) -> bool
        ensures { result ≡ is_digit_of self c }
    {
        let code = c as u32;
        self.zero <= code && code <= self.zero + 9
    }

    /// Returns whether a character is numeric and no digit of the set.
    #[inline]
    pub(crate) fn is_other(self, c: char) -> bool
        ensures { result ≡ is_other self c }
    {
        !self.has(c) && is_numeric(c)
    }

    /// Writes the bytes of the zero to the start of some space, and returns them.
    #[inline(always)]
    pub(crate) fn zero_bytes(self, space: &mut [u8; 4]) -> &[u8]
        ensures bytes { HasZero self (length result.now) result.now }
        ensures few { length result.now ≤ 4 }
        ensures set { IsZero self }
    {
        self.zero().encode_utf8(space).as_bytes()
    }
}

impl Image for Digits {
    ghost image = { plain_char };

    /// Returns the digit `0` to `9` in place of a digit of the set, and any other character as it is.
    #[inline]
    fn image(&self, c: char) -> char {
        if self.has(c) {
            (48 + (c as u32 - self.zero) as u8) as char
        } else {
            c
        }
    }
}

/// Returns whether a character is numeric: of the General_Category `Nd`, `Nl` or `No`.
fn is_numeric(c: char) -> bool
    ensures { result ≡ is_numeric c }
{
    matches!(
        GeneralCategory::for_char(c),
        GeneralCategory::DecimalNumber
            | GeneralCategory::LetterNumber
            | GeneralCategory::OtherNumber
    )
}
