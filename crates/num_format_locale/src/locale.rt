//! The type `Locale`: how a locale is found by its name, and what its texts are.
//!
//! The data of a locale are a row of `num_format_cldr`. A name is looked up by binary search.
ghost use Rattle.std.specs.Prelude.{◌≡◌, ◌≢◌, ℕ, ◌<◌, ◌≤◌, [], length, map, All, Contains, Some, IfSome};
ghost use Rattle.std.specs.Fmt.{WritesOnOk, WritesStyledOnOk};
ghost use Rattle.num_format_cldr.specs.Entry.{IsWellFormed, Rises, Shows};
ghost use Rattle.num_format_cldr.specs.Table.{entry, table_names};
ghost use Rattle.num_format_locale.specs.Data.{locale_data};
ghost use Rattle.num_format_locale.specs.Lookup.{LooksUpTag};
ghost use Rattle.num_format_locale.specs.Names.{LooksUp, name_of, variant_name, variant_name_of};
ghost use Rattle.num_format_locale.specs.Search.{Halves, Settles};
ghost use Rattle.num_format_text.specs.Cut.{cut_text};
ghost use Rattle.num_format_text.specs.Refusal.{ParseLocale, refusal_of};

use crate::lookup::{language, longest_match};
use crate::search::{find, find_hyphened, search};
use arrayvec::ArrayVec;
use num_format_cldr::{LEN, Row};
use num_format_text::capacities::{
    MAX_DEC_LEN, MAX_INF_LEN, MAX_MIN_LEN, MAX_NAN_LEN, MAX_PLUS_LEN, MAX_SEP_LEN,
};
use num_format_text::error::cut;
use num_format_text::strings::{
    DecimalStr, InfinityStr, MinusSignStr, NanStr, PlusSignStr, SeparatorStr,
};
use num_format_text::{Error, ErrorKind, Format, Grouping};
use std::fmt;
use std::marker::Model;
use std::str::FromStr;

mod constants;

/// A locale: a place in the table of locales, which is the number that a contract sees.
///
/// Each locale has a constant of its name, with `_` for `-`, such as `Locale::en` and
/// `Locale::zh_Hans_HK`; that of `as` is `Locale::as_`. Locales compare as their names do in byte
/// order, and `Debug` shows the name of the constant.
///
/// ```rust
/// Locale::de_CH.separator()     // "’"
/// "de_CH".parse::<Locale>()?    // Locale::de_CH
/// ```
#[derive(Clone, Copy, PartialEq, Eq, PartialOrd, Ord, Hash)]
pub struct Locale {
    place: u16,
}

impl Model for Locale {
    ghost use Rattle.std.specs.Prelude.{ℕ, ◌<◌};
    ghost use Rattle.num_format_cldr.specs.declared.TheConstants.{LEN};

    ghost Value = { ℕ };

    ghost view = { λ locale. locale.place };

    ghost invariant = { λ locale. locale.place < LEN };

    ghost inverse = { λ place. record { place = place } };
}

impl Locale {
    /// Returns the locale of a name, written with hyphens or with an underscore for every hyphen.
    ///
    /// Any other text is refused with [`ErrorKind::ParseLocale`], which keeps the text, truncated
    /// as [`cut`] says. Letters have to be of the right case.
    ///
    /// ```rust
    /// Locale::from_name("ca-ES-VALENCIA")    // Ok(Locale::ca_ES_VALENCIA)
    /// Locale::from_name("ca_ES_VALENCIA")    // Ok(Locale::ca_ES_VALENCIA)
    /// Locale::from_name("ca-ES_VALENCIA")    // Err(Error { kind: ParseLocale("ca-ES_VALENCIA") })
    /// Locale::from_name("en-us-posix")       // Err(Error { kind: ParseLocale("en-us-posix") })
    /// ```
    pub fn from_name(name: &str) -> Result<Locale, Error>
        ensures { LooksUp name.now result }
    {
        match find(name.as_bytes()) {
            Some(place) => Ok(Locale::at(place)),
            None => Err(unknown_name(name)),
        }
    }

    /// Returns what [`from_name`](Locale::from_name) returns, and the places of the names that were
    /// compared with the text, in order. There are at most 10 of them.
    ///
    /// The places show that the result is right, since names rise in byte order. For a locale, the
    /// last place is its own. For an error, the text has both a hyphen and an underscore, or the
    /// places have two neighbors, and the text lies strictly between their names, with hyphens for
    /// underscores. A text below the first name or above the last has only one neighbor.
    ///
    /// Each place is in the middle of those that are left, which are at first all 542: the first is 271,
    /// the next 135 or 407. The search ends where the text is equal to a name, or where no place is left.
    ///
    /// The Rust crate has no such function.
    ///
    /// ```rust
    /// Locale::from_name_traced("en")       // (Ok(en), [271, 135, 67, 101, 84, 93, 89, 91, 90])
    /// Locale::from_name_traced("zzz").1    // [271, 407, 475, 509, 526, 534, 538, 540, 541]
    /// ```
    pub fn from_name_traced(name: &str) -> (Result<Locale, Error>, ArrayVec<usize, 10>)
        ensures looked_up { LooksUp name.now result.0 }
        ensures settled { Settles name.now result.1.items result.0 }
        ensures halved { Halves name.now result.1.items 0 LEN }
    {
        match search(name.as_bytes()) {
            (Some(place), places) => (Ok(Locale::at(place)), places),
            (None, places) => (Err(unknown_name(name)), places),
        }
    }

    /// Returns the locale for a language tag, as an environment or a browser gives one: that of the
    /// longest name with which the tag begins, as RFC 4647 looks a tag up.
    ///
    /// What follows the first `.` or `@` does not count, an underscore counts as a hyphen, and the
    /// case of ASCII letters does not count. `C` and `POSIX` are the locale en-US-POSIX. Any other tag
    /// is the longest name that is equal to it, or that is followed by a hyphen in it. There is `None`
    /// where no name is.
    ///
    /// A tag is compared with names alone. No code is replaced by another, such as the old `iw` by
    /// `he`, and no script or region is added: `zh-TW` is `zh`, and not `zh-Hant`. Digits that a tag
    /// names, as `fa-u-nu-arabext`, do not count: `Digits::of_tag` of num_format_digits returns them.
    ///
    /// The Rust crate has no such function.
    ///
    /// ```rust
    /// Locale::lookup("de_DE.UTF-8")    // Some(Locale::de)
    /// Locale::lookup("en-us")          // Some(Locale::en)
    /// Locale::lookup("zh-hant-TW")     // Some(Locale::zh_Hant)
    /// Locale::lookup("sr_RS@latin")    // Some(Locale::sr)
    /// Locale::lookup("C")              // Some(Locale::en_US_POSIX)
    /// Locale::lookup("no")             // None
    /// Locale::lookup("english")        // None
    /// ```
    pub fn lookup(tag: &str) -> Option<Locale>
        ensures { LooksUpTag tag.now result }
    {
        let bytes = tag.as_bytes();
        // A tag that is a name as it is written needs no other step.
        if let Some(place) = find_hyphened(bytes) {
            return Some(Locale::at(place));
        }
        let language = language(bytes);
        if language.eq_ignore_ascii_case(b"C") || language.eq_ignore_ascii_case(b"POSIX") {
            return Some(Locale::en_US_POSIX);
        }
        let place = longest_match(language)?;
        Some(Locale::at(place))
    }

    /// Returns the locale whose [variant](Locale::variant_name) has this name, if there is one.
    ///
    /// The Rust crate has no such function. It reads a locale by this name where it deserializes one.
    ///
    /// ```rust
    /// Locale::from_variant_name("en_US_POSIX")    // Some(Locale::en_US_POSIX)
    /// Locale::from_variant_name("en-US-POSIX")    // None
    /// Locale::from_variant_name("as_")            // Some(Locale::as_)
    /// Locale::from_variant_name("as")             // None
    /// ```
    pub fn from_variant_name(text: &str) -> Option<Locale>
        ensures found { (place : ℕ) → place < LEN → text.now ≡ variant_name_of place → result ≡ Some place }
        ensures within { IfSome result (λ place. place < LEN) }
        ensures named { IfSome result (λ place. text.now ≡ variant_name_of place) }
    {
        match variant_names().binary_search(&text) {
            Ok(place) => Some(Locale::at(place)),
            Err(_) => None,
        }
    }

    /// Returns the names of all locales, with hyphens, in rising byte order.
    ///
    /// ```rust
    /// Locale::available_names().len()    // 542
    /// Locale::available_names()[0]       // "af"
    /// ```
    pub fn available_names() -> &'static [&'static str]
        ensures listed { map (λ name. name.now) result.now ≡ table_names }
        ensures count { length result.now ≡ LEN }
        ensures rising { Rises table_names }
        // 95 is the underscore.
        ensures no_underscore { All (λ name. Contains name 95 → ⊥) table_names }
    {
        num_format_cldr::names()
    }

    /// Returns the name, with hyphens. [`from_name`](Locale::from_name) of it is the locale.
    ///
    /// ```rust
    /// Locale::ca_ES_VALENCIA.name()    // "ca-ES-VALENCIA"
    /// ```
    pub fn name(&self) -> &'static str
        ensures same { result.now ≡ name_of self.now }
        ensures within { self.now < LEN }
    {
        self.row().name
    }

    /// Returns the name of the constant, which is that of the variant of the Rust crate's enum: the
    /// [`name`](Locale::name) with an underscore for every hyphen, and `as_` for `as`, since `as` is a
    /// keyword.
    ///
    /// The Rust crate has no such function. It shows a variant's name by `Debug`, and serializes it.
    ///
    /// ```rust
    /// Locale::en_US_POSIX.variant_name()    // "en_US_POSIX"
    /// Locale::as_.variant_name()            // "as_"
    /// ```
    pub fn variant_name(&self) -> &'static str
        ensures { result.now ≡ variant_name_of self.now }
    {
        variant_names()[self.place as usize]
    }

    /// Returns the decimal mark, of at most [`MAX_DEC_LEN`] bytes.
    ///
    /// ```rust
    /// Locale::de.decimal()    // ","
    /// ```
    pub fn decimal(&self) -> &'static str
        ensures same { result.now ≡ (locale_data self.now).decimal }
        ensures fits { length result.now ≤ MAX_DEC_LEN }
    {
        self.row().dec
    }

    /// Returns how the digits of a whole number are grouped.
    ///
    /// ```rust
    /// Locale::hi.grouping()    // Grouping::Indian
    /// ```
    pub fn grouping(&self) -> Grouping
        ensures { result ≡ (locale_data self.now).grouping }
    {
        match self.row().group {
            0 => Grouping::Standard,
            1 => Grouping::Indian,
            _ => Grouping::Posix,
        }
    }

    /// Returns the text for infinity, of at most [`MAX_INF_LEN`] bytes.
    ///
    /// ```rust
    /// Locale::en.infinity()    // "∞"
    /// ```
    pub fn infinity(&self) -> &'static str
        ensures same { result.now ≡ (locale_data self.now).infinity }
        ensures fits { length result.now ≤ MAX_INF_LEN }
    {
        self.row().inf
    }

    /// Returns the minus sign, with which each negative number begins. It has at least one byte
    /// and at most [`MAX_MIN_LEN`].
    ///
    /// ```rust
    /// Locale::sv.minus_sign()    // "−"
    /// ```
    pub fn minus_sign(&self) -> &'static str
        ensures same { result.now ≡ (locale_data self.now).minus_sign }
        ensures fits { length result.now ≤ MAX_MIN_LEN }
        ensures given { result.now ≢ [] }
    {
        self.row().min
    }

    /// Returns the text for NaN, of at most [`MAX_NAN_LEN`] bytes.
    ///
    /// ```rust
    /// Locale::fi.nan()    // "epäluku"
    /// ```
    pub fn nan(&self) -> &'static str
        ensures same { result.now ≡ (locale_data self.now).nan }
        ensures fits { length result.now ≤ MAX_NAN_LEN }
    {
        self.row().nan
    }

    /// Returns the plus sign, of at most [`MAX_PLUS_LEN`] bytes.
    ///
    /// ```rust
    /// Locale::en.plus_sign()    // "+"
    /// ```
    pub fn plus_sign(&self) -> &'static str
        ensures same { result.now ≡ (locale_data self.now).plus_sign }
        ensures fits { length result.now ≤ MAX_PLUS_LEN }
    {
        self.row().plus
    }

    /// Returns the separator between groups of digits. It has at least one byte and at most
    /// [`MAX_SEP_LEN`].
    ///
    /// ```rust
    /// Locale::de.separator()    // "."
    /// ```
    pub fn separator(&self) -> &'static str
        ensures same { result.now ≡ (locale_data self.now).separator }
        ensures fits { length result.now ≤ MAX_SEP_LEN }
        ensures given { result.now ≢ [] }
    {
        self.row().sep
    }

    /// Returns the locale at the place.
    fn at(place: usize) -> Locale
        requires { place < LEN }
        ensures { result ≡ place }
    {
        Locale {
            place: place as u16,
        }
    }

    /// Returns the row of the table.
    fn row(&self) -> &'static Row
        ensures shown { Shows result.now (entry self.now) }
        ensures well_formed { IsWellFormed (entry self.now) }
        ensures named { result.now.name.now ≡ name_of self.now }
        ensures within { self.now < LEN }
    {
        num_format_cldr::row(self.place as usize)
    }
}

/// Returns the names of all variants, in the order of their places.
fn variant_names() -> &'static [&'static str]
    ensures { map (λ name. name.now) result.now ≡ map variant_name table_names }
{
    &constants::VARIANT_NAMES
}

/// Returns the error for a text that is no name.
///
/// It is `#[inline]` and not `#[inline(always)]`: the compiler then drops a copy of the error.
#[inline]
fn unknown_name(text: &str) -> Error
    ensures { refusal_of result ≡ ParseLocale (cut_text text.now) }
{
    Error::from(ErrorKind::ParseLocale(cut(text)))
}

impl FromStr for Locale {
    type Err = Error;

    ghost from_str_gives = { LooksUp };

    fn from_str(text: &str) -> Result<Locale, Error> {
        Locale::from_name(text)
    }
}

/// Shows the [`variant_name`](Locale::variant_name), as the Rust crate's derive does.
impl fmt::Debug for Locale {
    ghost debug_output = { λ locale. Some (variant_name_of locale) };

    /// Writes the name alone, whatever width or fill is asked for.
    fn fmt<W: fmt::Write>(&self, f: &mut fmt::Formatter<W>) -> fmt::Result
        ensures writes { WritesOnOk W.write_str_gives f.old result (variant_name_of self.now) f.new }
        ensures styled { WritesStyledOnOk W.write_str_gives f.old result (variant_name_of self.now) f.new }
    {
        f.write_str(self.variant_name())
    }
}

impl Format for Locale {
    ghost answers = { locale_data };

    fn decimal(&self) -> DecimalStr<'_> {
        DecimalStr::of(self.decimal())
    }

    fn grouping(&self) -> Grouping {
        self.grouping()
    }

    fn infinity(&self) -> InfinityStr<'_> {
        InfinityStr::of(self.infinity())
    }

    fn minus_sign(&self) -> MinusSignStr<'_> {
        MinusSignStr::of(self.minus_sign())
    }

    fn nan(&self) -> NanStr<'_> {
        NanStr::of(self.nan())
    }

    fn plus_sign(&self) -> PlusSignStr<'_> {
        PlusSignStr::of(self.plus_sign())
    }

    fn separator(&self) -> SeparatorStr<'_> {
        SeparatorStr::of(self.separator())
    }

    fn has_common_symbols(&self) -> bool {
        // The contract of a row says so of each.
        self.row();
        true
    }
}
