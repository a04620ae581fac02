//! The trait of number formats.
ghost use Rattle.std.specs.Prelude.{◌≡◌, IsTrue};
ghost use Rattle.num_format_text.specs.Characters.{HasCommonSymbols};
ghost use Rattle.num_format_text.specs.Format.{FormatData};

use crate::grouping::Grouping;
use crate::strings::{DecimalStr, InfinityStr, MinusSignStr, NanStr, PlusSignStr, SeparatorStr};

/// A number format: a locale, a format that was built, or a type of your own.
///
/// The data of a format are a function of the format alone. An implementation names that function
/// as its one ghost member, `answers`, and writes seven methods that return the data. Nothing else
/// has to be proved: each text is within its capacity by its type.
///
/// ```text
/// impl Format for Plain {
///     ghost answers = { λ _. plain };
///
///     fn grouping(&self) -> Grouping {
///         Grouping::Standard
///     }
///
///     fn separator(&self) -> SeparatorStr<'_> {
///         SeparatorStr::of(" ")
///     }
///
///     // and five more
/// }
/// ```
pub trait Format {
    ghost answers: { Self → FormatData };

    /// Returns the decimal mark.
    ///
    /// ```rust
    /// Format::decimal(&Locale::de)    // ","
    /// ```
    fn decimal(&self) -> DecimalStr<'_>
        ensures { result ≡ (answers self.now).decimal };

    /// Returns how the digits of a whole number are grouped.
    ///
    /// ```rust
    /// Format::grouping(&Locale::hi)    // Grouping::Indian
    /// ```
    fn grouping(&self) -> Grouping
        ensures { result ≡ (answers self.now).grouping };

    /// Returns the text for infinity.
    ///
    /// ```rust
    /// Format::infinity(&Locale::en)    // "∞"
    /// ```
    fn infinity(&self) -> InfinityStr<'_>
        ensures { result ≡ (answers self.now).infinity };

    /// Returns the minus sign, with which each negative number begins.
    ///
    /// ```rust
    /// Format::minus_sign(&Locale::sv)    // "−"
    /// ```
    fn minus_sign(&self) -> MinusSignStr<'_>
        ensures { result ≡ (answers self.now).minus_sign };

    /// Returns the text for NaN.
    ///
    /// ```rust
    /// Format::nan(&Locale::en)    // "NaN"
    /// ```
    fn nan(&self) -> NanStr<'_>
        ensures { result ≡ (answers self.now).nan };

    /// Returns the plus sign. Whole numbers are printed without it.
    ///
    /// ```rust
    /// Format::plus_sign(&Locale::en)    // "+"
    /// ```
    fn plus_sign(&self) -> PlusSignStr<'_>
        ensures { result ≡ (answers self.now).plus_sign };

    /// Returns the separator between groups of digits.
    ///
    /// ```rust
    /// Format::separator(&Locale::de)    // "."
    /// ```
    fn separator(&self) -> SeparatorStr<'_>
        ensures { result ≡ (answers self.now).separator };

    /// Returns whether the minus sign and the separator are known to have only characters that those of locales have,
    /// of which none is numeric. Strict parsing looks at the characters of other formats with each text, but a parser
    /// that is kept for many texts does once.
    ///
    /// ```rust
    /// Format::has_common_symbols(&Locale::en)    // true
    /// ```
    fn has_common_symbols(&self) -> bool
        ensures { IsTrue result → HasCommonSymbols (answers self.now) }
    {
        false
    }
}
