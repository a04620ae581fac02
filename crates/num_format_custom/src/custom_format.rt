//! A format with seven fields of the caller's choice.
ghost use Rattle.std.specs.Prelude.{◌≡◌, ◌≤◌, length};
ghost use Rattle.num_format_custom.specs.Building.{choices_of, custom_format};
ghost use Rattle.num_format_text.specs.English.{english};
ghost use Rattle.num_format_locale.specs.Data.{locale_data};

use crate::custom_format_builder::CustomFormatBuilder;
use num_format_locale::Locale;
use num_format_text::capacities::{
    MAX_DEC_LEN, MAX_INF_LEN, MAX_MIN_LEN, MAX_NAN_LEN, MAX_PLUS_LEN, MAX_SEP_LEN,
};
use num_format_text::strings::{
    DecimalStr, InfinityStr, MinusSignStr, NanStr, PlusSignStr, SeparatorStr,
};
use num_format_text::{BoundedString, Error, Format, Grouping};
use std::marker::Model;

/// A format with seven fields of the caller's choice. A contract sees them as `FormatData`.
///
/// A [`CustomFormatBuilder`] builds one:
///
/// ```rust
/// let format = CustomFormat::builder()
///     .grouping(Grouping::Indian)
///     .separator("'")
///     .build()?;
/// Buffer::of(&1000000, &format).as_str()    // "10'00'000"
/// ```
///
/// Two formats are equal exactly if all seven fields are. The seven getters return the fields as they
/// are. The methods of [`Format`] return the texts as
/// the types of [`utils`](crate::utils).
#[derive(Clone, Debug, Drop, PartialEq, Eq, Hash)]
pub struct CustomFormat {
    pub(crate) decimal: BoundedString<MAX_DEC_LEN>,
    pub(crate) grouping: Grouping,
    pub(crate) infinity: BoundedString<MAX_INF_LEN>,
    pub(crate) minus_sign: BoundedString<MAX_MIN_LEN>,
    pub(crate) nan: BoundedString<MAX_NAN_LEN>,
    pub(crate) plus_sign: BoundedString<MAX_PLUS_LEN>,
    pub(crate) separator: BoundedString<MAX_SEP_LEN>,
}

impl Model for CustomFormat {
    ghost use Rattle.num_format_text.specs.Format.{FormatData};

    ghost Value = { FormatData };

    ghost view = { λ f. record {
      decimal = f.decimal;
      grouping = f.grouping;
      infinity = f.infinity;
      minus_sign = f.minus_sign;
      nan = f.nan;
      plus_sign = f.plus_sign;
      separator = f.separator;
    } };

    ghost inverse = { λ f. record {
      decimal = f.decimal;
      grouping = f.grouping;
      infinity = f.infinity;
      minus_sign = f.minus_sign;
      nan = f.nan;
      plus_sign = f.plus_sign;
      separator = f.separator;
    } };
}

impl CustomFormat {
    /// Returns the format of the locale `en` with these three fields.
    ///
    /// The Rust crate has no such call.
    ///
    /// ```rust
    /// let format = CustomFormat::new("'", Grouping::Standard, "-")?;
    /// Buffer::of(&1000000, &format).as_str()    // "1'000'000"
    /// ```
    ///
    /// # Errors
    ///
    /// Returns the error of a field that is too long: of the minus sign before that of the separator. It is an
    /// [`ErrorKind::Capacity`](num_format_text::ErrorKind::Capacity), with both lengths in bytes.
    pub fn new(separator: &str, grouping: Grouping, minus_sign: &str) -> Result<CustomFormat, Error>
        ensures { result ≡ custom_format separator.now grouping minus_sign.now }
    {
        CustomFormat::builder()
            .separator(separator)
            .grouping(grouping)
            .minus_sign(minus_sign)
            .build()
    }

    /// Returns a format with the data of any format. It needs no memory and cannot fail.
    ///
    /// The Rust crate has no such call.
    ///
    /// ```rust
    /// CustomFormat::of(&Locale::fr).separator()    // "\u{202f}", a narrow no-break space
    /// ```
    pub fn of<F: Format>(format: &F) -> CustomFormat
        ensures { result ≡ F.answers format.now }
    {
        CustomFormat {
            decimal: BoundedString::of(format.decimal().into_str()),
            grouping: format.grouping(),
            infinity: BoundedString::of(format.infinity().into_str()),
            minus_sign: BoundedString::of(format.minus_sign().into_str()),
            nan: BoundedString::of(format.nan().into_str()),
            plus_sign: BoundedString::of(format.plus_sign().into_str()),
            separator: BoundedString::of(format.separator().into_str()),
        }
    }

    /// Returns a builder that starts with the data of the locale `en`.
    ///
    /// ```rust
    /// CustomFormat::builder().build()? == CustomFormat::from(Locale::en)    // true
    /// ```
    pub fn builder() -> CustomFormatBuilder
        ensures { result ≡ choices_of english }
    {
        CustomFormatBuilder::from(CustomFormat::default())
    }

    /// Returns a builder that starts with the data of this format.
    ///
    /// ```rust
    /// let format = CustomFormat::from(Locale::fr).into_builder().separator(".").build()?;
    /// Buffer::of(&-1000000, &format).as_str()    // "-1.000.000"
    /// ```
    pub fn into_builder(self) -> CustomFormatBuilder
        ensures { result ≡ choices_of self }
    {
        CustomFormatBuilder::from(self)
    }

    /// Returns the decimal mark, of at most [`MAX_DEC_LEN`] bytes.
    ///
    /// ```rust
    /// CustomFormat::from(Locale::de).decimal()    // ","
    /// ```
    pub fn decimal(&self) -> &str
        ensures same { result.now ≡ self.now.decimal }
        ensures fits { length result.now ≤ MAX_DEC_LEN }
    {
        self.decimal.as_str()
    }

    /// Returns the grouping of the digits.
    ///
    /// ```rust
    /// CustomFormat::from(Locale::de).grouping()    // Grouping::Standard
    /// ```
    pub fn grouping(&self) -> Grouping
        ensures { result ≡ self.now.grouping }
    {
        self.grouping
    }

    /// Returns the text for infinity, of at most [`MAX_INF_LEN`] bytes.
    ///
    /// ```rust
    /// CustomFormat::from(Locale::de).infinity()    // "∞"
    /// ```
    pub fn infinity(&self) -> &str
        ensures same { result.now ≡ self.now.infinity }
        ensures fits { length result.now ≤ MAX_INF_LEN }
    {
        self.infinity.as_str()
    }

    /// Returns the minus sign, of at most [`MAX_MIN_LEN`] bytes.
    ///
    /// ```rust
    /// CustomFormat::from(Locale::de).minus_sign()    // "-"
    /// ```
    pub fn minus_sign(&self) -> &str
        ensures same { result.now ≡ self.now.minus_sign }
        ensures fits { length result.now ≤ MAX_MIN_LEN }
    {
        self.minus_sign.as_str()
    }

    /// Returns the text for NaN, of at most [`MAX_NAN_LEN`] bytes.
    ///
    /// ```rust
    /// CustomFormat::from(Locale::de).nan()    // "NaN"
    /// ```
    pub fn nan(&self) -> &str
        ensures same { result.now ≡ self.now.nan }
        ensures fits { length result.now ≤ MAX_NAN_LEN }
    {
        self.nan.as_str()
    }

    /// Returns the plus sign, of at most [`MAX_PLUS_LEN`] bytes.
    ///
    /// ```rust
    /// CustomFormat::from(Locale::de).plus_sign()    // "+"
    /// ```
    pub fn plus_sign(&self) -> &str
        ensures same { result.now ≡ self.now.plus_sign }
        ensures fits { length result.now ≤ MAX_PLUS_LEN }
    {
        self.plus_sign.as_str()
    }

    /// Returns the separator between groups of digits, of at most [`MAX_SEP_LEN`] bytes.
    ///
    /// ```rust
    /// CustomFormat::from(Locale::de).separator()    // "."
    /// ```
    pub fn separator(&self) -> &str
        ensures same { result.now ≡ self.now.separator }
        ensures fits { length result.now ≤ MAX_SEP_LEN }
    {
        self.separator.as_str()
    }
}

impl Default for CustomFormat {
    ghost is_default = { λ f. f ≡ english };

    /// Returns the format with the data of the locale `en`.
    fn default() -> CustomFormat {
        CustomFormat {
            decimal: BoundedString::of("."),
            grouping: Grouping::Standard,
            infinity: BoundedString::of("∞"),
            minus_sign: BoundedString::of("-"),
            nan: BoundedString::of("NaN"),
            plus_sign: BoundedString::of("+"),
            separator: BoundedString::of(","),
        }
    }
}

impl From<Locale> for CustomFormat {
    ghost from_gives = { λ locale format. format ≡ locale_data locale };

    /// Returns the format with the data of the locale.
    fn from(locale: Locale) -> CustomFormat {
        CustomFormat::of(&locale)
    }
}

impl Format for CustomFormat {
    ghost answers = { λ f. f };

    fn decimal(&self) -> DecimalStr<'_> {
        self.decimal.as_bounded()
    }

    fn grouping(&self) -> Grouping {
        CustomFormat::grouping(self)
    }

    fn infinity(&self) -> InfinityStr<'_> {
        self.infinity.as_bounded()
    }

    fn minus_sign(&self) -> MinusSignStr<'_> {
        self.minus_sign.as_bounded()
    }

    fn nan(&self) -> NanStr<'_> {
        self.nan.as_bounded()
    }

    fn plus_sign(&self) -> PlusSignStr<'_> {
        self.plus_sign.as_bounded()
    }

    fn separator(&self) -> SeparatorStr<'_> {
        self.separator.as_bounded()
    }
}
