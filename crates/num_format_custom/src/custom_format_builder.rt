//! A builder of custom formats.
ghost use Rattle.std.specs.Prelude.{◌≡◌};
ghost use Rattle.num_format_custom.specs.Building.{SetDecimal, SetFormat, SetGrouping, SetInfinity, SetMinusSign};
ghost use Rattle.num_format_custom.specs.Building.{SetNan, SetPlusSign, SetSeparator, after_call, built, choices_of};
ghost use Rattle.num_format_locale.specs.Data.{locale_data};

use crate::choice::Choice;
use crate::custom_format::CustomFormat;
use num_format_locale::Locale;
use num_format_text::capacities::{
    MAX_DEC_LEN, MAX_INF_LEN, MAX_MIN_LEN, MAX_NAN_LEN, MAX_PLUS_LEN, MAX_SEP_LEN,
};
use num_format_text::{Error, Format, Grouping};
use std::marker::Model;

/// A builder of a [`CustomFormat`]. A contract sees in each field a value, or the length of a text
/// that is too long.
///
/// [`CustomFormat::builder`] starts with the data of the locale `en`, and
/// [`CustomFormat::into_builder`] with those of a format. A setter replaces the value of its field,
/// and never fails: where its text is longer than the field's capacity,
/// [`build`](CustomFormatBuilder::build) returns the error, unless a later call replaces that text.
///
/// Two builders are equal exactly if they have the same in each field.
///
/// ```rust
/// CustomFormat::builder().separator("").build()?.separator()    // ""
/// CustomFormat::builder().separator("123456789").build()
/// // Err(Error { kind: Capacity { len: 9, cap: 8 } })
/// ```
#[derive(Clone, Debug, Drop, PartialEq, Eq, Hash)]
pub struct CustomFormatBuilder {
    decimal: Choice<MAX_DEC_LEN>,
    grouping: Grouping,
    infinity: Choice<MAX_INF_LEN>,
    minus_sign: Choice<MAX_MIN_LEN>,
    nan: Choice<MAX_NAN_LEN>,
    plus_sign: Choice<MAX_PLUS_LEN>,
    separator: Choice<MAX_SEP_LEN>,
}

impl Model for CustomFormatBuilder {
    ghost use Rattle.num_format_custom.specs.Building.{Choices};

    ghost Value = { Choices };

    ghost view = { λ b. record {
      decimal = b.decimal;
      grouping = b.grouping;
      infinity = b.infinity;
      minus_sign = b.minus_sign;
      nan = b.nan;
      plus_sign = b.plus_sign;
      separator = b.separator;
    } };

    ghost inverse = { λ b. record {
      decimal = b.decimal;
      grouping = b.grouping;
      infinity = b.infinity;
      minus_sign = b.minus_sign;
      nan = b.nan;
      plus_sign = b.plus_sign;
      separator = b.separator;
    } };
}

impl CustomFormatBuilder {
    /// Sets the decimal mark, of at most [`MAX_DEC_LEN`] bytes.
    ///
    /// ```rust
    /// CustomFormat::builder().decimal(",").build()?.decimal()    // ","
    /// ```
    pub fn decimal(self, text: &str) -> CustomFormatBuilder
        ensures { result ≡ after_call self (SetDecimal text.now) }
    {
        CustomFormatBuilder {
            decimal: Choice::new(text),
            ..self
        }
    }

    /// Sets the grouping of the digits.
    ///
    /// ```rust
    /// CustomFormat::builder().grouping(Grouping::Indian).build()?.grouping()    // Grouping::Indian
    /// ```
    pub fn grouping(self, grouping: Grouping) -> CustomFormatBuilder
        ensures { result ≡ after_call self (SetGrouping grouping) }
    {
        CustomFormatBuilder { grouping, ..self }
    }

    /// Sets the text for infinity, of at most [`MAX_INF_LEN`] bytes.
    ///
    /// ```rust
    /// CustomFormat::builder().infinity("oo").build()?.infinity()    // "oo"
    /// ```
    pub fn infinity(self, text: &str) -> CustomFormatBuilder
        ensures { result ≡ after_call self (SetInfinity text.now) }
    {
        CustomFormatBuilder {
            infinity: Choice::new(text),
            ..self
        }
    }

    /// Sets the minus sign, of at most [`MAX_MIN_LEN`] bytes.
    ///
    /// ```rust
    /// CustomFormat::builder().minus_sign("~").build()?.minus_sign()    // "~"
    /// ```
    pub fn minus_sign(self, text: &str) -> CustomFormatBuilder
        ensures { result ≡ after_call self (SetMinusSign text.now) }
    {
        CustomFormatBuilder {
            minus_sign: Choice::new(text),
            ..self
        }
    }

    /// Sets the text for NaN, of at most [`MAX_NAN_LEN`] bytes.
    ///
    /// ```rust
    /// CustomFormat::builder().nan("-").build()?.nan()    // "-"
    /// ```
    pub fn nan(self, text: &str) -> CustomFormatBuilder
        ensures { result ≡ after_call self (SetNan text.now) }
    {
        CustomFormatBuilder {
            nan: Choice::new(text),
            ..self
        }
    }

    /// Sets the plus sign, of at most [`MAX_PLUS_LEN`] bytes.
    ///
    /// ```rust
    /// CustomFormat::builder().plus_sign("").build()?.plus_sign()    // ""
    /// ```
    pub fn plus_sign(self, text: &str) -> CustomFormatBuilder
        ensures { result ≡ after_call self (SetPlusSign text.now) }
    {
        CustomFormatBuilder {
            plus_sign: Choice::new(text),
            ..self
        }
    }

    /// Sets the separator between groups of digits, of at most [`MAX_SEP_LEN`] bytes.
    ///
    /// ```rust
    /// CustomFormat::builder().separator("_").build()?.separator()    // "_"
    /// ```
    pub fn separator(self, text: &str) -> CustomFormatBuilder
        ensures { result ≡ after_call self (SetSeparator text.now) }
    {
        CustomFormatBuilder {
            separator: Choice::new(text),
            ..self
        }
    }

    /// Sets all seven fields to the data of a format.
    ///
    /// ```rust
    /// CustomFormat::builder().format(&Locale::fr).build()? == CustomFormat::from(Locale::fr)    // true
    /// ```
    pub fn format<F: Format>(self, format: &F) -> CustomFormatBuilder
        ensures { result ≡ after_call self (SetFormat (F.answers format.now)) }
    {
        CustomFormatBuilder::from(CustomFormat::of(format))
    }

    /// Returns the format with the last value of each field.
    ///
    /// ```rust
    /// let builder = CustomFormat::builder().minus_sign("123456789");
    /// builder.build()    // Err(Error { kind: Capacity { len: 9, cap: 8 } })
    /// ```
    ///
    /// # Errors
    ///
    /// Returns the error of the first field whose last text was refused, in the order decimal
    /// mark, infinity, minus sign, NaN, plus sign, separator. It is an
    /// [`ErrorKind::Capacity`](num_format_text::ErrorKind::Capacity), with both lengths in bytes.
    pub fn build(self) -> Result<CustomFormat, Error>
        ensures { result ≡ built self }
    {
        Ok(CustomFormat {
            decimal: self.decimal.into_text()?,
            grouping: self.grouping,
            infinity: self.infinity.into_text()?,
            minus_sign: self.minus_sign.into_text()?,
            nan: self.nan.into_text()?,
            plus_sign: self.plus_sign.into_text()?,
            separator: self.separator.into_text()?,
        })
    }
}

impl From<CustomFormat> for CustomFormatBuilder {
    ghost from_gives = { λ format builder. builder ≡ choices_of format };

    /// Returns a builder that starts with the data of the format.
    fn from(format: CustomFormat) -> CustomFormatBuilder {
        CustomFormatBuilder {
            decimal: Choice::from(format.decimal),
            grouping: format.grouping,
            infinity: Choice::from(format.infinity),
            minus_sign: Choice::from(format.minus_sign),
            nan: Choice::from(format.nan),
            plus_sign: Choice::from(format.plus_sign),
            separator: Choice::from(format.separator),
        }
    }
}

impl From<Locale> for CustomFormatBuilder {
    ghost from_gives = { λ locale builder. builder ≡ choices_of (locale_data locale) };

    /// Returns a builder that starts with the data of the locale.
    fn from(locale: Locale) -> CustomFormatBuilder {
        CustomFormatBuilder::from(CustomFormat::of(&locale))
    }
}
