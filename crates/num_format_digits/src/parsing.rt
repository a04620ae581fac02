//! Parsing of a text in one digit set, strictly or by any parser of texts in `0` to `9`.
ghost use Rattle.std.specs.Prelude.{◌≡◌, ◌≤◌, None, Ok, IfOk, IfSome, IsUtf8, MatchResult, length};
ghost use Rattle.std.specs.Str.{chars};
ghost use Rattle.num_format_decimal.specs.declared.buffer.TheConstants.{MAX_DECIMAL_LEN};
ghost use Rattle.num_format_decimal.specs.Ways.{at_scale, decimals, numbers, placed, placed_at_scale};
ghost use Rattle.num_format_digits.specs.Digits.{HasOneSet, ascii_of, other_from};
ghost use Rattle.num_format_digits.specs.Parsing.{InDigits, IsTextCause, ParsesDigits};

use crate::digits::Digits;
use num_format_decimal::{
    AtScale, Decimal, DecimalParser, MAX_DECIMAL_LEN, ParseAtScaleError, Placed, TextParser,
};
use num_format_parsing::{FromFormattedStr, StrictError, StrictParser};
use num_format_rewriting::{rewrite, split_first};
use num_format_text::Format;

/// Why a text was refused as a number in a digit set. `E` is the error of the parser.
#[derive(Clone, Copy, Debug, PartialEq, Eq)]
pub enum DigitsError<E> {
    /// The first numeric character of the text that is no digit of the set begins after `at` bytes: a digit of
    /// another set, as `3` in a text of Arabic-Indic digits, or any other numeral, as `²`.
    OtherNumeral {
        /// The number of bytes before the character.
        at: usize,
    },
    /// With `0` to `9` for its digits the text has more bytes than the text of any number.
    TooLong,
    /// The cause of that parsing: first `AmbiguousFormat`, whatever the text, and else that of the text with `0` to
    /// `9` for its digits. A place counts the bytes of the text that was given.
    Number(E),
}

impl Digits {
    /// Returns the number for which the text is canonical in the digits of the set: the text with `0` to `9` for them
    /// is canonical for it under the format.
    ///
    /// ```rust
    /// let arab = Digits::of_locale(Locale::ar_EG);
    /// arab.parse_strict::<i32, _>("\u{61c}-١٬٢٣٤", &Locale::ar_EG)    // Ok(-1234)
    /// arab.parse_strict::<i32, _>("1٬234", &Locale::ar_EG)            // Err(OtherNumeral { at: 0 })
    /// arab.parse_strict::<i32, _>("١٢ ٣", &Locale::ar_EG)             // Err(Number(Unexpected { at: 4 }))
    /// ```
    pub fn parse_strict<N: FromFormattedStr, F: Format>(
        self,
        text: &str,
        format: &F,
    ) -> Result<N, DigitsError<StrictError>>
        ensures { InDigits (numbers N.kind N.value) placed (F.answers format.now) self text.now result }
    {
        match StrictParser::new(format) {
            Ok(parser) => self.parse_by(text, &parser),
            Err(error) => Err(DigitsError::Number(error)),
        }
    }

    /// Returns the number for which bytes are canonical in the digits of the set, or `None` where only
    /// [`parse_strict`](Digits::parse_strict) can tell, as for a text that is refused.
    ///
    /// It sees the digits of the set and copies all else: what is parsed then shows that the bytes are a text of one
    /// set.
    pub fn parse_shown<N: FromFormattedStr, F: Format>(self, text: &[u8], format: &F) -> Option<N>
        ensures { IfSome result (λ n. IsUtf8 text.now
            × InDigits (numbers N.kind N.value) placed (F.answers format.now) self text.now (Ok n)) }
    {
        format.minus_sign().into_str();
        format.separator().into_str();
        let Ok(parser) = StrictParser::new(format) else {
            return None;
        };
        let mut array = [0; MAX_DECIMAL_LEN];
        let (len, _) = self.take_text(text, &mut array)?;
        parser.number(&array[..len])
    }

    /// Does the same for a decimal, if all other characters of the text are ASCII or symbols of locales.
    pub fn parse_shown_decimal<F: Format>(self, text: &[u8], format: &F) -> Option<Decimal>
        ensures { IfSome result (λ d. IsUtf8 text.now
            × InDigits decimals placed (F.answers format.now) self text.now (Ok d)) }
    {
        let parser = DecimalParser::new(format).ok()?;
        self.parse_shown_by(text, &parser)
    }

    /// Returns the decimal for which the text is canonical in the digits of the set.
    ///
    /// ```rust
    /// let arabext = Digits::of_locale(Locale::fa);
    /// arabext.parse_decimal("۱٬۲۳۴٫۵۰", &Locale::fa)    // Ok(1234.50)
    /// ```
    pub fn parse_decimal<F: Format>(
        self,
        text: &str,
        format: &F,
    ) -> Result<Decimal, DigitsError<StrictError>>
        ensures { InDigits decimals placed (F.answers format.now) self text.now result }
    {
        match DecimalParser::new(format) {
            Ok(decimals) => self.parse_by(text, &decimals),
            Err(error) => Err(DigitsError::Number(error)),
        }
    }

    /// Returns the decimal for which the text is canonical in the digits of the set, rescaled to a scale: the same
    /// number, or an error.
    ///
    /// ```rust
    /// let arabext = Digits::of_locale(Locale::fa);
    /// arabext.parse_at_scale("۱٬۲۳۴٫۵", 2, &Locale::fa)    // Ok(1234.50)
    /// arabext.parse_at_scale("۱٫۲۵۵", 2, &Locale::fa)      // Err(Number(Rescale(DigitsLost)))
    /// ```
    pub fn parse_at_scale<F: Format>(
        self,
        text: &str,
        scale: u8,
        format: &F,
    ) -> Result<Decimal, DigitsError<ParseAtScaleError>>
        ensures { InDigits (at_scale scale) placed_at_scale (F.answers format.now) self text.now result }
    {
        match DecimalParser::new(format) {
            Ok(parser) => self.parse_by(text, &AtScale { parser, scale }),
            Err(error) => Err(DigitsError::Number(ParseAtScaleError::Parse(error))),
        }
    }

    /// Returns what a parser returns of the text with `0` to `9` for the digits of the set. A place in an error counts
    /// the bytes of the text that was given.
    ///
    /// The parsers of num_format_typed return the number that a person means. (No data type is meant.)
    ///
    /// ```rust
    /// let arab = Digits::of_locale(Locale::ar_EG);
    /// arab.parse_by::<i32, _>(" -١٬٢٣٤", &TypedParser::new(&Locale::ar_EG)?)    // Ok(-1234)
    /// let parser = TypedDecimals::new(&Locale::ar_EG)?;
    /// arab.parse_by("+١٢٫٥", &TypedAtScale { parser, scale: 2 })                // Ok(12.50)
    /// ```
    pub fn parse_by<T, P: TextParser<T>>(
        self,
        text: &str,
        parser: &P,
    ) -> Result<T, DigitsError<P::Error>>
        ensures { ParsesDigits P.Error.placed ((P.way parser.now).Returns (P.format parser.now))
            self text.now result }
    {
        let mut array = [0; MAX_DECIMAL_LEN];
        let ascii = self.to_ascii(text, &mut array)?;
        match parser.parse_text(ascii) {
            Ok(number) => Ok(number),
            Err(error) => Err(DigitsError::Number(error.placed(&self, text))),
        }
    }

    /// Does the same for bytes, or returns `None` where only [`parse_by`](Digits::parse_by) can tell, as for a text
    /// that is refused, or one with other symbols than those of locales.
    #[inline(never)]
    pub fn parse_shown_by<T, P: TextParser<T>>(self, text: &[u8], parser: &P) -> Option<T>
        ensures { IfSome result (λ x. IsUtf8 text.now
            × ParsesDigits P.Error.placed ((P.way parser.now).Returns (P.format parser.now)) self text.now (Ok x)) }
    {
        let mut array = [0; MAX_DECIMAL_LEN];
        let len = self.take_plain(text, &mut array)?;
        parser.parse_text(&array[..len]).ok()
    }

    /// Writes the text with `0` to `9` for the digits of the set to the start of an array, and returns these bytes, or
    /// why it is refused.
    pub fn to_ascii<'s, E>(
        self,
        text: &str,
        array: &'s mut [u8],
    ) -> Result<&'s [u8], DigitsError<E>>
        requires { length array.old ≡ MAX_DECIMAL_LEN }
        ensures text { MatchResult result
            (λ ascii. HasOneSet self text.now × (ascii.now ≡ ascii_of self text.now))
            (λ e. IsTextCause self text.now e) }
        ensures fits { IfOk result (λ ascii. length ascii.now ≤ MAX_DECIMAL_LEN) }
    {
        if let Some(len) = self.take_plain(text.as_bytes(), array) {
            return Ok(&array[..len]);
        }
        self.rewrite(text, array)
    }

    /// Does the same character by character.
    #[cold]
    #[inline(never)]
    fn rewrite<'s, E>(self, text: &str, array: &'s mut [u8]) -> Result<&'s [u8], DigitsError<E>>
        requires { length array.old ≡ MAX_DECIMAL_LEN }
        ensures text { MatchResult result
            (λ ascii. HasOneSet self text.now × (ascii.now ≡ ascii_of self text.now))
            (λ e. IsTextCause self text.now e) }
        ensures fits { IfOk result (λ ascii. length ascii.now ≤ MAX_DECIMAL_LEN) }
    {
        if let Some(at) = self.find_other(text) {
            return Err(DigitsError::OtherNumeral { at });
        }
        match rewrite("", text, &self, array) {
            Some(ascii) => Ok(ascii),
            None => Err(DigitsError::TooLong),
        }
    }

    /// Returns how many bytes stand before the first numeric character that is no digit of the set.
    fn find_other(self, text: &str) -> Option<usize>
        ensures { result ≡ other_from self 0 (chars text.now) }
    {
        let mut at = 0;
        let mut left = text;
        while let Some((c, rest)) = split_first(left) {
            if self.is_other(c) {
                return Some(at);
            }
            at += c.len_utf8();
            left = rest;
        }
        None
    }
}
