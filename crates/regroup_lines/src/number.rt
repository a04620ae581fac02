//! Numbers as decimals.
ghost use Rattle.std.specs.Prelude.{◌≡◌, None, Some, if◌then◌else◌};
ghost use Rattle.std.specs.Option.{option_and_then};
ghost use Rattle.std.specs.Result.{result_map_both};
ghost use Rattle.std.specs.Str.{is_utf8};
ghost use Rattle.num_format_typed.specs.Typed.{TypedDecimalResult};
ghost use Rattle.regroup_faults.specs.Notation.{NotationData, decimal_in, number_text};
ghost use Rattle.regroup_faults.specs.Reading.{at_scale, parsed_by, read_by};
ghost use Rattle.regroup_lines.specs.LineFaults.{line_fault_of};
ghost use Rattle.regroup_lines.specs.Lines.{number_written};

use crate::line_fault::LineFault;
use num_format::Format;
use num_format::laws::format_data;
use num_format::parsing::{FromFormattedStr, StrictError};
use num_format_decimal::{Decimal, DecimalParser, MAX_DECIMAL_LEN};
use num_format_digits::Digits;
use num_format_typed::{TypedError, TypedParser};
use regroup_faults::{Notation, Parsing, Reading, Scale};
use std::marker::Model;
use std::str;

/// A parser of the numbers of an input. It asks their format for its symbols once, but for lenient reading. A contract
/// sees it as their notation.
#[derive(Drop)]
pub(crate) struct Parser<'a, F: Format> {
    /// The format.
    format: &'a F,
    /// The digit set.
    digits: Digits,
    /// What parses decimals, unless the format is ambiguous.
    decimals: Option<DecimalParser<'a, F>>,
    /// What parses decimals as people type them, unless the format is ambiguous then.
    typed: Option<TypedParser<'a, F>>,
}

impl<'a, F: Format> Model for Parser<'a, F> {
    ghost use Rattle.std.specs.Prelude.{◌≡◌, MatchOption};
    ghost use Rattle.num_format.specs.Format.{HasUtf8Texts};
    ghost use Rattle.num_format_decimal.specs.Marks.{MarksDecimals};
    ghost use Rattle.num_format_typed.specs.Typed.{IsTypable};
    ghost use Rattle.regroup_faults.specs.Notation.{NotationData};

    ghost Value = { NotationData };

    ghost view = { λ p. record { format = F.answers p.format.now; digits = p.digits } };

    ghost invariant = { λ p. HasUtf8Texts (F.answers p.format.now)
        × MatchOption p.decimals (¬ (MarksDecimals (F.answers p.format.now)))
        (λ parser. parser ≡ F.answers p.format.now)
        × MatchOption p.typed (¬ (IsTypable (F.answers p.format.now))) (λ parser. parser ≡ F.answers p.format.now) };
}

impl<'a, F: Format> Parser<'a, F> {
    /// Returns a parser of texts in the notation.
    pub(crate) fn new(from: &Notation<'a, F>) -> Parser<'a, F>
        ensures { result ≡ from.now }
    {
        let (format, digits) = (from.format, from.digits);
        format_data(format);
        let decimals = DecimalParser::new(format).ok();
        let typed = TypedParser::new(format).ok();
        Parser {
            format,
            digits,
            decimals,
            typed,
        }
    }

    /// Returns the notation of the numbers.
    pub(crate) fn notation(&self) -> Notation<'a, F>
        ensures { result ≡ self.now }
    {
        Notation {
            format: self.format,
            digits: self.digits,
        }
    }

    /// Returns the number that is read of a text in the line of this number, or the fault of a text that is none.
    #[inline(always)]
    pub(crate) fn read<'t>(
        &self,
        reading: Reading,
        text: &'t [u8],
        number: u64,
    ) -> Result<Decimal, LineFault<'t>>
        ensures { (to : NotationData) → number_written reading self.now to number text.now
            ≡ result_map_both (number_text to) line_fault_of result }
    {
        match self.read_decimal(reading, text) {
            Some(decimal) => Ok(decimal),
            None => Err(LineFault::NotANumber(number, text)),
        }
    }

    /// Returns the decimal that is read of a text.
    #[inline(always)]
    fn read_decimal(&self, reading: Reading, text: &[u8]) -> Option<Decimal>
        ensures { result ≡ (if is_utf8 text.now then decimal_in (read_by reading) self.now text.now else None) }
    {
        if self.digits.is_latin() {
            return self.read_ascii(reading, text);
        }
        self.read_in_digits(reading, text)
    }

    /// Does the same in other digits than `0` to `9`. It is a call, so that texts in these are read without its array.
    #[cold]
    #[inline(never)]
    fn read_in_digits(&self, reading: Reading, text: &[u8]) -> Option<Decimal>
        requires { ¬ (self.now.digits ≡ 48) }
        ensures { result ≡ (if is_utf8 text.now then decimal_in (read_by reading) self.now text.now else None) }
    {
        match str::from_utf8(text) {
            Ok(text) => self.read_text(reading, text),
            Err(_) => None,
        }
    }

    /// Does the same of a text that is UTF-8.
    fn read_text(&self, reading: Reading, text: &str) -> Option<Decimal>
        requires { ¬ (self.now.digits ≡ 48) }
        ensures { result ≡ decimal_in (read_by reading) self.now text.now }
    {
        let mut array = [0; MAX_DECIMAL_LEN];
        let digits = self.digits;
        match digits.to_ascii::<StrictError>(text, &mut array) {
            Ok(ascii) => self.read_ascii(reading, ascii),
            Err(_) => None,
        }
    }

    /// Returns the decimal that is read of a text with the digits `0` to `9`.
    #[inline(always)]
    fn read_ascii(&self, reading: Reading, text: &[u8]) -> Option<Decimal>
        ensures { result ≡ (if is_utf8 text.now then read_by reading self.now.format text.now else None) }
    {
        match reading.scale {
            None => self.parse_ascii(reading.parsing, text),
            Some(scale) => self.read_scaled(scale, reading.parsing, text),
        }
    }

    /// Does the same at a scale. It is a call, so that other numbers are read without its code.
    #[inline(never)]
    fn read_scaled(&self, scale: Scale, parsing: Parsing, text: &[u8]) -> Option<Decimal>
        ensures { result ≡ (if is_utf8 text.now
            then option_and_then (at_scale (Some scale)) (parsed_by parsing self.now.format text.now) else None) }
    {
        match self.parse_ascii(parsing, text) {
            Some(number) => scale.apply(number).ok(),
            None => None,
        }
    }

    /// Returns the decimal that is parsed of a text with the digits `0` to `9`.
    #[inline(always)]
    fn parse_ascii(&self, parsing: Parsing, text: &[u8]) -> Option<Decimal>
        ensures { result ≡ (if is_utf8 text.now then parsed_by parsing self.now.format text.now else None) }
    {
        match (parsing, &self.decimals) {
            (Parsing::Strict, Some(parser)) => parser.parse_bytes(text).ok(),
            (Parsing::Strict, None) => None,
            (Parsing::Typed, _) => self.parse_typed(text).ok(),
            (Parsing::Lenient, _) => match i128::from_formatted_bytes(text, self.format) {
                Ok(value) => Some(Decimal::from(value)),
                Err(_) => None,
            },
        }
    }

    /// Returns the decimal that a person means by a text.
    fn parse_typed(&self, text: &[u8]) -> Result<Decimal, TypedError<StrictError>>
        ensures { TypedDecimalResult self.now.format text.now result }
    {
        match &self.typed {
            Some(parser) => parser.parse_decimal_bytes(text),
            None => Err(TypedError::Number(StrictError::AmbiguousFormat)),
        }
    }
}
