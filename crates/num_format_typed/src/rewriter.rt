//! What is done with a text: it is rewritten with the symbols of the format, and parsed strictly. Most texts are as the
//! format prints them, and stand for themselves: so those that begin and end like these are parsed as they are first.
ghost use Rattle.std.specs.Prelude.{◌≡◌, ◌<◌, ◌≤◌, IfSome, MatchOption, MatchResult, Err, drop, length, nat_eq, true};
ghost use Rattle.std.specs.Prelude.{false};
ghost use Rattle.std.specs.List.{list_any, starts_with};
ghost use Rattle.num_format_decimal.specs.declared.buffer.TheConstants.{MAX_DECIMAL_LEN};
ghost use Rattle.num_format_decimal.specs.Marks.{MarksDecimals};
ghost use Rattle.num_format_decimal.specs.Parsing.{DecimalResult};
ghost use Rattle.num_format_decimal.specs.Ways.{placed};
ghost use Rattle.num_format_parsing.specs.Strict.{ParsesStrictly};
ghost use Rattle.num_format_parsing.specs.declared.error.StrictError.TheVariants as strict;
ghost use Rattle.num_format_typed.specs.Typed.{HasSymbols, IsPrinted, IsTypable, TypedResult, body_of, core_of};
ghost use Rattle.num_format_typed.specs.Typed.{has_minus, is_nonzero_digit, place_in, rewritten};
ghost use Rattle.num_format_typed.specs.Typed.{separator_of, sign_of, unsigned};

use crate::classes::Class;
use crate::error::TypedError;
use crate::symbols::{Symbols, core_of, has_usual_symbols, is_typable};
use crate::trimming::{ends_in_digit, without_end, without_ends, without_front};
use crate::utf8::text_of;
use num_format_decimal::{Decimal, DecimalParser, MAX_DECIMAL_LEN};
use num_format_int::sealed::Sealed;
use num_format_parsing::bytes::is_prefix;
use num_format_parsing::{FromFormattedStr, StrictError, StrictParser};
use num_format_rewriting::{bytes_within, rewrite, split_first};
use num_format_text::Format;
use std::marker::Model;

/// Strict parsing under one format: of whole numbers of a type, or of decimals.
pub(crate) trait Strict<'a, T, F: Format>: Drop {
    ghost use Rattle.std.specs.Prelude.{◌≡◌, List, ℕ, IfSome, Ok, Result};
    ghost use Rattle.num_format_text.specs.Format.{FormatData};
    ghost use Rattle.num_format_parsing.specs.declared.error.StrictError.{StrictError};

    ghost answers: { Self → FormatData };

    ghost Taken: { FormatData → Type 0 };

    ghost Parses: { FormatData → List ℕ → Result T StrictError → Type 0 };

    /// Returns the parser under a format that it takes.
    fn under(format: &'a F) -> Self
        requires { Taken (F.answers format.now) }
        ensures { answers result ≡ F.answers format.now };

    /// Returns the number for which the text of the bytes is canonical, or `None` if they are refused. Such a text
    /// stands for itself.
    fn number(&self, bytes: &[u8]) -> Option<T>
        requires typable { IsTypable (answers self.now) }
        requires symbols { HasSymbols (answers self.now) }
        ensures { IfSome result (λ x. IsPrinted (answers self.now) bytes.now
            × Parses (answers self.now) bytes.now (Ok x)) };

    /// Returns the number for which the text of the bytes is canonical, or why they are refused.
    fn parse(&self, bytes: &[u8]) -> Result<T, StrictError>
        ensures { Parses (answers self.now) bytes.now result };
}

impl<'a, N: FromFormattedStr, F: Format> Strict<'a, N, F> for StrictParser<'a, F> {
    ghost answers = { λ p. p };

    ghost Taken = { IsTypable };

    ghost Parses = { ParsesStrictly N.kind N.value };

    #[inline(always)]
    fn under(format: &'a F) -> StrictParser<'a, F> {
        StrictParser::unambiguous(format)
    }

    #[inline(always)]
    fn number(&self, bytes: &[u8]) -> Option<N> {
        // Its contract says that no value has more than 128 bits.
        N::is_wide();
        self.number(bytes)
    }

    #[inline(always)]
    fn parse(&self, bytes: &[u8]) -> Result<N, StrictError> {
        self.parse_bytes(bytes)
    }
}

impl<'a, F: Format> Strict<'a, Decimal, F> for DecimalParser<'a, F> {
    ghost answers = { λ p. p };

    ghost Taken = { λ f. IsTypable f × MarksDecimals f };

    ghost Parses = { DecimalResult };

    #[inline(always)]
    fn under(format: &'a F) -> DecimalParser<'a, F> {
        match DecimalParser::with_numbers(format, StrictParser::unambiguous(format)) {
            Ok(parser) => parser,
            Err(_) => unreachable!(),
        }
    }

    #[inline(always)]
    fn number(&self, bytes: &[u8]) -> Option<Decimal> {
        self.decimal(bytes)
    }

    #[inline(always)]
    fn parse(&self, bytes: &[u8]) -> Result<Decimal, StrictError> {
        self.parse_bytes(bytes)
    }
}

/// Strict parsing under one format, and the symbols by which a text that it refuses is rewritten.
///
/// A contract sees it as the data of its format.
#[derive(Drop)]
pub(crate) struct Rewriter<'a, F: Format> {
    format: &'a F,
    numbers: StrictParser<'a, F>,
    mark: &'a str,
}

impl<'a, F: Format> Model for Rewriter<'a, F> {
    ghost use Rattle.std.specs.Prelude.{◌≡◌};
    ghost use Rattle.num_format_text.specs.Format.{FormatData};
    ghost use Rattle.num_format_typed.specs.Typed.{HasSymbols, IsTypable};

    ghost Value = { FormatData };

    ghost view = { λ r. r.numbers };

    ghost invariant = { λ r.
        (F.answers r.format.now ≡ r.numbers) × (r.mark.now ≡ r.numbers.decimal)
        × (IsTypable r.numbers × HasSymbols r.numbers) };
}

impl<'a, F: Format> Rewriter<'a, F> {
    /// Returns a rewriter for the format, or `AmbiguousFormat` if what people type under it has more than one meaning.
    #[inline(always)]
    pub(crate) fn new(format: &'a F) -> Result<Rewriter<'a, F>, StrictError>
        ensures { MatchResult result
            (λ rewriter. (rewriter ≡ F.answers format.now) × IsTypable (F.answers format.now))
            (λ e. (e ≡ strict.AmbiguousFormat) × ¬ (IsTypable (F.answers format.now))) }
    {
        if has_usual_symbols(format) {
            return Ok(Rewriter::typable(format));
        }
        let mark = format.decimal().into_str();
        let Ok(numbers) = StrictParser::new(format) else {
            return Err(StrictError::AmbiguousFormat);
        };
        let separator = numbers.separator();
        if !is_typable(format, Symbols { separator, mark }, numbers.minus_sign()) {
            return Err(StrictError::AmbiguousFormat);
        }
        know_symbols(format);
        Ok(Rewriter::typable(format))
    }

    /// Returns a rewriter for a format under which what people type has one meaning.
    #[inline(always)]
    fn typable(format: &'a F) -> Rewriter<'a, F>
        requires typable { IsTypable (F.answers format.now) }
        requires symbols { HasSymbols (F.answers format.now) }
        ensures { result ≡ F.answers format.now }
    {
        Rewriter {
            format,
            numbers: StrictParser::unambiguous(format),
            mark: format.decimal().into_str(),
        }
    }

    /// Returns the format.
    #[inline(always)]
    fn format(&self) -> &'a F
        ensures same { F.answers result.now ≡ self.now }
        ensures typable { IsTypable self.now }
    {
        self.format
    }

    /// Returns the number that a person means by the text of the bytes. `parser` is the strict one of the same format.
    #[inline(always)]
    pub(crate) fn parse<T, P: Strict<'a, T, F>>(
        &self,
        parser: &P,
        bytes: &[u8],
    ) -> Result<T, TypedError<StrictError>>
        requires same { P.answers parser.now ≡ self.now }
        requires taken { P.Taken self.now }
        ensures { TypedResult P.Taken P.Parses self.now bytes.now result }
    {
        // The contract says what is known of the format.
        self.numbers();
        if self.seems_canonical(bytes) {
            if let Some(number) = parser.number(bytes) {
                return Ok(number);
            }
        }
        Rewriter::parse_rewritten::<T, P>(self.format(), bytes)
    }

    /// Does the same by the text that is stood for. It makes a rewriter of its own, so that the caller's stays in
    /// registers.
    #[cold]
    #[inline(never)]
    fn parse_rewritten<T, P: Strict<'a, T, F>>(
        format: &'a F,
        bytes: &[u8],
    ) -> Result<T, TypedError<StrictError>>
        requires typable { IsTypable (F.answers format.now) }
        requires taken { P.Taken (F.answers format.now) }
        ensures { TypedResult P.Taken P.Parses (F.answers format.now) bytes.now result }
    {
        // It is filled first, where the space of locals is cleared.
        let mut array = [0; MAX_DECIMAL_LEN];
        know_symbols(format);
        let Some(text) = text_of(bytes) else {
            return Err(TypedError::Number(StrictError::NotUtf8));
        };
        let parser = P::under(format);
        let trimmed = without_ends(text, Class::End);
        let Some(typed) = Rewriter::typable(format).rewrite(trimmed, &mut array) else {
            return Err(TypedError::TooLong);
        };
        match parser.parse(typed) {
            Ok(number) => Ok(number),
            Err(error) => Err(TypedError::Number(Rewriter::placed(format, text, error))),
        }
    }

    /// Returns whether a text begins and ends as canonical ones do. It may return either for any.
    #[inline(always)]
    fn seems_canonical(&self, bytes: &[u8]) -> bool {
        let Some(first) = bytes.first() else {
            return false;
        };
        ends_in_digit(bytes)
            && (first.is_ascii_digit()
                || self.numbers().minus_sign().as_bytes().first() == Some(first))
    }

    /// Returns the strict parser of decimals, if the format marks decimals.
    #[inline(always)]
    pub(crate) fn decimals(&self) -> Option<DecimalParser<'a, F>>
        ensures { MatchOption result (¬ (MarksDecimals self.now)) (λ d. (d ≡ self.now) × MarksDecimals self.now) }
    {
        let format = self.format();
        match DecimalParser::with_numbers(format, StrictParser::unambiguous(format)) {
            Ok(decimals) => Some(decimals),
            Err(_) => None,
        }
    }

    /// Returns the strict parser. The contract says what is known of the format.
    #[inline(always)]
    pub(crate) fn numbers(&self) -> &StrictParser<'a, F>
        ensures same { result.now ≡ self.now }
        ensures typable { IsTypable self.now }
        ensures symbols { HasSymbols self.now }
    {
        &self.numbers
    }

    /// Returns the symbols of the format that stand between digits.
    #[inline(always)]
    fn symbols(&self) -> Symbols<'a>
        ensures separator { result.separator.now ≡ separator_of self.now }
        ensures mark { result.mark.now ≡ self.now.decimal }
    {
        Symbols {
            separator: self.numbers().separator(),
            mark: self.mark,
        }
    }

    /// Writes the bytes that a trimmed text stands for to the start of an array, and returns them, or `None` if they
    /// are too many.
    #[inline(always)]
    fn rewrite<'s>(&self, text: &str, array: &'s mut [u8]) -> Option<&'s [u8]>
        requires { length array.old ≡ MAX_DECIMAL_LEN }
        ensures text { MatchOption result (MAX_DECIMAL_LEN < length (rewritten self.now text.now))
            (λ typed. typed.now ≡ rewritten self.now text.now) }
        ensures fits { IfSome result (λ typed. length typed.now ≤ MAX_DECIMAL_LEN) }
    {
        let (sign, body) = self.sign_and_body(text);
        rewrite(sign, body, &self.symbols(), array)
    }

    /// Returns the sign of what a trimmed text stands for, and what follows the sign of the text.
    #[inline(always)]
    fn sign_and_body<'t>(&self, text: &'t str) -> (&'a str, &'t str)
        ensures sign { result.0.now ≡ sign_of self.now text.now }
        ensures body { result.1.now ≡ body_of self.now text.now }
        ensures bound { length result.1.now ≤ length text.now }
    {
        let minus_sign = self.numbers().minus_sign();
        let core = core_of(minus_sign);
        let (has_minus, unsigned) = self.split_sign(text, core);
        let body = without_front(unsigned, Class::Direction);
        if has_minus && has_nonzero_digit(body) {
            return (minus_sign, body);
        }
        if is_prefix(body.as_bytes(), core.as_bytes()) {
            return (minus_sign, body);
        }
        ("", body)
    }

    /// Returns whether a trimmed text begins with a minus sign, and the text without its sign. `core` is the minus sign
    /// of the format without marks of direction at its ends.
    #[inline(always)]
    fn split_sign<'t>(&self, text: &'t str, core: &str) -> (bool, &'t str)
        requires { core.now ≡ core_of self.now }
        ensures minus { result.0 ≡ has_minus self.now text.now }
        ensures rest { result.1.now ≡ unsigned self.now text.now }
        ensures bound { length result.1.now ≤ length text.now }
    {
        if let Some(rest) = strip(text, core) {
            return (true, rest);
        }
        let Some((first, rest)) = split_first(text) else {
            return (false, text);
        };
        if Class::Minus.has(first) {
            return (true, rest);
        }
        if Class::Plus.has(first) {
            return (false, rest);
        }
        (false, text)
    }

    /// Returns an error with its place in the text that was given. The rewriter is its own, so that the caller's stays
    /// in registers.
    #[cold]
    #[inline(never)]
    fn placed(format: &'a F, text: &str, error: StrictError) -> StrictError
        requires { IsTypable (F.answers format.now) }
        ensures { result ≡ placed (place_in (F.answers format.now) text.now) error }
    {
        know_symbols(format);
        match error {
            StrictError::Unexpected { at } => StrictError::Unexpected {
                at: Rewriter::typable(format).place(text, at),
            },
            _ => error,
        }
    }

    /// Returns the place in a text of a place in what it stands for.
    fn place(&self, text: &str, at: usize) -> usize
        ensures { result ≡ place_in self.now text.now at }
    {
        let front = without_front(text, Class::End);
        let inner = without_end(front, Class::End);
        let (sign, body) = self.sign_and_body(inner);
        let start = text.len() - front.len() + (inner.len() - body.len());
        let room = at.saturating_sub(sign.len());
        start + bytes_within(room, body, &self.symbols())
    }
}

/// Asks a format for its symbols, for what the getters promise: they are UTF-8, and no longer than there is room for.
#[inline(always)]
fn know_symbols<F: Format>(format: &F)
    ensures { HasSymbols (F.answers format.now) }
{
    format.minus_sign().into_str();
    format.separator().into_str();
    format.decimal().into_str();
}

/// Returns a text without a prefix, or `None` if it does not begin with it.
#[inline(always)]
fn strip<'t>(text: &'t str, prefix: &str) -> Option<&'t str>
    ensures { MatchOption result (starts_with nat_eq text.now prefix.now ≡ false)
        (λ rest. (starts_with nat_eq text.now prefix.now ≡ true) × (rest.now ≡ drop (length prefix.now) text.now)) }
{
    if !is_prefix(text.as_bytes(), prefix.as_bytes()) {
        return None;
    }
    Some(&text[prefix.len()..])
}

/// Returns whether a text has a digit 1 to 9.
fn has_nonzero_digit(text: &str) -> bool
    ensures { result ≡ list_any is_nonzero_digit text.now }
{
    text.bytes().any(|byte| matches!(byte, b'1'..=b'9'))
}
