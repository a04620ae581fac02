//! The rules that options of the command line ask for.
ghost use Rattle.std.specs.Prelude.{◌≡◌};
ghost use Rattle.std.specs.List.{list_all, list_any};
ghost use Rattle.std.specs.Str.{chars};
ghost use Rattle.regroup_stream.specs.Options.{affixes_of, cause_of_option, delimiter_named, delimiter_of, invalid_of};
ghost use Rattle.regroup_stream.specs.Options.{is_affix, is_mark, is_of_number, line_end_of, output_delimiter_named};
ghost use Rattle.regroup_stream.specs.Options.{output_of, rules_of, span_of};

use regroup_lines::{FieldRange, Fields, Invalid, Output, Quoting, Reading, Rules, Span};

/// The most bytes of a line, without the byte that ends it.
const MAX_LINE_LEN: u32 = 1_048_576;

/// What the options say of lines.
///
/// ```rust
/// let list = [FieldRange { first: 3, last: Some(3) }];
/// let options = Options {
///     list: &list,
///     has_names: false,
///     delimiter: Some(";"),
///     blanks: false,
///     csv: false,
///     output_delimiter: None,
///     quoting: Quoting::Keep,
///     only: false,
///     affixes: Some(&["EUR", "%"]),
///     reading: Reading { parsing: Parsing::Strict, scale: None },
///     header_lines: 0,
///     passes_empty: false,
///     invalid: None,
///     rejects: true,
///     zero_terminated: false,
/// };
/// options.rules().unwrap().invalid                                      // Fail
/// Options { delimiter: Some("::"), ..options }.rules().err()            // Some(LongDelimiter)
/// Options { affixes: Some(&["-"]), ..options }.rules().err()            // Some(BarredAffix)
/// Options { invalid: Some(Invalid::Abort), ..options }.rules().err()    // Some(AbortingRejects)
/// ```
#[derive(Clone, Copy, Debug)]
pub struct Options<'a, 'w> {
    /// The fields that are chosen by their numbers, with a range of field 0 in place of each name.
    pub list: &'a [FieldRange],
    /// Whether fields are chosen by names too. Where none is chosen, each line has one number.
    pub has_names: bool,
    /// The delimiter, if one is given.
    pub delimiter: Option<&'w str>,
    /// Whether runs of the delimiter separate fields, which is a space if none is given.
    pub blanks: bool,
    /// Whether fields may be in quotes.
    pub csv: bool,
    /// The delimiter that is written, if it is another one.
    pub output_delimiter: Option<&'w str>,
    /// Which fields are written in quotes.
    pub quoting: Quoting,
    /// Whether the chosen fields alone are written.
    pub only: bool,
    /// The texts that may be before or after a number, if there are any.
    pub affixes: Option<&'a [&'a str]>,
    /// How the numbers are read.
    pub reading: Reading,
    /// How many lines at the start are passed on.
    pub header_lines: u64,
    /// Whether a place is passed on where a number has no byte.
    pub passes_empty: bool,
    /// What is done with a line at fault, if that is given.
    pub invalid: Option<Invalid>,
    /// Whether lines at fault are written to a file of their own.
    pub rejects: bool,
    /// Whether lines end with NUL.
    pub zero_terminated: bool,
}

/// What is wrong with options.
#[derive(Clone, Copy, Debug, PartialEq, Eq)]
pub enum OptionFault {
    /// Fields are chosen by names, and no line is a header.
    NamesWithoutHeader,
    /// The delimiter is not one ASCII character.
    LongDelimiter,
    /// The delimiter is a quote, and fields may be in quotes.
    QuoteDelimiter,
    /// The delimiter that is written is not one ASCII character.
    LongOutputDelimiter,
    /// The delimiter that is written is a quote, or ends lines, as a carriage return may.
    BarredOutputDelimiter,
    /// A text that may be before or after a number is empty, or has a character that a number may have.
    BarredAffix,
    /// A line at fault ends the run, so that none would be written to the file of such lines.
    AbortingRejects,
}

impl<'a> Options<'a, '_> {
    /// Returns how lines are regrouped.
    ///
    /// # Errors
    ///
    /// Returns the first fault of the options, in the order of [`OptionFault`].
    pub fn rules(&self) -> Result<Rules<'a>, OptionFault>
        ensures { result ≡ rules_of self.now }
    {
        Ok(Rules {
            span: self.span()?,
            affixes: self.affixes()?,
            reading: self.reading,
            header_lines: self.header_lines,
            passes_empty: self.passes_empty,
            invalid: self.invalid()?,
            rejects: self.rejects,
            line_end: self.line_end(),
            max_line_len: MAX_LINE_LEN,
            flushes: true,
        })
    }

    /// Returns where the numbers of a line are.
    fn span(&self) -> Result<Span<'a>, OptionFault>
        ensures { result ≡ span_of self.now }
    {
        if self.list.is_empty() && !self.has_names {
            return Ok(Span::Trimmed);
        }
        if self.has_names && self.header_lines == 0 {
            return Err(OptionFault::NamesWithoutHeader);
        }
        let delimiter = self.delimiter()?;
        Ok(Span::Fields(Fields {
            list: self.list,
            delimiter,
            quotes: self.csv,
            output: self.output(delimiter)?,
            only: self.only,
            blanks: self.blanks,
        }))
    }

    /// Returns the byte between two fields.
    fn delimiter(&self) -> Result<u8, OptionFault>
        ensures { result ≡ delimiter_of self.now self.now.delimiter }
    {
        match self.delimiter {
            None if self.blanks => Ok(b' '),
            None => Ok(if self.csv { b',' } else { b'\t' }),
            Some("\"") if self.csv => Err(OptionFault::QuoteDelimiter),
            Some(text) => delimiter_named(text).ok_or(OptionFault::LongDelimiter),
        }
    }

    /// Returns how fields are written that have this delimiter between them, if they are not passed on.
    fn output(&self, delimiter: u8) -> Result<Option<Output>, OptionFault>
        ensures { result ≡ output_of self.now delimiter self.now.output_delimiter self.now.quoting }
    {
        let quoting = self.quoting;
        match (self.output_delimiter, quoting) {
            (None, Quoting::Keep) => Ok(None),
            (None, Quoting::Necessary | Quoting::Bare) => Ok(Some(Output { delimiter, quoting })),
            (Some(text), _) => Ok(Some(Output {
                delimiter: self.output_delimiter_named(text)?,
                quoting,
            })),
        }
    }

    /// Returns the byte that a text names as the delimiter that is written.
    fn output_delimiter_named(&self, text: &str) -> Result<u8, OptionFault>
        ensures { result ≡ output_delimiter_named self.now text.now }
    {
        let delimiter = delimiter_named(text).ok_or(OptionFault::LongOutputDelimiter)?;
        if matches!(delimiter, b'"' | b'\r') || delimiter == self.line_end() {
            return Err(OptionFault::BarredOutputDelimiter);
        }
        Ok(delimiter)
    }

    /// Returns the texts that may be before or after a number.
    fn affixes(&self) -> Result<Option<&'a [&'a str]>, OptionFault>
        ensures { result ≡ affixes_of self.now.affixes }
    {
        match self.affixes {
            None => Ok(None),
            Some(affixes) if are_affixes(affixes) => Ok(Some(affixes)),
            Some(_) => Err(OptionFault::BarredAffix),
        }
    }

    /// Returns the byte that ends a line.
    fn line_end(&self) -> u8
        ensures { result ≡ line_end_of self.now }
    {
        if self.zero_terminated { b'\0' } else { b'\n' }
    }

    /// Returns what is done with a line at fault.
    fn invalid(&self) -> Result<Invalid, OptionFault>
        ensures { result ≡ invalid_of self.now.invalid self.now.rejects }
    {
        match (self.invalid, self.rejects) {
            (None, false) => Ok(Invalid::Abort),
            (None, true) => Ok(Invalid::Fail),
            (Some(Invalid::Abort), true) => Err(OptionFault::AbortingRejects),
            (Some(invalid), _) => Ok(invalid),
        }
    }
}

/// Returns the byte that a text names as a delimiter, if it names one.
fn delimiter_named(text: &str) -> Option<u8>
    ensures { result ≡ delimiter_named text.now }
{
    match text.as_bytes() {
        b"\\t" => Some(b'\t'),
        [byte] if byte.is_ascii() => Some(*byte),
        _ => None,
    }
}

/// Returns whether each of these texts may be before or after a number.
fn are_affixes(texts: &[&str]) -> bool
    ensures { result ≡ list_all (λ text. is_affix text.now) texts.now }
{
    texts.iter().all(|text| is_affix(text))
}

/// Returns whether a text may be before or after a number: it has a character, and none that a number may have.
fn is_affix(text: &str) -> bool
    ensures { result ≡ is_affix text.now }
{
    !text.is_empty() && !is_any_of_number(text)
}

/// Returns whether a text has a character that a number may have.
fn is_any_of_number(text: &str) -> bool
    ensures { result ≡ list_any is_of_number (chars text.now) }
{
    text.chars().any(is_of_number)
}

/// Returns whether a character is one that numbers have, or that is typed or printed for one: a digit or another
/// numeral, a blank or a mark.
fn is_of_number(c: char) -> bool
    ensures { result ≡ is_of_number c }
{
    c.is_numeric() || c.is_whitespace() || is_mark(c)
}

/// Returns whether a character is a sign, comma, point, apostrophe, quote or dash, or a mark of the direction of
/// writing.
fn is_mark(c: char) -> bool
    ensures { result ≡ is_mark c }
{
    matches!(
        c,
        '"' | '\'' | '+'..='.' | '`' | '\u{b4}' | '\u{2bc}' | '\u{61c}' | '\u{66b}'..='\u{66c}'
            | '\u{200b}'..='\u{201f}' | '\u{202a}'..='\u{202e}' | '\u{2060}'..='\u{206f}' | '\u{2212}'
            | '\u{fe50}'..='\u{fe63}' | '\u{ff07}'..='\u{ff0e}'
    )
}

impl OptionFault {
    /// Returns what is said of it.
    ///
    /// ```rust
    /// OptionFault::QuoteDelimiter.cause()    // "the delimiter is a quote"
    /// ```
    pub fn cause(self) -> &'static str
        ensures { result.now ≡ cause_of_option self }
    {
        match self {
            OptionFault::NamesWithoutHeader => "a name in '--field' requires '--header'",
            OptionFault::LongDelimiter => "the delimiter is not one ASCII character",
            OptionFault::QuoteDelimiter => "the delimiter is a quote",
            OptionFault::LongOutputDelimiter => "the output delimiter is not one ASCII character",
            OptionFault::BarredOutputDelimiter => "the output delimiter is a quote or ends lines",
            OptionFault::BarredAffix => "an affix is empty, or has a character that numbers have",
            OptionFault::AbortingRejects => "option '--rejects' allows no '--invalid abort'",
        }
    }
}
