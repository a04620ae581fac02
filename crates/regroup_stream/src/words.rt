//! The formats that words and files name.
ghost use Rattle.std.specs.Prelude.{◌≡◌, ◌≤◌, nat_eq, codes, length, IfOk, MatchOption, string_bytes};
ghost use Rattle.std.specs.List.{list_any, starts_with};
ghost use Rattle.std.specs.Option.{option_map};
ghost use Rattle.std.specs.Result.{result_map_both};
ghost use Rattle.num_format.specs.Grouped.{printed_separator};
ghost use Rattle.num_format_decimal.specs.Marks.{MarksDecimals};
ghost use Rattle.regroup_stream.specs.Ending.{SendsMessage};
ghost use Rattle.regroup_stream.specs.Words.{IsFormatOf, IsNamed, IsReadUnder, IsUnmarked, IsUnread};
ghost use Rattle.regroup_stream.specs.Words.{LooksUpNotation, NamesCustomOrLocale, NamesFormats, latin_or_none};
ghost use Rattle.regroup_stream.specs.Words.{NamesFormatsFor, ambiguity_of, arguments_message, bare_delimiter};
ghost use Rattle.regroup_stream.specs.Words.{begins_blank, cause_of, custom_format_named, marked_format_named};
ghost use Rattle.regroup_stream.specs.Words.{message_of_wrong, misuse_message, has_byte, misfit, named_of, prints_byte};
ghost use Rattle.regroup_stream.specs.Words.{begins_with_affix, prints_delimiter, split_last};
ghost use Rattle.regroup_stream.specs.Words.{text_of_named, wrong_of};

use crate::ending::{FAILED, MISUSED, send};
use crate::files::{FileFault, format_held};
use crate::named_format::NamedFormat;
use arrayvec::ArrayString;
use num_format::{CustomFormat, Grouping, Locale};
use num_format_decimal::marks_decimals;
use num_format_digits::Digits;
use num_format_digits::printing::put_text;
use num_format_typed::TypedParser;
use regroup_faults::{MAX_FAULT_MESSAGE_LEN, Parsing, quoted};
use regroup_lines::Span;
use regroup_lines::rules::no_break_space_len;
use std::alloc::{AllocError, Global};
use std::io::{ErrorKind, Write};

/// The second line of each message about arguments.
const TRY_HELP: &str = "Try 'regroup-lines --help' for more information.\n";

/// The formats of the numbers that are read, and of those that are written.
#[derive(Drop)]
pub struct Formats {
    /// The format of the numbers that are read.
    pub from: NamedFormat,
    /// The format of the numbers that are written.
    pub to: NamedFormat,
}

/// What names a format.
#[derive(Clone, Copy, Debug)]
pub enum Source<'a> {
    /// A word: `plain`, `custom:SEP:GROUPING:MINUS[:MARK]` or a locale, which may name a digit set.
    Word(&'a str),
    /// A file of this name, with its bytes or why it cannot be read. It has the format as a JSON object with its seven
    /// fields, as [`format_to_value`](num_format::json::format_to_value) returns it. Of these `inf`, `nan` and `plus`
    /// may be missing, and are those of `en` then.
    File(&'a str, Result<&'a [u8], ErrorKind>),
}

impl<'a> Source<'a> {
    /// Returns the format, or what is wrong.
    fn format(self, alloc: Global) -> Result<NamedFormat, Misuse<'a>>
        ensures { IsFormatOf (named_of self.entry) (result_map_both (λ format. format) wrong_of result) }
    {
        match self {
            Source::Word(word) => format_named(word),
            Source::File(name, Ok(bytes)) => match format_held(alloc, bytes) {
                Ok(format) => Ok(NamedFormat::latin(format)),
                Err(fault) => Err(Misuse::BadFile(name, fault)),
            },
            Source::File(name, Err(kind)) => Err(Misuse::BadFile(name, FileFault::Unread(kind))),
        }
    }

    /// Returns the word, or the name of the file.
    fn text(self) -> &'a str
        ensures { result.now ≡ text_of_named (named_of self.entry) }
    {
        match self {
            Source::Word(text) | Source::File(text, _) => text,
        }
    }
}

/// What is wrong with words or files that do not name two formats.
#[derive(Clone, Copy, Debug, PartialEq, Eq)]
pub enum Misuse<'a> {
    /// This word names no format.
    NoFormat(&'a str),
    /// This word names no digit set after `-u-nu-`, or two.
    NoDigits(&'a str),
    /// The format that this word names, or this file holds, is ambiguous.
    Ambiguous(&'a str, Ambiguity),
    /// The file of this name holds no format, or is not that of rejected lines.
    BadFile(&'a str, FileFault),
}

impl Misuse<'_> {
    /// Sends the message, which shows the word in quotes or names the file, and returns the status: [`MISUSED`], or
    /// [`FAILED`] if not all of the message could be sent.
    ///
    /// ```rust
    /// let mut err = Vec::new(alloc);
    /// Misuse::NoFormat("xx").send(&mut err)                                  // 2
    /// err.starts_with(b"regroup-lines: 'xx' names no format\nTry 'regroup-")    // true
    /// ```
    pub fn send<E: Write>(&self, err: &mut E) -> u8
        ensures { SendsMessage (message_of_wrong (wrong_of self.now)) 2 result (E.contents err.old)
            (E.contents err.new) }
    {
        send(self.message().as_str(), MISUSED, err)
    }

    /// Returns the message.
    fn message(&self) -> ArrayString<MAX_FAULT_MESSAGE_LEN>
        ensures { result.bytes ≡ message_of_wrong (wrong_of self.now) }
    {
        match self {
            Misuse::NoFormat(word) => misuse_message(word, " names no format"),
            Misuse::NoDigits(word) => misuse_message(word, " names no digit set"),
            Misuse::Ambiguous(word, ambiguity) => misuse_message(word, ambiguity.cause()),
            Misuse::BadFile(name, fault) => fault.message(name),
        }
    }
}

/// Why not each decimal parses back from its text under a format.
#[derive(Clone, Copy, Debug, PartialEq, Eq)]
pub enum Ambiguity {
    /// The minus sign is empty.
    NoMinusSign,
    /// The decimal mark is empty.
    NoDecimalMark,
    /// The decimal mark is the separator, which is printed.
    SameSymbol,
    /// A symbol has a digit or another numeric character.
    NumeralInSymbol,
    /// Numbers are read as people type them, and the decimal mark and a separator that is printed have two unlike
    /// spaces, apostrophes, commas or points, or the minus sign has one of their kinds, or without marks of direction at
    /// its ends is empty or begins with a blank, a line end or a plus sign.
    TypedAlike,
    /// The minus sign begins with ASCII whitespace, which is not part of a number.
    BlankMinusSign,
    /// The minus sign begins with a text that may be before a number, or with a no-break space that may be after it,
    /// and is not part of it.
    AffixMinusSign,
    /// A number that is printed may have the delimiter, and no quotes are around it.
    PrintsDelimiter,
}

impl Ambiguity {
    /// Returns why a format is ambiguous that is.
    fn of(format: &CustomFormat) -> Ambiguity
        ensures { result ≡ ambiguity_of format.now }
    {
        if format.minus_sign().is_empty() {
            Ambiguity::NoMinusSign
        } else if format.decimal().is_empty() {
            Ambiguity::NoDecimalMark
        } else if format.decimal() == printed_separator(format) {
            Ambiguity::SameSymbol
        } else {
            Ambiguity::NumeralInSymbol
        }
    }

    /// Returns what is said of a format.
    fn cause(self) -> &'static str
        ensures text { result.now ≡ cause_of self }
        ensures short { length result.now ≤ 40 }
    {
        match self {
            Ambiguity::NoMinusSign => ": the minus sign is empty",
            Ambiguity::NoDecimalMark => ": the decimal mark is empty",
            Ambiguity::SameSymbol => ": the decimal mark is the separator",
            Ambiguity::NumeralInSymbol => ": a symbol has a digit",
            Ambiguity::TypedAlike => ": ambiguous as people type it",
            Ambiguity::BlankMinusSign => ": the minus sign begins with whitespace",
            Ambiguity::AffixMinusSign => ": the minus sign begins with an affix",
            Ambiguity::PrintsDelimiter => ": numbers have the delimiter: see --csv",
        }
    }
}

/// Returns the separator, if the format prints one.
fn printed_separator(format: &CustomFormat) -> &str
    ensures { result.now ≡ printed_separator format.now.grouping format.now.separator }
{
    match format.grouping() {
        Grouping::Posix => "",
        _ => format.separator(),
    }
}

/// Returns the message that shows the word with what is wrong with it: two lines.
fn misuse_message(word: &str, cause: &str) -> ArrayString<MAX_FAULT_MESSAGE_LEN>
    requires { length cause.now ≤ 40 }
    ensures { result.bytes ≡ misuse_message word.now cause.now }
{
    let mut message = ArrayString::new();
    message.push_str("regroup-lines: ");
    message.push_str(quoted(word.as_bytes()).as_str());
    message.push_str(cause);
    message.push('\n');
    message.push_str(TRY_HELP);
    message
}

/// Sends the message of arguments that are refused for this cause, and returns the status: [`MISUSED`], or [`FAILED`]
/// if there is no memory for the message, or not all of it could be sent.
///
/// ```rust
/// let mut err = Vec::new(alloc);
/// refuse_arguments(alloc, "missing operand", &mut err)              // 2
/// err.starts_with(b"regroup-lines: missing operand\nTry 'regroup-")    // true
/// ```
pub fn refuse_arguments<E: Write>(alloc: Global, cause: &str, err: &mut E) -> u8
    ensures { SendsMessage (arguments_message cause.now) 2 result (E.contents err.old) (E.contents err.new) }
{
    match arguments_message(alloc, cause) {
        Ok(message) => send(message.as_str(), MISUSED, err),
        Err(_) => FAILED,
    }
}

/// Returns the message of arguments that are refused for this cause.
///
/// # Errors
///
/// Returns an error if there is no memory for it.
fn arguments_message(alloc: Global, cause: &str) -> Result<String, AllocError>
    ensures { IfOk result (λ message. string_bytes message ≡ arguments_message cause.now) }
{
    let mut message = String::from_str(alloc, "regroup-lines: ")?;
    message.push_str(cause)?;
    message.push_str("\n")?;
    message.push_str(TRY_HELP)?;
    Ok(message)
}

/// Returns the formats that two words or files name.
///
/// A word is `plain`, as in `-1234.5`, `custom:SEP:GROUPING:MINUS` or `custom:SEP:GROUPING:MINUS:MARK`, which is the
/// format of `en` with these fields, or a locale as [`Locale::lookup`] finds it, such as `de_DE.UTF-8`, with the digits
/// that [`Digits::of_tag`] finds, as in `ar-EG-u-nu-arab`. GROUPING is the
/// last field but one if that names one, and else the last but two, so `custom:::Standard:-` has the separator `:`.
///
/// ```rust
/// formats_named(alloc, Parsing::Strict, Source::Word("C"), Source::Word("de_DE.UTF-8")).is_ok()    // true
/// formats_named(alloc, Parsing::Strict, Source::Word("C"), Source::Word("xx")).err()    // Some(NoFormat("xx"))
/// ```
///
/// # Errors
///
/// Returns what is wrong: the first has no format, or one that is ambiguous, unless numbers are read leniently; or the
/// second has no format, or one that is ambiguous.
pub fn formats_named<'a>(
    alloc: Global,
    parsing: Parsing,
    from: Source<'a>,
    to: Source<'a>,
) -> Result<Formats, Misuse<'a>>
    ensures { NamesFormats parsing (named_of from.entry) (named_of to.entry)
        (result_map_both (λ formats. (formats.from, formats.to)) wrong_of result) }
{
    let source = from.format(alloc)?;
    if let Some(ambiguity) = unread(parsing, &source.format) {
        return Err(Misuse::Ambiguous(from.text(), ambiguity));
    }
    let target = to.format(alloc)?;
    if !marks_decimals(&target.format) {
        return Err(Misuse::Ambiguous(to.text(), Ambiguity::of(&target.format)));
    }
    Ok(Formats {
        from: source,
        to: target,
    })
}

/// Returns the formats that two words or files name, as [`formats_named`] does, if numbers are told by them where the
/// rules say they are.
///
/// ```rust
/// let list = [FieldRange { first: 2, last: Some(2) }];
/// let (delimiter, quotes, output, only) = (b',', false, None, false);
/// let span = Span::Fields(Fields { list: &list, delimiter, quotes, output, only, blanks: false });
/// let (from, to) = (Source::Word("plain"), Source::Word("de"));
/// formats_for(alloc, Parsing::Strict, &span, None, from, to).err()    // Some(Ambiguous("de", PrintsDelimiter))
/// ```
///
/// # Errors
///
/// Returns the error of `formats_named`; or else that the minus sign of the first or of the second begins with
/// whitespace, which is not part of a number, that of the first with one of the texts that may be before a number, or
/// that a number may have the delimiter, where fields are neither in quotes nor written anew.
pub fn formats_for<'a>(
    alloc: Global,
    parsing: Parsing,
    span: &Span<'_>,
    affixes: Option<&[&str]>,
    from: Source<'a>,
    to: Source<'a>,
) -> Result<Formats, Misuse<'a>>
    ensures { NamesFormatsFor parsing span.now affixes.entry (named_of from.entry) (named_of to.entry)
        (result_map_both (λ formats. (formats.from, formats.to)) wrong_of result) }
{
    let formats = formats_named(alloc, parsing, from, to)?;
    match misfit(span, affixes, from, to, &formats) {
        Some(misuse) => Err(misuse),
        None => Ok(formats),
    }
}

/// Returns why numbers are not told by two formats where the rules say, if they are not.
fn misfit<'a>(
    span: &Span<'_>,
    affixes: Option<&[&str]>,
    from: Source<'a>,
    to: Source<'a>,
    formats: &Formats,
) -> Option<Misuse<'a>>
    ensures { option_map wrong_of result
        ≡ misfit span.now affixes.entry (named_of from.entry) (named_of to.entry) (formats.now.from, formats.now.to) }
{
    if begins_blank(formats.from.format.minus_sign()) {
        return Some(Misuse::Ambiguous(from.text(), Ambiguity::BlankMinusSign));
    }
    if begins_with_affix(formats.from.format.minus_sign(), affixes) {
        return Some(Misuse::Ambiguous(from.text(), Ambiguity::AffixMinusSign));
    }
    if begins_blank(formats.to.format.minus_sign()) {
        return Some(Misuse::Ambiguous(to.text(), Ambiguity::BlankMinusSign));
    }
    if prints_delimiter(&formats.to, bare_delimiter(span)) {
        return Some(Misuse::Ambiguous(to.text(), Ambiguity::PrintsDelimiter));
    }
    None
}

/// Returns whether a number that is printed may have the delimiter, if there is one.
fn prints_delimiter(to: &NamedFormat, delimiter: Option<u8>) -> bool
    ensures { result ≡ prints_delimiter to.now delimiter }
{
    match delimiter {
        Some(delimiter) => prints_byte(to, delimiter),
        None => false,
    }
}

/// Returns whether a text begins with ASCII whitespace.
fn begins_blank(text: &str) -> bool
    ensures { result ≡ begins_blank text.now }
{
    match text.as_bytes() {
        [first, ..] => first.is_ascii_whitespace(),
        [] => false,
    }
}

/// Returns whether a text begins with one of those that may be before a number, or with a no-break space, which may be
/// after these, if there are any.
fn begins_with_affix(text: &str, affixes: Option<&[&str]>) -> bool
    ensures { result ≡ begins_with_affix text.now affixes.entry }
{
    match affixes {
        Some(affixes) => {
            begins_with_any(text, affixes) || no_break_space_len(false, text.as_bytes()) > 0
        }
        None => false,
    }
}

/// Returns whether a text begins with one of others.
fn begins_with_any(text: &str, starts: &[&str]) -> bool
    ensures { result ≡ list_any (λ start. starts_with nat_eq text.now start.now) starts.now }
{
    starts.iter().any(|start| begins_with(text, start))
}

/// Returns whether a text begins with another one.
fn begins_with(text: &str, start: &str) -> bool
    ensures { result ≡ starts_with nat_eq text.now start.now }
{
    text.as_bytes().starts_with(start.as_bytes())
}

/// Returns the delimiter of fields around which no quotes are written.
fn bare_delimiter(span: &Span<'_>) -> Option<u8>
    ensures { result ≡ bare_delimiter span.now }
{
    match span {
        Span::Fields(fields) if !fields.quotes && fields.output.is_none() => Some(fields.delimiter),
        _ => None,
    }
}

/// Returns whether a number that is printed may have this byte.
fn prints_byte(to: &NamedFormat, byte: u8) -> bool
    ensures { result ≡ prints_byte to.now byte }
{
    let format = &to.format;
    let mut digits = [0; 40];
    let len = put_text(b"0123456789", to.digits, &mut digits);
    has_byte(&digits[..len], byte)
        || has_byte(printed_separator(format).as_bytes(), byte)
        || has_byte(format.minus_sign().as_bytes(), byte)
        || has_byte(format.decimal().as_bytes(), byte)
}

/// Returns whether a text has this byte.
fn has_byte(text: &[u8], byte: u8) -> bool
    ensures { result ≡ has_byte text.now byte }
{
    text.iter().any(|each| *each == byte)
}

/// Returns why numbers are not read so under the format, if they are not.
fn unread(parsing: Parsing, format: &CustomFormat) -> Option<Ambiguity>
    ensures { MatchOption result (IsReadUnder parsing format.now) (IsUnread parsing format.now) }
{
    match parsing {
        Parsing::Lenient => None,
        Parsing::Strict => unmarked(format),
        Parsing::Typed => match unmarked(format) {
            Some(ambiguity) => Some(ambiguity),
            None => match TypedParser::new(format) {
                Ok(_) => None,
                Err(_) => Some(Ambiguity::TypedAlike),
            },
        },
    }
}

/// Returns why not each decimal parses back from its text under the format, if not.
fn unmarked(format: &CustomFormat) -> Option<Ambiguity>
    ensures { MatchOption result (MarksDecimals format.now) (IsUnmarked format.now) }
{
    if marks_decimals(format) {
        None
    } else {
        Some(Ambiguity::of(format))
    }
}

/// Returns the format that the word names: `plain`, which has no groups, that of `en` with the fields after `custom:`,
/// or that of the locale as which the word is looked up, with the digits that it names.
fn format_named(word: &str) -> Result<NamedFormat, Misuse<'_>>
    ensures { IsNamed word.now (result_map_both (λ format. format) wrong_of result) }
{
    match word {
        "plain" => latin_or_none(word, CustomFormat::new("", Grouping::Posix, "-").ok()),
        _ => custom_or_locale_named(word),
    }
}

/// Returns the same of a word that is not `plain`.
fn custom_or_locale_named(word: &str) -> Result<NamedFormat, Misuse<'_>>
    ensures { NamesCustomOrLocale (starts_with nat_eq word.now (codes "custom:")) word.now
        (result_map_both (λ format. format) wrong_of result) }
{
    match word.strip_prefix("custom:") {
        Some(fields) => latin_or_none(word, custom_format_named(fields)),
        None => locale_named(word),
    }
}

/// Returns a format with the digits `0` to `9`, or that the word names none.
fn latin_or_none(word: &str, format: Option<CustomFormat>) -> Result<NamedFormat, Misuse<'_>>
    ensures { result_map_both (λ format. format) wrong_of result ≡ latin_or_none word.now format }
{
    match format {
        Some(format) => Ok(NamedFormat::latin(format)),
        None => Err(Misuse::NoFormat(word)),
    }
}

/// Returns the format of the locale as which a tag is looked up, with the digits that the tag names, `0` to `9` where
/// it names none.
fn locale_named(tag: &str) -> Result<NamedFormat, Misuse<'_>>
    ensures { LooksUpNotation tag.now (result_map_both (λ format. format) wrong_of result) }
{
    match (Locale::lookup(tag), Digits::of_tag(tag)) {
        (None, _) => Err(Misuse::NoFormat(tag)),
        (Some(_), Err(_)) => Err(Misuse::NoDigits(tag)),
        (Some(locale), Ok(digits)) => Ok(NamedFormat {
            format: CustomFormat::from(locale),
            digits: digits.unwrap_or(Digits::latin()),
        }),
    }
}

/// Returns the format of the fields `SEP:GROUPING:MINUS`, or `SEP:GROUPING:MINUS:MARK`. SEP may have colons.
fn custom_format_named(fields: &str) -> Option<CustomFormat>
    ensures { result ≡ custom_format_named fields.now }
{
    let (fields, last) = split_last(fields)?;
    let (front, middle) = split_last(fields)?;
    match Grouping::from_name(middle) {
        Some(grouping) => CustomFormat::new(front, grouping, last).ok(),
        None => marked_format_named(front, middle, last),
    }
}

/// Returns the format of the fields `SEP:GROUPING`, a minus sign and a decimal mark.
fn marked_format_named(fields: &str, minus_sign: &str, mark: &str) -> Option<CustomFormat>
    ensures { result ≡ marked_format_named fields.now minus_sign.now mark.now }
{
    let (separator, grouping) = split_last(fields)?;
    CustomFormat::builder()
        .separator(separator)
        .grouping(Grouping::from_name(grouping)?)
        .minus_sign(minus_sign)
        .decimal(mark)
        .build()
        .ok()
}

/// Returns what stands before the last colon, and what stands after it.
fn split_last(text: &str) -> Option<(&str, &str)>
    ensures { option_map (λ parts. (parts.0.now, parts.1.now)) result ≡ split_last text.now }
{
    text.rsplit_once(':')
}
