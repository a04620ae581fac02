//! How the lines of an input are regrouped, and where the numbers of a line are.
ghost use Rattle.std.specs.Prelude.{◌≡◌, ◌≤◌, ◌<◌, ◌+◌, ◌-◌, ◌^◌, length, true};
ghost use Rattle.regroup_lines.specs.Csv.{is_bare, output_delimiter};
ghost use Rattle.regroup_lines.specs.Lines.{mark_len, passes, quotes_in, quotes_of};
ghost use Rattle.regroup_lines.specs.Places.{affix_len, are_enough, field_count, is_at, is_at_most, is_chosen};
ghost use Rattle.regroup_lines.specs.Places.{is_chosen_field, is_counted, is_in, least_of, next_of, no_break_space_len};
ghost use Rattle.regroup_lines.specs.Places.{number_of, place_of, stripped, trimmed, wanted_of, without_affixes};
ghost use Rattle.regroup_lines.specs.Places.{without_bytes};

use regroup_faults::{FieldCount, Reading};
use std::ops::Range;

/// The bytes of a byte order mark, the character U+FEFF.
pub(crate) const MARK: [u8; 3] = [0xEF, 0xBB, 0xBF];

/// The bytes of the character U+00A0.
const NO_BREAK_SPACE: [u8; 2] = [0xC2, 0xA0];

/// The bytes of the character U+202F.
const NARROW_NO_BREAK_SPACE: [u8; 3] = [0xE2, 0x80, 0xAF];

/// The byte around a field that has a delimiter, a newline or this byte.
pub(crate) const QUOTE: u8 = b'"';

/// What is done with a line at fault. It is sent as it is, but for [`Invalid::Abort`]: to the output, or to the writer
/// of rejected lines.
#[derive(Clone, Copy, Debug, PartialEq, Eq)]
pub enum Invalid {
    /// Its fault is returned, and no line after it is read.
    Abort,
    /// A message names it, and the input is at fault.
    Fail,
    /// A message names it.
    Warn,
    /// Nothing more.
    Ignore,
}

/// Fields that follow one another, by their numbers, which are counted from 1.
///
/// The fields 3, 4 and 5 are `FieldRange { first: 3, last: Some(5) }`: a line has to have all of them. All fields from
/// 2 on are `FieldRange { first: 2, last: None }`: a line has to have field 2.
#[derive(Clone, Copy, Debug, PartialEq, Eq)]
pub struct FieldRange {
    /// The number of the first field.
    pub first: u64,
    /// The number of the last field, or `None` for that of the line.
    pub last: Option<u64>,
}

/// Which fields are written in quotes.
#[derive(Clone, Copy, Debug, PartialEq, Eq)]
pub enum Quoting {
    /// Those that were in quotes, and those that need them.
    Keep,
    /// Only those that need them.
    Necessary,
    /// None, and of each field its number alone is written, without what is around it. A field without one is empty.
    Bare,
}

/// How fields are written.
///
/// A field needs quotes if it has the delimiter, a quote, a carriage return, a newline, or the byte that ends a line.
/// In quotes, each of its quotes is doubled. The text of a field that begins with a quote is what is in quotes, with
/// each doubled quote as one, and what follows the quote that closes it: that of `"12"3` is `123`. A carriage return at
/// the end of a field that is not in quotes stays where it is, since it may end the line. Lines at fault that are
/// passed on are as they were read.
///
/// ```rust
/// let output = Output {
///     delimiter: b';',
///     quoting: Quoting::Necessary,
/// };
/// output.quoting    // Necessary
/// ```
///
/// So `a,"1,000","b;c"` is written as `a;1.000;"b;c"`, where field 2 is from `en` to `de`, and `5" disk` as `"5""
/// disk"`.
#[derive(Clone, Copy, Debug, PartialEq, Eq)]
pub struct Output {
    /// The byte between two fields.
    pub delimiter: u8,
    /// Which fields are in quotes.
    pub quoting: Quoting,
}

/// The fields of a line, or of a record of RFC 4180, that have a number: those that are in any of the ranges, in any
/// order.
#[derive(Clone, Copy, Debug, PartialEq, Eq)]
pub struct Fields<'a> {
    /// The ranges.
    pub list: &'a [FieldRange],
    /// The byte between two fields.
    pub delimiter: u8,
    /// Whether fields may be in quotes, as RFC 4180 has them, and have delimiters, line ends and doubled quotes there.
    /// A quote that is not the first byte of a field opens none.
    pub quotes: bool,
    /// How all fields are written, or `None` if the bytes that are not those of a number are passed on as they are.
    pub output: Option<Output>,
    /// Whether the fields with a number alone are written, and those of a header, as often as they are in the list and
    /// in its order: those of each range in turn.
    pub only: bool,
    /// Whether fields without a byte are not counted and have no number, as where runs of the delimiter separate
    /// fields.
    pub blanks: bool,
}

/// Where the numbers of a line are. ASCII whitespace around a number, as a carriage return, is not part of it, nor is a
/// byte order mark at the start of the first line, but for [`Span::Line`].
#[derive(Clone, Copy, Debug, PartialEq, Eq)]
pub enum Span<'a> {
    /// All bytes of the line.
    Line,
    /// The line without the ASCII whitespace at its ends.
    Trimmed,
    /// Each of these fields without the quotes around it and the ASCII whitespace at its ends.
    Fields(Fields<'a>),
}

/// How the lines of an input are regrouped.
#[derive(Clone, Copy, Debug, PartialEq, Eq)]
pub struct Rules<'a> {
    /// Where the numbers of a line are, and how its fields are written.
    pub span: Span<'a>,
    /// The texts that may be before or after a number, as a currency, if there are any, but for [`Span::Line`]. One at
    /// its start and one at its end, the first here that is there, are not part of it, nor are a no-break space, U+00A0
    /// or U+202F, and ASCII whitespace inside them.
    pub affixes: Option<&'a [&'a str]>,
    /// How the numbers are read.
    pub reading: Reading,
    /// How many lines at the start are headers, and each record that begins in one of them: no number of it is read.
    pub header_lines: u64,
    /// Whether a place is passed on where a number has no byte.
    pub passes_empty: bool,
    /// What is done with a line at fault.
    pub invalid: Invalid,
    /// Whether invalid lines are sent to the writer for them, and not to the output.
    pub rejects: bool,
    /// The byte that ends a line, as a newline or NUL.
    pub line_end: u8,
    /// The most bytes of a line, or of a record, without the byte that ends it.
    pub max_line_len: u32,
    /// Whether the writer is flushed before each read of the input.
    pub flushes: bool,
}

impl Invalid {
    /// Returns whether the line is passed on.
    pub(crate) fn passes(self) -> bool
        ensures { result ≡ passes self }
    {
        !matches!(self, Invalid::Abort)
    }
}

impl Output {
    /// Returns whether of a field its number alone is written.
    pub(crate) fn is_bare(&self) -> bool
        ensures { result ≡ is_bare self.now.quoting }
    {
        matches!(self.quoting, Quoting::Bare)
    }
}

impl Span<'_> {
    /// Returns how many bytes of the line of this number are a byte order mark that is not part of it.
    pub(crate) fn mark_len(&self, number: u64, text: &[u8]) -> usize
        ensures value { result ≡ mark_len self.now number text.now }
        ensures within { result ≤ length text.now }
    {
        if !matches!(self, Span::Line) && number == 1 && text.starts_with(&MARK) {
            MARK.len()
        } else {
            0
        }
    }
}

impl Rules<'_> {
    /// Returns the delimiter of the fields that may be in quotes, if they may.
    #[inline]
    pub(crate) fn quotes(&self) -> Option<u8>
        ensures { result ≡ quotes_in self.now.span }
    {
        match &self.span {
            Span::Fields(fields) => fields.quotes(),
            Span::Line | Span::Trimmed => None,
        }
    }
}

impl FieldRange {
    /// Returns whether the number is at most that of the last field.
    pub(crate) fn reaches(&self, number: u64) -> bool
        ensures { result ≡ is_at_most number self.now.last }
    {
        self.last.is_none_or(|last| number <= last)
    }

    /// Returns whether the field of this number is one of them.
    pub(crate) fn contains(&self, number: u64) -> bool
        ensures { result ≡ is_in self.now number }
    {
        self.first <= number && self.reaches(number)
    }

    /// Returns the number of the first field or this one, whichever is less, if the fields reach the one that is asked
    /// for: else this one.
    fn least(&self, from: u64, next: Option<u64>) -> Option<u64>
        ensures { result ≡ least_of from next self.now }
    {
        if self.reaches(from) {
            Some(next.unwrap_or(self.first).min(self.first))
        } else {
            next
        }
    }

    /// Returns how many fields a line has to have for it.
    fn wanted(&self) -> u64
        ensures { result ≡ wanted_of self.now }
    {
        self.last.unwrap_or(self.first)
    }
}

impl Fields<'_> {
    /// Returns a number such that no field from this one on and before that one is written in another way than it was
    /// read, or `None` if none from this one on is. It is 0 if all fields are written anew.
    pub(crate) fn next(&self, from: u64) -> Option<u64>
        ensures { result ≡ next_of self.now.output self.now.list.now from }
    {
        if self.output.is_some() {
            return Some(0);
        }
        let ranges = self.list.iter();
        ranges.fold(None, |next, range| range.least(from, next))
    }

    /// Returns the delimiter, if fields may be in quotes and it is no quote.
    #[inline]
    pub(crate) fn quotes(&self) -> Option<u8>
        ensures { result ≡ quotes_of self.now }
    {
        (self.quotes && self.delimiter != QUOTE).then_some(self.delimiter)
    }

    /// Returns the byte between two fields that are written.
    pub fn output_delimiter(&self) -> u8
        ensures { result ≡ output_delimiter self.now }
    {
        match &self.output {
            Some(output) => output.delimiter,
            None => self.delimiter,
        }
    }

    /// Returns whether a field is counted.
    #[inline]
    pub(crate) fn count(&self, field: &[u8]) -> bool
        ensures { result ≡ is_counted self.now.blanks field.now }
    {
        !self.blanks || !field.is_empty()
    }

    /// Returns the number of a field that so many counted ones are before, or theirs if it is not counted.
    #[inline]
    pub(crate) fn number_after(&self, before: u64, field: &[u8]) -> u64
        requires { before + 1 < 2 ^ 64 }
        ensures number { result ≡ number_of self.now.blanks before field.now }
        ensures most { result ≤ before + 1 }
    {
        if self.count(field) {
            before + 1
        } else {
            before
        }
    }

    /// Returns whether a field has a number, by its own number.
    pub(crate) fn contain(&self, number: u64, field: &[u8]) -> bool
        ensures { result ≡ is_chosen_field self.now.list.now self.now.blanks number field.now }
    {
        self.reach(number) && self.count(field)
    }

    /// Returns whether a range has this number.
    fn reach(&self, number: u64) -> bool
        ensures { result ≡ is_chosen self.now.list.now number }
    {
        let mut ranges = self.list.iter();
        ranges.any(|range| range.contains(number))
    }

    /// Returns whether a line of so many fields has all that are wanted of it.
    pub(crate) fn are_enough(&self, count: u64) -> bool
        ensures { result ≡ are_enough self.now.list.now count }
    {
        self.list.iter().all(|range| range.wanted() <= count)
    }

    /// Returns what is counted of a line that has this many fields.
    #[cold]
    pub(crate) fn counted(&self, found: u64) -> FieldCount
        ensures { result ≡ field_count self.now.delimiter self.now.list.now found }
    {
        let ranges = self.list.iter();
        FieldCount {
            found,
            wanted: ranges.fold(0, |most, range| most.max(range.wanted())),
            delimiter: self.delimiter,
        }
    }
}

/// Returns what is left of a place without the ASCII whitespace at its ends.
pub(crate) fn trim(text: &[u8], place: Range<usize>) -> Range<usize>
    requires ordered { place.start ≤ place.end }
    requires within { place.end ≤ length text.now }
    ensures place { place_of result ≡ trimmed text.now (place_of place) }
    ensures ordered { result.start ≤ result.end }
    ensures within { result.end ≤ length text.now }
{
    let end = place.end;
    let rest = text[place].trim_ascii_start();
    let number = rest.trim_ascii_end();
    let start = end - rest.len();
    start..start + number.len()
}

/// Returns what is left of a place without one of these texts, if there are any, at its start, one at its end, and the
/// spaces inside them.
#[inline(always)]
pub(crate) fn without_affixes(
    affixes: Option<&[&str]>,
    text: &[u8],
    place: Range<usize>,
) -> Range<usize>
    requires ordered { place.start ≤ place.end }
    requires within { place.end ≤ length text.now }
    ensures place { place_of result ≡ without_affixes affixes.entry text.now (place_of place) }
    ensures inside { place.start ≤ result.start }
    ensures ordered { result.start ≤ result.end }
    ensures within { result.end ≤ length text.now }
{
    match affixes {
        Some(affixes) => strip(affixes, text, place),
        None => place,
    }
}

/// Does the same with texts. It is a call, so that numbers without any are found without its code.
#[inline(never)]
fn strip(affixes: &[&str], text: &[u8], place: Range<usize>) -> Range<usize>
    requires ordered { place.start ≤ place.end }
    requires within { place.end ≤ length text.now }
    ensures place { place_of result ≡ stripped affixes.now text.now (place_of place) }
    ensures inside { place.start ≤ result.start }
    ensures ordered { result.start ≤ result.end }
    ensures within { result.end ≤ length text.now }
{
    let (start, end) = (place.start, place.end);
    let start = start + affix_len(false, affixes, &text[start..end]);
    let end = end - affix_len(true, affixes, &text[start..end]);
    trim(text, start..end)
}

/// Returns how many bytes the first of these texts has that is at the start or at the end of a text, and the no-break
/// space inside it, or 0 if none is.
fn affix_len(is_end: bool, affixes: &[&str], text: &[u8]) -> usize
    ensures value { result ≡ affix_len is_end affixes.now text.now }
    ensures within { result ≤ length text.now }
{
    for affix in affixes {
        if is_at(is_end, affix.as_bytes(), text) {
            let rest = without_bytes(is_end, affix.len(), text);
            return affix.len() + no_break_space_len(is_end, rest);
        }
    }
    0
}

/// Returns a text without so many bytes at its start or at its end.
fn without_bytes(is_end: bool, len: usize, text: &[u8]) -> &[u8]
    requires { len ≤ length text.now }
    ensures value { result.now ≡ without_bytes is_end len text.now }
    ensures shorter { length result.now ≡ length text.now - len }
{
    if is_end {
        &text[..text.len() - len]
    } else {
        &text[len..]
    }
}

/// Returns how many bytes the no-break space has that is at the start or at the end of a text, or 0 if none is.
///
/// ```rust
/// no_break_space_len(false, "\u{202f}5".as_bytes())    // 3
/// ```
pub fn no_break_space_len(is_end: bool, text: &[u8]) -> usize
    ensures value { result ≡ no_break_space_len is_end text.now }
    ensures within { result ≤ length text.now }
{
    if is_at(is_end, &NO_BREAK_SPACE, text) {
        NO_BREAK_SPACE.len()
    } else if is_at(is_end, &NARROW_NO_BREAK_SPACE, text) {
        NARROW_NO_BREAK_SPACE.len()
    } else {
        0
    }
}

/// Returns whether bytes are at the start or at the end of a text.
fn is_at(is_end: bool, affix: &[u8], text: &[u8]) -> bool
    ensures value { result ≡ is_at is_end affix.now text.now }
    ensures within { result ≡ true → length affix.now ≤ length text.now }
{
    if is_end {
        text.ends_with(affix)
    } else {
        text.starts_with(affix)
    }
}
