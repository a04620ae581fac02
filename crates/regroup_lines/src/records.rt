//! Where fields, lines and records of RFC 4180 end: a byte in quotes ends no field and no record.
ghost use Rattle.std.specs.Prelude.{◌≡◌, ◌≤◌, ◌<◌, All, false, get_or, length};
ghost use Rattle.regroup_lines.specs.Ended.{ends_with, len_without};
ghost use Rattle.regroup_lines.specs.Lines.{quotes_in};
ghost use Rattle.regroup_lines.specs.Records.{Searched, after_byte, after_text, is_inside, is_open, is_quote};
ghost use Rattle.regroup_lines.specs.Records.{line_reached, record_start};

use crate::rules::{MARK, QUOTE, Rules};
use memchr::{memchr, memchr2};

/// Where the next byte of a record is.
#[derive(Clone, Copy, Debug, PartialEq, Eq)]
pub(crate) enum CsvState {
    /// At the start of an input: a byte order mark may be there, or the first field.
    Mark,
    /// After the first byte of a byte order mark.
    Mark1,
    /// After the first two.
    Mark2,
    /// Where a quote opens quotes: at the start of a field, or after a quote in quotes, which closes them unless it is
    /// one of two.
    Start,
    /// In a field, where a quote opens none.
    Bare,
    /// In quotes.
    Quoted,
}

impl CsvState {
    /// Returns where the first byte of a record is that begins in the line of this number.
    #[inline]
    pub(crate) fn first(number: u64) -> CsvState
        ensures { result ≡ record_start number }
    {
        if number == 1 {
            CsvState::Mark
        } else {
            CsvState::Start
        }
    }

    /// Returns where the byte after a text is.
    #[inline]
    pub(crate) fn after(self, quotes: Option<u8>, text: &[u8]) -> CsvState
        ensures { result ≡ after_text quotes self text.now }
    {
        text.iter()
            .fold(self, |within, byte| within.after_byte(quotes, *byte))
    }

    /// Returns where the byte after a text without quotes is: in quotes no other byte matters, and outside them, behind
    /// a mark, the last one tells.
    #[inline]
    fn after_plain(self, quotes: Option<u8>, text: &[u8]) -> CsvState
        requires { All (λ b. is_quote b ≡ false) text.now }
        ensures { result ≡ after_text quotes self text.now }
    {
        match self {
            CsvState::Quoted => self,
            CsvState::Start | CsvState::Bare => match text {
                [.., last] => self.after_byte(quotes, *last),
                [] => self,
            },
            _ => self.after(quotes, text),
        }
    }

    /// Returns where the byte after this one is, by the delimiter of the fields that may be in quotes, if they may.
    #[inline]
    fn after_byte(self, quotes: Option<u8>, byte: u8) -> CsvState
        ensures { result ≡ after_byte quotes self byte }
    {
        let Some(delimiter) = quotes else {
            return self;
        };
        match self {
            CsvState::Quoted if byte == QUOTE => CsvState::Start,
            CsvState::Quoted => CsvState::Quoted,
            CsvState::Start | CsvState::Mark if byte == QUOTE => CsvState::Quoted,
            _ if byte == delimiter => CsvState::Start,
            CsvState::Mark if byte == MARK[0] => CsvState::Mark1,
            CsvState::Mark1 if byte == MARK[1] => CsvState::Mark2,
            CsvState::Mark2 if byte == MARK[2] => CsvState::Start,
            _ => CsvState::Bare,
        }
    }

    /// Returns whether the byte is in quotes.
    #[inline]
    fn is_inside(self) -> bool
        ensures { result ≡ is_inside self }
    {
        matches!(self, CsvState::Quoted)
    }
}

/// Searches a text, of which the first byte is `within` a record, for the first byte of this value that is not in
/// quotes. Returns where it is, or how many bytes there are, and where that is in the record.
///
/// It goes from one quote or byte of this value to the next.
#[inline(always)]
pub(crate) fn find_end(
    quotes: Option<u8>,
    end: u8,
    within: CsvState,
    text: &[u8],
) -> (usize, CsvState)
    ensures searched { Searched quotes end within text.now result.0 result.1 }
    ensures found { result.0 < length text.now → (get_or text.now result.0 0 ≡ end) × (is_inside result.1 ≡ false) }
{
    if quotes.is_none() && !within.is_inside() {
        return (memchr(end, text).unwrap_or(text.len()), within);
    }
    let (mut here, mut searched) = (within, 0);
    'stops: loop {
        let rest = &text[searched..];
        let len = memchr2(QUOTE, end, rest).unwrap_or(rest.len());
        here = here.after_plain(quotes, &rest[..len]);
        searched += len;
        if searched == text.len() || (text[searched] == end && !here.is_inside()) {
            return (searched, here);
        }
        here = here.after_byte(quotes, text[searched]);
        searched += 1;
    }
}

/// Returns whether a text ends with this byte, or, if it is empty, whether what is before it does.
pub(crate) fn ends_with(end: u8, before: bool, text: &[u8]) -> bool
    ensures { result ≡ ends_with end before text.now }
{
    match text {
        [.., last] => *last == end,
        [] => before,
    }
}

/// Returns how many bytes a text has without this byte at its end.
pub(crate) fn len_without(end: u8, text: &[u8]) -> usize
    ensures value { result ≡ len_without end text.now }
    ensures within { result ≤ length text.now }
{
    match text {
        [.., last] if *last == end => text.len() - 1,
        _ => text.len(),
    }
}

/// Returns whether a record that begins in the line of this number has quotes that are not closed.
pub(crate) fn is_open(rules: &Rules, number: u64, text: &[u8]) -> bool
    ensures { result ≡ is_open (quotes_in rules.now.span) number text.now }
{
    CsvState::first(number)
        .after(rules.quotes(), text)
        .is_inside()
}

/// Returns the number of the line in which a part of a record ends, by that of the line in which it begins.
#[inline]
pub(crate) fn line_reached(rules: &Rules, number: u64, text: &[u8]) -> u64
    ensures { result ≡ line_reached (quotes_in rules.now.span) rules.now.line_end number text.now }
{
    if rules.quotes().is_none() {
        return number;
    }
    let ends = text.iter().filter(|byte| **byte == rules.line_end).count();
    number.saturating_add(ends as u64)
}
