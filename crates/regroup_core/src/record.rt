//! Where a record ends, and where its fields do: a byte in quotes ends neither.
ghost use Rattle.std.specs.Prelude.{◌≡◌, ◌≤◌, ◌<◌, All, false, get_or, length};
ghost use Rattle.regroup_core.specs.Fields.{delimiter_of, quotes_of};
ghost use Rattle.regroup_core.specs.Records.{Searched, after_byte, after_text, end_at, end_of, ends_in, is_inside};
ghost use Rattle.regroup_core.specs.Records.{is_quote, state_after, through_end};

use crate::QUOTE;
use crate::dialect::{Dialect, Separation};
use memchr::{memchr, memchr2};

/// Where the next byte of a record is, if fields may be in quotes.
#[derive(Clone, Copy, Debug, PartialEq, Eq)]
pub enum Within {
    /// Where a quote opens quotes: at the start of a field, or after a quote in quotes, which closes them unless it is
    /// one of two.
    Start,
    /// In a field, where a quote opens none.
    Bare,
    /// In quotes.
    Quoted,
}

/// What was found of a record in some bytes.
#[derive(Clone, Copy, Debug, PartialEq, Eq)]
pub struct RecordEnd {
    /// Where the byte is that ends the record, or `None` if all bytes are the record's.
    pub end: Option<usize>,
    /// How many line ends these bytes of the record have: those in its quotes, and the one that ends it.
    pub line_ends: usize,
}

impl Within {
    /// Returns whether the next byte is in quotes: a record that is cut off there is not closed.
    #[inline]
    pub fn is_inside(self) -> bool
        ensures { result ≡ is_inside self }
    {
        matches!(self, Within::Quoted)
    }

    /// Returns where the byte after this one is, by the delimiter of the fields that may be in quotes, if they may.
    #[inline]
    fn after_byte(self, quotes: Option<u8>, byte: u8) -> Within
        ensures { result ≡ after_byte quotes self byte }
    {
        let Some(delimiter) = quotes else {
            return self;
        };
        match self {
            Within::Quoted if byte == QUOTE => Within::Start,
            Within::Quoted => Within::Quoted,
            Within::Start if byte == QUOTE => Within::Quoted,
            _ if byte == delimiter => Within::Start,
            _ => Within::Bare,
        }
    }

    /// Returns where the byte after a text without quotes is: in quotes no other byte matters, and outside them the
    /// last one tells.
    #[inline]
    fn after_plain(self, quotes: Option<u8>, text: &[u8]) -> Within
        requires { All (λ b. is_quote b ≡ false) text.now }
        ensures { result ≡ after_text quotes self text.now }
    {
        match self {
            Within::Quoted => self,
            Within::Start | Within::Bare => match text {
                [.., last] => self.after_byte(quotes, *last),
                [] => self,
            },
        }
    }
}

/// Searches bytes for the end of a record that begins before them or with them. `within` is where their first byte is:
/// [`Within::Start`] for the first bytes of a record. It is then where the byte after them is, or that start again if
/// the record ends in them.
///
/// So a record may come in pieces: the next bytes go on where these left off, as if both were given at once.
///
/// ```text
/// let dialect = Dialect { separation: Separation::Quoted(b','), line_end: b'\n' };
/// let mut within = Within::Start;
/// record_end(dialect, &mut within, b"1,\"a")        // RecordEnd { end: None, line_ends: 0 }
/// record_end(dialect, &mut within, b"\nb\"\n2")    // RecordEnd { end: Some(3), line_ends: 2 }
/// ```
#[inline]
pub fn record_end(dialect: Dialect, within: &mut Within, bytes: &[u8]) -> RecordEnd
    ensures end { result.end ≡ end_of (quotes_of dialect.separation) dialect.line_end within.old bytes.now }
    ensures line_ends { result.line_ends ≡ ends_in dialect.line_end (through_end result.end bytes.now) }
    ensures state { within.new ≡ state_after (quotes_of dialect.separation) result.end within.old bytes.now }
{
    let (quotes, line_end) = (dialect.separation.quotes(), dialect.line_end);
    let may_have_ends = quotes.is_some() || within.is_inside();
    let (len, here) = find_end(quotes, line_end, *within, bytes);
    let line_ends = ends_inside(may_have_ends, line_end, &bytes[..len]);
    if len == bytes.len() {
        *within = here;
        return RecordEnd {
            end: None,
            line_ends,
        };
    }
    *within = Within::Start;
    RecordEnd {
        end: Some(len),
        line_ends: line_ends + 1,
    }
}

/// Returns how many bytes the first part of a text has, up to a delimiter outside quotes or up to its end.
#[inline(always)]
pub(crate) fn part_len(separation: Separation, text: &[u8]) -> usize
    ensures within { result ≤ length text.now }
    ensures end { end_of (quotes_of separation) (delimiter_of separation) Within.Start text.now
        ≡ end_at result text.now }
{
    find_end(
        separation.quotes(),
        separation.delimiter(),
        Within::Start,
        text,
    )
    .0
}

/// Searches a text, of which the first byte is `within` a record, for the first byte of this value that is not in
/// quotes. Returns where it is, or how many bytes there are, and where that is in the record.
///
/// It goes from one quote or byte of this value to the next.
#[inline(always)]
fn find_end(quotes: Option<u8>, end: u8, within: Within, text: &[u8]) -> (usize, Within)
    ensures searched { Searched quotes end within text.now result.0 result.1 }
    ensures found { result.0 < length text.now → (get_or text.now result.0 0 ≡ end) × (is_inside result.1 ≡ false) }
{
    if quotes.is_none() && !within.is_inside() {
        return (memchr(end, text).unwrap_or(text.len()), within);
    }
    let (mut here, mut searched) = (within, 0);
    'stops: loop {
        let rest = &text[searched..];
        let len = memchr2(QUOTE, end, rest).unwrap_or(rest.len());
        here = here.after_plain(quotes, &rest[..len]);
        searched += len;
        if searched == text.len() || (text[searched] == end && !here.is_inside()) {
            return (searched, here);
        }
        here = here.after_byte(quotes, text[searched]);
        searched += 1;
    }
}

/// Returns how many line ends a part of a record has, by whether it may have any.
#[inline]
fn ends_inside(may_have_ends: bool, line_end: u8, text: &[u8]) -> usize
    requires { may_have_ends ≡ false → ends_in line_end text.now ≡ 0 }
    ensures value { result ≡ ends_in line_end text.now }
    ensures most { result ≤ length text.now }
{
    if may_have_ends {
        text.iter().filter(|byte| **byte == line_end).count()
    } else {
        0
    }
}
