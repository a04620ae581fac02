//! Numbers displayed in columns, and how long their texts are.
//!
//! A [`Formatted`] is a number together with a format. It displays the number's text, and fills it up
//! to the width that is asked for. [`text_len`] and [`text_width`] return how long the text is, without
//! printing it.
ghost use Rattle.std.specs.Prelude.{◌≡◌, ◌+◌, ◌*◌, ◌/◌, ◌≤◌, length, Some};
ghost use Rattle.std.specs.Fmt.{char_count, is_char_start, WritesOnOk, WritesStyledOnOk, formatter_spec, spec_width};
ghost use Rattle.std.specs.Fmt.{spec_align, spec_fill};
ghost use Rattle.num_format_int.specs.Digits.{digits};
ghost use Rattle.num_format_int.specs.Grouped.{separators};
ghost use Rattle.num_format_int.specs.Text.{text_of};
ghost use Rattle.num_format_writers.specs.Columns.{fill_before, filled, text_size};

use num_format_int::buffer::MAX_BUF_LEN;
use num_format_int::{Buffer, ToFormattedStr};
use num_format_text::capacities::{MAX_MIN_LEN, MAX_SEP_LEN};
use num_format_text::{Format, Grouping};
use std::fmt;
use std::marker::Model;

/// A number to be displayed under a format. A contract sees the number's text.
///
/// [`formatted`](crate::ToFormattedString::formatted) returns it. It displays the text of the number,
/// and needs no memory.
///
/// Width, fill and alignment count, as for std's numbers: the width is in characters, and the text
/// stands to the right where no side is asked for. Precision, `+`, `#` and `0` are ignored. The text is
/// never cut.
///
/// ```rust
/// println!(rt; "{:>12}", 1000000.formatted(&Locale::en))    // "   1,000,000"
/// println!(rt; "{:*<12}", 1000000.formatted(&Locale::en))   // "1,000,000***"
/// ```
pub struct Formatted<'a, N: ToFormattedStr, F: Format> {
    n: &'a N,
    format: &'a F,
}

impl<'a, N: ToFormattedStr, F: Format> Model for Formatted<'a, N, F> {
    ghost use Rattle.std.specs.Prelude.{ℕ, List};
    ghost use Rattle.num_format_int.specs.Text.{text_of};

    ghost Value = { List ℕ };

    ghost view = { λ x. text_of (F.answers x.format.now) (N.value x.n.now) };
}

impl<'a, N: ToFormattedStr, F: Format> Formatted<'a, N, F> {
    /// Returns the number, to be displayed under the format.
    pub(crate) fn new(n: &'a N, format: &'a F) -> Formatted<'a, N, F>
        ensures { result ≡ text_of (F.answers format.now) (N.value n.now) }
    {
        Formatted { n, format }
    }
}

impl<'a, N: ToFormattedStr, F: Format> fmt::Display for Formatted<'a, N, F> {
    ghost output = { λ text. Some text };

    ghost styled_output = { λ text spec. Some (filled (spec_width spec) (spec_align spec)
        (spec_fill spec) text) };

    /// Writes the text of the number, filled up to the width.
    #[tactic(auto, using(crate::proofs::ColumnLemmas::writes_plain))]
    fn fmt<W: fmt::Write>(&self, f: &mut fmt::Formatter<W>) -> fmt::Result {
        let buffer = Buffer::of(self.n, self.format);
        write_filled(buffer.as_str(), f)
    }
}

impl<'a, N: ToFormattedStr, F: Format> fmt::Debug for Formatted<'a, N, F> {
    ghost debug_output = { λ text. Some text };

    /// Writes the bare text, as a [`Buffer`] does, filled up to the width.
    fn fmt<W: fmt::Write>(&self, f: &mut fmt::Formatter<W>) -> fmt::Result
        ensures writes { WritesOnOk W.write_str_gives f.old result self.now f.new }
        ensures styled { let spec = formatter_spec f.old in
            WritesStyledOnOk W.write_str_gives f.old result
            (filled (spec_width spec) (spec_align spec) (spec_fill spec) self.now) f.new }
    {
        fmt::Display::fmt(self, f)
    }
}

impl<'a, N: ToFormattedStr, F: Format> Drop for Formatted<'a, N, F> {
    fn drop(self) {
        let Formatted { n: _, format: _ } = self;
    }
}

/// Writes a text, filled up to the width of the formatter in characters, to the right where no side is asked
/// for. [`Formatted`] displays its text by it, and so can another type of number.
///
/// ```rust
/// println!(rt; "{:*>12}", 1000000.formatted(&Locale::en))    // "***1,000,000"
/// ```
///
/// # Errors
///
/// Returns the error of the first write that fails.
pub fn write_filled<W: fmt::Write>(text: &str, f: &mut fmt::Formatter<W>) -> fmt::Result
    ensures { let spec = formatter_spec f.old in
        WritesStyledOnOk W.write_str_gives f.old result
        (filled (spec_width spec) (spec_align spec) (spec_fill spec) text.now) f.new }
{
    // `pad` would cut the text to the precision, and `pad_integral` counts the bytes of separators.
    let missing = f.width().unwrap_or(0).saturating_sub(char_count(text));
    let before = fill_before(f.align(), missing);
    let mut bytes = [0; 4];
    let fill = f.fill().encode_utf8(&mut bytes);
    f.write_repeated(fill, before)?;
    f.write_str(text)?;
    f.write_repeated(fill, missing - before)
}

/// Returns how many of `n` fill characters stand before a text.
fn fill_before(side: Option<fmt::Alignment>, n: usize) -> usize
    ensures value { result ≡ fill_before side n }
    ensures bound { result ≤ n }
{
    match side {
        Some(fmt::Alignment::Left) => 0,
        Some(fmt::Alignment::Center) => n / 2,
        Some(fmt::Alignment::Right) | None => n,
    }
}

/// Returns the number of characters of a text: of bytes that begin one.
#[tactic(auto, using(crate::proofs::ColumnLemmas::count_by_is_char_start, crate::proofs::ColumnLemmas::char_count_le_length))]
fn char_count(text: &str) -> usize
    ensures value { result ≡ char_count text.now }
    ensures bound { result ≤ length text.now }
{
    text.as_bytes()
        .iter()
        .filter(|byte| is_char_start(**byte))
        .count()
}

/// Returns whether a byte begins a character.
pub fn is_char_start(byte: u8) -> bool
    ensures { result ≡ is_char_start byte }
{
    byte < 0x80 || byte >= 0xC0
}

/// Returns the length in bytes of the text of a number, without printing it.
///
/// ```rust
/// text_len(&-1000000, &Locale::en)    // 10
/// text_len(&1000000, &Locale::fr)     // 13: a separator has three bytes
/// ```
#[tactic(auto, using(crate::proofs::ColumnLemmas::length_text_of))]
pub fn text_len<N: ToFormattedStr, F: Format>(n: &N, format: &F) -> usize
    ensures length { result ≡ length (text_of (F.answers format.now) (N.value n.now)) }
    ensures fits { result ≤ MAX_BUF_LEN }
{
    let minus_sign = format.minus_sign().into_str().len();
    let separator = format.separator().into_str().len();
    text_size(n, format.grouping(), minus_sign, separator)
}

/// Returns the length in characters of the text of a number, without printing it: the columns that it
/// takes where each character takes one.
///
/// ```rust
/// text_width(&1000000, &Locale::fr)   // 9, of 13 bytes
/// ```
#[tactic(auto, using(crate::proofs::ColumnLemmas::char_count_text_of))]
pub fn text_width<N: ToFormattedStr, F: Format>(n: &N, format: &F) -> usize
    ensures { result ≡ char_count (text_of (F.answers format.now) (N.value n.now)) }
{
    let minus_sign = char_count(format.minus_sign().into_str());
    let separator = char_count(format.separator().into_str());
    text_size(n, format.grouping(), minus_sign, separator)
}

/// Returns the size of the text of a number, where the minus sign and a separator have these sizes, and
/// a digit has 1.
#[tactic(auto, using(crate::proofs::ColumnLemmas::separators_small))]
fn text_size<N: ToFormattedStr>(
    n: &N,
    grouping: Grouping,
    minus_sign: usize,
    separator: usize,
) -> usize
    requires minus_sign { minus_sign ≤ MAX_MIN_LEN }
    requires separator { separator ≤ MAX_SEP_LEN }
    ensures size { result ≡ text_size grouping (N.value n.now) minus_sign separator }
    ensures bound { result ≤ MAX_BUF_LEN }
{
    let (sign, magnitude) = n.sign_and_magnitude();
    let unsigned = digits_size(digit_count(magnitude), grouping, separator);
    if sign.unwrap_or(false) {
        minus_sign + unsigned
    } else {
        unsigned
    }
}

/// Returns the size of so many digits with the separators of a grouping, where a separator has this
/// size and a digit has 1.
///
/// ```rust
/// digits_size(6, Grouping::Indian, 1)    // 8, as of 1,00,000
/// ```
#[tactic(auto, using(crate::proofs::ColumnLemmas::separators_small))]
pub fn digits_size(digits: usize, grouping: Grouping, separator: usize) -> usize
    requires digits { digits ≤ 39 }
    requires separator { separator ≤ MAX_SEP_LEN }
    ensures size { result ≡ digits + separators grouping digits * separator }
    ensures bound { result ≤ 39 + 18 * MAX_SEP_LEN }
{
    digits + separator_count(grouping, digits) * separator
}

/// Returns how many decimal digits a number has. Zero has one.
///
/// ```rust
/// digit_count(1000000)    // 7
/// ```
#[tactic(auto, using(crate::proofs::ColumnLemmas::length_digits_power, crate::proofs::ColumnLemmas::length_digits_zero))]
pub fn digit_count(n: u128) -> usize
    ensures value { result ≡ length (digits n) }
    ensures bound { result ≤ 39 }
{
    match n.checked_ilog10() {
        Some(power) => power as usize + 1,
        None => 1,
    }
}

/// Returns how many separators stand among so many digits.
fn separator_count(grouping: Grouping, digits: usize) -> usize
    requires { digits ≤ 39 }
    ensures value { result ≡ separators grouping digits }
    ensures bound { result ≤ 18 }
{
    let Some(sizes) = grouping.sizes() else {
        return 0;
    };
    if digits < sizes.least {
        return 0;
    }
    divide(digits - sizes.last - 1, sizes.size) + 1
}

/// Returns the quotient of so many digits and the size of a group.
///
/// A division by a number that is known where the code is compiled takes a fraction of the time.
#[inline(always)]
fn divide(digits: usize, size: usize) -> usize
    requires { (2 ≤ size) × (size ≤ 4) }
    ensures { result ≡ digits / size }
{
    match size {
        2 => digits / 2,
        3 => digits / 3,
        _ => digits / 4,
    }
}
