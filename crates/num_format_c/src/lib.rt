//! num-format for C: a static library over `num_format`, whose header is `num_format.h`.
//!
//! This file has the exports. They do no work of their own: [`calls`], [`arithmetic`] and [`columns`] do it with
//! Rust's types, and [`shown`] what takes other digits than `0` to `9`. [`format`] reads and fills the struct of a C
//! program, [`layout`] has the values, texts and offsets of a column as bytes, and [`status`] and [`wide`] have what
//! crosses to C: errors, and numbers of 128 bits by their halves.
//!
//! What programs are compiled with stays: the exports and their parameters, the fields of `NumFormat`, and the numbers
//! of [`Status`](status::Status), types, groupings and roundings. A change there is one of `num_format.h` too. All else
//! may be changed.
//!
//! The header says what a C program has to know, and what it must ensure. The contracts here say
//! what each call returns and writes, for any bytes of a struct and of a text.
//!
//! A call returns 0, a length, a version, or 1 or 0 for yes and no. Where it fails it returns a
//! negative number, the [`code`](status::Status::code) of a `Status`, and what it would have written is as
//! it was, but for the place of an unexpected byte.
#![tactic(auto)]

ghost use Rattle.std.specs.Prelude.{◌≡◌, ◌+◌, ◌*◌, ◌^◌, codes, pos};
ghost use Rattle.num_format.specs.Alike.{Alike};
ghost use Rattle.num_format.specs.Kind.{kind_of, I128, U128};
ghost use Rattle.num_format.specs.RoundTrips.{RoundTrips};
ghost use Rattle.num_format.specs.Text.{text_of};
ghost use Rattle.num_format_decimal.specs.Values.{minus, plus};
ghost use Rattle.num_format_c.specs.Arithmetic.{Compares, Computes, Rescales, rounding_of};
ghost use Rattle.num_format_c.specs.Calls.{ByTag, FillsByTag, FillsCustom, FillsLocale, GetsBits, Into, NamesByTag};
ghost use Rattle.num_format_c.specs.Calls.{Parses, ParsesBits, ParsesInto, Prints, PrintsDecimal, ReturnsDecimalLength};
ghost use Rattle.num_format_c.specs.Calls.{ReturnsLength, SetsDigits, Tells, WritesName, at_scale, columns_of};
ghost use Rattle.num_format_c.specs.Calls.{decimal_of, decimals, numbers, signed_kind, signed_wide, typed_at_scale};
ghost use Rattle.num_format_c.specs.Calls.{typed_decimals, unsigned_kind, unsigned_wide};
ghost use Rattle.num_format_c.specs.Columns.{MeasuresDecimals, MeasuresNumbers, ParsesDecimals, ParsesNumbers};
ghost use Rattle.num_format_c.specs.Columns.{ParsesTyped, PrintsDecimals, PrintsNumbers, to_parsed, to_printed};
ghost use Rattle.num_format_c.specs.Layout.{to_texts, to_values};
ghost use Rattle.num_format_c.specs.FormatRef.{HasFormat, HasLatin, digits_of, format_of};

mod arithmetic;
mod calls;
mod columns;
pub mod format;
pub mod layout;
mod shown;
pub mod status;
pub mod wide;

use format::NumFormat;
use layout::{Texts, Values};
use status::{returned, stored};
use wide::{joined, stored_decimal, stored_wide};

/// Returns the version of the library: 10,000 times its first number, 100 times its second, and its third.
#[unsafe(no_mangle)]
pub extern "C" fn num_format_version() -> u32
    ensures { result ≡ 100 }
{
    100
}

/// Fills the struct with the format of the locale that the name spells, and returns 0.
///
/// Errors: a name that is not UTF-8, or that no locale has.
#[unsafe(no_mangle)]
pub extern "C" fn num_format_locale(format: &mut NumFormat, name: &[u8]) -> i32
    ensures { FillsLocale name.now format.old format.new result }
{
    returned(calls::fill_locale(format, name))
}

/// Fills the struct with the format of the locale for a language tag, which
/// [`Locale::lookup`](num_format::Locale::lookup) finds, and with the digits that
/// [`Digits::of_tag`](num_format_digits::Digits::of_tag) returns, or else `0` to `9`, and returns 0.
///
/// Errors, in this order: a tag that is not UTF-8, for which there is no locale, or whose digits are unknown.
#[unsafe(no_mangle)]
pub extern "C" fn num_format_lookup(format: &mut NumFormat, tag: &[u8]) -> i32
    ensures { ByTag tag.now format.old format.new result (FillsByTag tag.now format.old format.new result) }
{
    returned(calls::fill_by_tag(format, tag))
}

/// Sets the digits of the struct to those of a name, as [`Digits::from_name`](num_format_digits::Digits::from_name)
/// returns them, changes nothing else, and returns 0.
///
/// Errors: a name that is not UTF-8, or that no digit set has.
#[unsafe(no_mangle)]
pub extern "C" fn num_format_set_digits(format: &mut NumFormat, name: &[u8]) -> i32
    ensures { SetsDigits name.now format.old format.new result }
{
    returned(calls::set_digits(format, name))
}

/// Fills the struct with a separator and a minus sign of at most 8 bytes each, the grouping for which the
/// number stands, and the decimal mark `.`, and returns 0.
///
/// Errors, in this order: a text that is not UTF-8, a text that is too long, a number of no grouping.
#[unsafe(no_mangle)]
pub extern "C" fn num_format_custom(
    format: &mut NumFormat,
    separator: &[u8],
    grouping: u32,
    minus_sign: &[u8],
) -> i32
    ensures { FillsCustom separator.now grouping minus_sign.now (codes ".") format.old format.new result }
{
    returned(calls::fill_custom(format, separator, grouping, minus_sign, b"."))
}

/// Fills the struct as [`num_format_custom`] does, but with this decimal mark, of at most 8 bytes.
#[unsafe(no_mangle)]
pub extern "C" fn num_format_custom_decimal(
    format: &mut NumFormat,
    separator: &[u8],
    grouping: u32,
    minus_sign: &[u8],
    decimal_mark: &[u8],
) -> i32
    ensures { FillsCustom separator.now grouping minus_sign.now decimal_mark.now format.old format.new result }
{
    returned(calls::fill_custom(format, separator, grouping, minus_sign, decimal_mark))
}

/// Prints the number at the start of the array, and returns the length of its text, at most 191, or 796 in other digits
/// than `0` to `9`.
///
/// Errors, in this order: a struct that has no format, an array that is shorter than the text.
#[unsafe(no_mangle)]
pub extern "C" fn num_format_print_i64(format: &NumFormat, number: i64, text: &mut [u8]) -> i32
    ensures { Prints format.now number text.old text.new result }
{
    returned(calls::print::<i64>(format, &number, text))
}

/// Prints the number as [`num_format_print_i64`] does.
#[unsafe(no_mangle)]
pub extern "C" fn num_format_print_u64(format: &NumFormat, number: u64, text: &mut [u8]) -> i32
    ensures { Prints format.now (pos number) text.old text.new result }
{
    returned(calls::print::<u64>(format, &number, text))
}

/// Prints the number of these halves as [`num_format_print_i64`] does.
#[unsafe(no_mangle)]
pub extern "C" fn num_format_print_u128(
    format: &NumFormat,
    low: u64,
    high: u64,
    text: &mut [u8],
) -> i32
    ensures { Prints format.now (pos (unsigned_wide low high)) text.old text.new result }
{
    returned(calls::print(format, &joined(low, high), text))
}

/// Prints the number of which these are the halves in two's complement, as
/// [`num_format_print_i64`] does.
#[unsafe(no_mangle)]
pub extern "C" fn num_format_print_i128(
    format: &NumFormat,
    low: u64,
    high: u64,
    text: &mut [u8],
) -> i32
    ensures { Prints format.now (signed_wide low high) text.old text.new result }
{
    returned(calls::print(format, &joined(low, high).cast_signed(), text))
}

/// Prints the decimal whose units have these halves in two's complement at the start of the array, and
/// returns the length of its text, at most 199, or 796 in other digits than `0` to `9`.
///
/// Errors, in this order: a scale above 38, a struct that has no format, an array that is shorter than the
/// text.
#[unsafe(no_mangle)]
pub extern "C" fn num_format_print_decimal(
    format: &NumFormat,
    low: u64,
    high: u64,
    scale: u32,
    text: &mut [u8],
) -> i32
    ensures { PrintsDecimal format.now (decimal_of low high scale) text.old text.new result }
{
    returned(calls::print_decimal(format, low, high, scale, text))
}

/// Returns the length of the text that [`num_format_print_i64`] prints.
///
/// Error: a struct that has no format.
#[unsafe(no_mangle)]
pub extern "C" fn num_format_print_i64_len(format: &NumFormat, number: i64) -> i32
    ensures { ReturnsLength format.now (λ f. text_of f number) result }
{
    returned(calls::text_len::<i64>(format, &number))
}

/// Returns the length of the text that [`num_format_print_u64`] prints, as [`num_format_print_i64_len`] does.
#[unsafe(no_mangle)]
pub extern "C" fn num_format_print_u64_len(format: &NumFormat, number: u64) -> i32
    ensures { ReturnsLength format.now (λ f. text_of f (pos number)) result }
{
    returned(calls::text_len::<u64>(format, &number))
}

/// Returns the length of the text that [`num_format_print_u128`] prints, as [`num_format_print_i64_len`] does.
#[unsafe(no_mangle)]
pub extern "C" fn num_format_print_u128_len(format: &NumFormat, low: u64, high: u64) -> i32
    ensures { ReturnsLength format.now (λ f. text_of f (pos (unsigned_wide low high))) result }
{
    returned(calls::text_len(format, &joined(low, high)))
}

/// Returns the length of the text that [`num_format_print_i128`] prints, as [`num_format_print_i64_len`] does.
#[unsafe(no_mangle)]
pub extern "C" fn num_format_print_i128_len(format: &NumFormat, low: u64, high: u64) -> i32
    ensures { ReturnsLength format.now (λ f. text_of f (signed_wide low high)) result }
{
    returned(calls::text_len(format, &joined(low, high).cast_signed()))
}

/// Returns the length of the text that [`num_format_print_decimal`] prints.
///
/// Errors, in this order: a scale above 38, a struct that has no format.
#[unsafe(no_mangle)]
pub extern "C" fn num_format_print_decimal_len(
    format: &NumFormat,
    low: u64,
    high: u64,
    scale: u32,
) -> i32
    ensures { ReturnsDecimalLength format.now (decimal_of low high scale) result }
{
    returned(calls::decimal_len(format, low, high, scale))
}

/// Returns the columns that a text takes where each character takes one, but a mark of the direction of writing none.
/// Each byte counts that is not 0x80 to 0xBF, and begins no mark.
#[unsafe(no_mangle)]
pub extern "C" fn num_format_text_width(text: &[u8]) -> usize
    ensures { result ≡ columns_of text.now }
{
    calls::text_width(text)
}

/// Parses the text as a signed number of 8, 16, 32 or 64 bits, writes the number, and returns 0.
///
/// Errors, in this order: another number of bits, a struct that has no format, a text that is not
/// UTF-8, a text that is refused as a number of that many bits.
#[unsafe(no_mangle)]
pub extern "C" fn num_format_parse_i64(
    format: &NumFormat,
    bits: u32,
    text: &[u8],
    number: &mut i64,
) -> i32
    ensures { ParsesInto (ParsesBits (signed_kind bits) (λ n. n) format.now text.now)
        number.old number.new result }
{
    returned(stored(calls::parse_signed(format, bits, text), number))
}

/// Parses the text as an unsigned number, as [`num_format_parse_i64`] does as a signed one.
#[unsafe(no_mangle)]
pub extern "C" fn num_format_parse_u64(
    format: &NumFormat,
    bits: u32,
    text: &[u8],
    number: &mut u64,
) -> i32
    ensures { ParsesInto (ParsesBits (unsigned_kind bits) (λ n. pos n) format.now text.now)
        number.old number.new result }
{
    returned(stored(calls::parse_unsigned(format, bits, text), number))
}

/// Parses the text as a `u128`, writes the halves of the number, and returns 0.
///
/// The errors are those of [`num_format_parse_i64`] but the first.
#[unsafe(no_mangle)]
pub extern "C" fn num_format_parse_u128(
    format: &NumFormat,
    text: &[u8],
    low: &mut u64,
    high: &mut u64,
) -> i32
    ensures { ParsesInto (Parses (kind_of U128) (λ n. pos n) format.now text.now)
        (unsigned_wide low.old high.old) (unsigned_wide low.new high.new) result }
{
    returned(stored_wide(calls::parse::<u128>(format, text), low, high))
}

/// Parses the text as an `i128`, writes the halves of its two's complement, and returns 0.
///
/// The errors are those of [`num_format_parse_i64`] but the first.
#[unsafe(no_mangle)]
pub extern "C" fn num_format_parse_i128(
    format: &NumFormat,
    text: &[u8],
    low: &mut u64,
    high: &mut u64,
) -> i32
    ensures { ParsesInto (Parses (kind_of I128) (λ n. n) format.now text.now)
        (signed_wide low.old high.old) (signed_wide low.new high.new) result }
{
    returned(stored_wide(calls::parse::<i128>(format, text), low, high))
}

/// Parses the text strictly as a signed number of 8, 16, 32 or 64 bits, writes the number, and returns 0.
///
/// Errors, in this order: another number of bits, a struct that has no format, and those of
/// [`StrictError`](num_format::parsing::StrictError). The place of an unexpected byte is written.
#[unsafe(no_mangle)]
pub extern "C" fn num_format_parse_strict_i64(
    format: &NumFormat,
    bits: u32,
    text: &[u8],
    number: &mut i64,
    at: &mut usize,
) -> i32
    ensures { ParsesInto (GetsBits (signed_kind bits) (λ n. n) format.now text.now at.old at.new)
        number.old number.new result }
{
    returned(stored(calls::parse_strict_signed(format, bits, text, at), number))
}

/// Parses the text strictly as an unsigned number, as [`num_format_parse_strict_i64`] does as a signed one.
#[unsafe(no_mangle)]
pub extern "C" fn num_format_parse_strict_u64(
    format: &NumFormat,
    bits: u32,
    text: &[u8],
    number: &mut u64,
    at: &mut usize,
) -> i32
    ensures { ParsesInto (GetsBits (unsigned_kind bits) (λ n. pos n) format.now text.now at.old at.new)
        number.old number.new result }
{
    returned(stored(calls::parse_strict_unsigned(format, bits, text, at), number))
}

/// Parses the text strictly as a `u128`, writes the halves of the number, and returns 0.
///
/// The errors are those of [`num_format_parse_strict_i64`] but the first.
#[unsafe(no_mangle)]
pub extern "C" fn num_format_parse_strict_u128(
    format: &NumFormat,
    text: &[u8],
    low: &mut u64,
    high: &mut u64,
    at: &mut usize,
) -> i32
    ensures { Into (numbers (kind_of U128) (λ n. pos n)) format.now text.now
        (unsigned_wide low.old high.old) (unsigned_wide low.new high.new) at.old at.new result }
{
    returned(stored_wide(calls::parse_strict::<u128>(format, text, at), low, high))
}

/// Parses the text strictly as an `i128`, writes the halves of its two's complement, and returns 0.
///
/// The errors are those of [`num_format_parse_strict_i64`] but the first.
#[unsafe(no_mangle)]
pub extern "C" fn num_format_parse_strict_i128(
    format: &NumFormat,
    text: &[u8],
    low: &mut u64,
    high: &mut u64,
    at: &mut usize,
) -> i32
    ensures { Into (numbers (kind_of I128) (λ n. n)) format.now text.now
        (signed_wide low.old high.old) (signed_wide low.new high.new) at.old at.new result }
{
    returned(stored_wide(calls::parse_strict::<i128>(format, text, at), low, high))
}

/// Parses the text strictly as a decimal, writes the halves of its units in two's complement and its scale, and
/// returns 0.
///
/// Errors, in this order: a struct that has no format, and those of
/// [`StrictError`](num_format::parsing::StrictError). The place of an unexpected byte is written.
#[unsafe(no_mangle)]
pub extern "C" fn num_format_parse_decimal(
    format: &NumFormat,
    text: &[u8],
    low: &mut u64,
    high: &mut u64,
    scale: &mut u32,
    at: &mut usize,
) -> i32
    ensures { Into decimals format.now text.now
        (decimal_of low.old high.old scale.old) (decimal_of low.new high.new scale.new) at.old at.new result }
{
    returned(stored_decimal(calls::parse_decimal(format, text, at), low, high, scale))
}

/// Parses the text as a person types it (no data type is meant) as a number of a type, as
/// [`num_format_print_column`] says, writes its bytes in the machine's order, and returns 0.
///
/// Errors, in this order: a number of no type, a struct that has no format, another number of bytes than the type has,
/// and those of [`TypedError`](num_format_typed::TypedError). The place of an unexpected byte is written.
#[unsafe(no_mangle)]
pub extern "C" fn num_format_parse_typed(
    format: &NumFormat,
    value_type: u32,
    text: &[u8],
    value: &mut [u8],
    at: &mut usize,
) -> i32
    ensures { ParsesTyped value_type format.now text.now value.old value.new at.old at.new result }
{
    returned(columns::parse_one(format, value_type, text, value, at))
}

/// Parses the text as a person types it (no data type is meant) as a decimal, as [`num_format_parse_decimal`] does one
/// that is exactly as it is printed.
///
/// A further error is a text that is too long.
#[unsafe(no_mangle)]
pub extern "C" fn num_format_parse_typed_decimal(
    format: &NumFormat,
    text: &[u8],
    low: &mut u64,
    high: &mut u64,
    scale: &mut u32,
    at: &mut usize,
) -> i32
    ensures { Into typed_decimals format.now text.now
        (decimal_of low.old high.old scale.old) (decimal_of low.new high.new scale.new) at.old at.new result }
{
    let parsed = calls::parse_typed_decimal(format, text, at);
    returned(stored_decimal(parsed, low, high, scale))
}

/// Adds a decimal to the one whose units have the halves `low` and `high`, writes the sum in its place, and returns 0.
/// The sum is exact, at the larger of both scales.
///
/// Errors, in this order: a scale above 38, a sum whose units have more than 128 bits.
#[unsafe(no_mangle)]
pub extern "C" fn num_format_decimal_add(
    low: &mut u64,
    high: &mut u64,
    scale: &mut u32,
    other_low: u64,
    other_high: u64,
    other_scale: u32,
) -> i32
    ensures { Computes plus (decimal_of other_low other_high other_scale)
        (decimal_of low.old high.old scale.old) (decimal_of low.new high.new scale.new) result }
{
    returned(arithmetic::add(low, high, scale, other_low, other_high, other_scale))
}

/// Subtracts a decimal from another one, as [`num_format_decimal_add`] adds them.
#[unsafe(no_mangle)]
pub extern "C" fn num_format_decimal_subtract(
    low: &mut u64,
    high: &mut u64,
    scale: &mut u32,
    other_low: u64,
    other_high: u64,
    other_scale: u32,
) -> i32
    ensures { Computes minus (decimal_of other_low other_high other_scale)
        (decimal_of low.old high.old scale.old) (decimal_of low.new high.new scale.new) result }
{
    returned(arithmetic::subtract(low, high, scale, other_low, other_high, other_scale))
}

/// Writes a decimal at another scale in its place, where it is rounded if that has fewer decimals, and returns 0.
///
/// Errors, in this order: a scale above 38, digits that would be lost where nothing is rounded, units of more than
/// 128 bits.
#[unsafe(no_mangle)]
pub extern "C" fn num_format_decimal_rescale(
    low: &mut u64,
    high: &mut u64,
    scale: &mut u32,
    new_scale: u32,
    rounding: u32,
) -> i32
    ensures { Rescales (rounding_of rounding) new_scale
        (decimal_of low.old high.old scale.old) (decimal_of low.new high.new scale.new) result }
{
    returned(arithmetic::rescale(low, high, scale, new_scale, rounding))
}

/// Writes -1, 0 or 1 for a decimal below, at or above the value of another, and returns 0.
///
/// Error: a scale above 38.
#[unsafe(no_mangle)]
pub extern "C" fn num_format_decimal_compare(
    low: u64,
    high: u64,
    scale: u32,
    other_low: u64,
    other_high: u64,
    other_scale: u32,
    order: &mut i32,
) -> i32
    ensures { Compares (decimal_of low high scale) (decimal_of other_low other_high other_scale)
        order.old order.new result }
{
    returned(arithmetic::compare(low, high, scale, other_low, other_high, other_scale, order))
}

/// Prints the numbers of a column one after another at the start of the bytes, writes where each text ends and how
/// many bytes they have together, and returns 0. A null row has an empty text.
///
/// A type is a number: the code of Apache Arrow's letter for it, or of `q` or `Q` for 128 bits. The values and the
/// offsets are bytes, in the machine's order. There is one offset more than rows, and the first is 0. Where there are
/// no bits, no row is null; else row k is null if bit `bit_offset + k` is not set.
///
/// Errors, in this order: a number of no type, a struct that has no format, values that are not those of whole
/// rows, another number of offsets or fewer bits than the rows need, more bytes than the last offset can say, an
/// array that is shorter than the texts.
#[unsafe(no_mangle)]
pub extern "C" fn num_format_print_column(
    format: &NumFormat,
    value_type: u32,
    values: &[u8],
    bits: &[u8],
    bit_offset: usize,
    offsets: &mut [u8],
    offset_type: u32,
    bytes: &mut [u8],
    len: &mut usize,
) -> i32
    ensures { PrintsNumbers value_type offset_type format.now (to_values values.entry bits.entry bit_offset)
        (to_printed offsets.old bytes.old len.old) (to_printed offsets.new bytes.new len.new) result }
{
    let values = &Values::new(values, bits, bit_offset);
    returned(columns::print(format, value_type, values, offset_type, offsets, bytes, len))
}

/// Writes how many bytes the texts of the numbers of a column have together, and returns 0.
///
/// Errors, in this order: a number of no type, a struct that has no format, values that are not those of whole
/// rows or fewer bits than the rows need, more bytes than a `usize` holds.
#[unsafe(no_mangle)]
pub extern "C" fn num_format_print_column_len(
    format: &NumFormat,
    value_type: u32,
    values: &[u8],
    bits: &[u8],
    bit_offset: usize,
    len: &mut usize,
) -> i32
    ensures { MeasuresNumbers value_type format.now (to_values values.entry bits.entry bit_offset)
        len.old len.new result }
{
    let values = &Values::new(values, bits, bit_offset);
    returned(columns::measure(format, value_type, values, len))
}

/// Parses the texts of a column strictly if `mode` is 0, as people type them if it is 2, and else leniently, and
/// returns 0. Writes the number and the status of each row: those that the call for one text writes and returns. The
/// number of a null row stays, and its status is 0.
///
/// Errors, in this order: a number of no type, a struct that has no format, or leniently one with other digits than
/// `0` to `9`, a format under which a text can be misread unless it parses leniently, values that are not those of
/// whole rows, another number of offsets or statuses or fewer bits than the rows need, an offset that is below the one
/// before it, or past the bytes.
#[unsafe(no_mangle)]
pub extern "C" fn num_format_parse_column(
    format: &NumFormat,
    value_type: u32,
    mode: u32,
    offsets: &[u8],
    offset_type: u32,
    bytes: &[u8],
    values: &mut [u8],
    bits: &[u8],
    bit_offset: usize,
    statuses: &mut [i32],
) -> i32
    ensures { ParsesNumbers value_type offset_type mode format.now
        (to_texts offsets.entry bytes.entry bits.entry bit_offset)
        (to_parsed values.old statuses.old) (to_parsed values.new statuses.new) result }
{
    let texts = &Texts::new(offsets, bytes, bits, bit_offset);
    returned(columns::parse(
        format,
        value_type,
        mode,
        offset_type,
        texts,
        values,
        statuses,
    ))
}

/// Prints the decimals with these units and this scale as [`num_format_print_column`] does numbers. Units have 16
/// bytes each, in two's complement.
///
/// Its first error is a scale above 38.
#[unsafe(no_mangle)]
pub extern "C" fn num_format_print_decimal_column(
    format: &NumFormat,
    units: &[u8],
    scale: u32,
    bits: &[u8],
    bit_offset: usize,
    offsets: &mut [u8],
    offset_type: u32,
    bytes: &mut [u8],
    len: &mut usize,
) -> i32
    ensures { PrintsDecimals scale offset_type format.now (to_values units.entry bits.entry bit_offset)
        (to_printed offsets.old bytes.old len.old) (to_printed offsets.new bytes.new len.new) result }
{
    let units = &Values::new(units, bits, bit_offset);
    returned(columns::print_decimals(format, units, scale, offset_type, offsets, bytes, len))
}

/// Writes how many bytes the texts of the decimals of a column have, as [`num_format_print_column_len`] does those
/// of numbers.
///
/// Its first error is a scale above 38.
#[unsafe(no_mangle)]
pub extern "C" fn num_format_print_decimal_column_len(
    format: &NumFormat,
    units: &[u8],
    scale: u32,
    bits: &[u8],
    bit_offset: usize,
    len: &mut usize,
) -> i32
    ensures { MeasuresDecimals scale format.now (to_values units.entry bits.entry bit_offset) len.old len.new result }
{
    let units = &Values::new(units, bits, bit_offset);
    returned(columns::measure_decimals(format, units, scale, len))
}

/// Parses the texts of a column strictly as decimals, writes their units at this scale, and else does as
/// [`num_format_parse_column`].
///
/// Its first error is a scale above 38, and its fourth a format under which a decimal can be misread.
#[unsafe(no_mangle)]
pub extern "C" fn num_format_parse_decimal_column(
    format: &NumFormat,
    scale: u32,
    offsets: &[u8],
    offset_type: u32,
    bytes: &[u8],
    units: &mut [u8],
    bits: &[u8],
    bit_offset: usize,
    statuses: &mut [i32],
) -> i32
    ensures { ParsesDecimals (at_scale scale) scale offset_type format.now
        (to_texts offsets.entry bytes.entry bits.entry bit_offset)
        (to_parsed units.old statuses.old) (to_parsed units.new statuses.new) result }
{
    let texts = &Texts::new(offsets, bytes, bits, bit_offset);
    returned(columns::parse_decimals(format, scale, offset_type, texts, units, statuses))
}

/// Parses the texts of a column as people type them (no data type is meant) as decimals, and else does as
/// [`num_format_parse_decimal_column`].
#[unsafe(no_mangle)]
pub extern "C" fn num_format_parse_typed_decimal_column(
    format: &NumFormat,
    scale: u32,
    offsets: &[u8],
    offset_type: u32,
    bytes: &[u8],
    units: &mut [u8],
    bits: &[u8],
    bit_offset: usize,
    statuses: &mut [i32],
) -> i32
    ensures { ParsesDecimals (typed_at_scale scale) scale offset_type format.now
        (to_texts offsets.entry bytes.entry bits.entry bit_offset)
        (to_parsed units.old statuses.old) (to_parsed units.new statuses.new) result }
{
    let texts = &Texts::new(offsets, bytes, bits, bit_offset);
    returned(columns::parse_typed_decimals(format, scale, offset_type, texts, units, statuses))
}

/// Returns 1 if every number of every integer type parses again from its text under the format,
/// else 0.
///
/// Error: a struct that has no format, or one with other digits than `0` to `9`.
#[unsafe(no_mangle)]
pub extern "C" fn num_format_reads_back(format: &NumFormat) -> i32
    ensures { Tells (HasLatin format.now) (RoundTrips (format_of format.now)) result }
{
    returned(calls::reads_back(format))
}

/// Returns 1 if each number has the same text under both formats, and both have the same digits, else 0.
///
/// Error: a struct that has no format.
#[unsafe(no_mangle)]
pub extern "C" fn num_format_prints_alike(first: &NumFormat, second: &NumFormat) -> i32
    ensures { Tells (HasFormat first.now × HasFormat second.now)
        ((digits_of first.now ≡ digits_of second.now) × Alike (format_of first.now) (format_of second.now)) result }
{
    returned(calls::prints_alike(first, second))
}

/// Writes the name of the locale at the place at the start of the array, and returns its length.
///
/// Errors, in this order: a place past the last locale, an array that is shorter than the name.
#[unsafe(no_mangle)]
pub extern "C" fn num_format_names(place: usize, name: &mut [u8]) -> i32
    ensures { WritesName place name.old name.new result }
{
    returned(calls::name(place, name))
}

/// Writes the name of the locale for a language tag, which [`Locale::lookup`](num_format::Locale::lookup)
/// finds, at the start of the array, and returns its length.
///
/// Errors, in this order: those of [`num_format_lookup`], an array that is shorter than the name.
#[unsafe(no_mangle)]
pub extern "C" fn num_format_lookup_name(tag: &[u8], name: &mut [u8]) -> i32
    ensures { ByTag tag.now name.old name.new result (NamesByTag tag.now name.old name.new result) }
{
    returned(calls::name_by_tag(tag, name))
}
