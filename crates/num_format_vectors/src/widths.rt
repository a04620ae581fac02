//! Whole numbers, decimals and amounts of money filled up to each width, and the longest texts.
//!
//! The contracts say what is written where a call succeeds. These tests show that it does at each width up to one that
//! is larger than any text. `tests/cases/padded.tsv` has other texts, at some widths.

use crate::asserting::assert_equal;
use num_format::{CustomFormat, Error, Grouping, Locale, ToFormattedString};
use num_format_decimal::{Decimal, DecimalBuffer};
use std::alloc::Global;
use std::fmt::{Display, Style};
use std::process::Abort;
use std::test::Fail;
use uses_money::{Currency, Money};

/// The largest width, more than the columns of the longest text.
const WIDEST: usize = 300;

/// Asserts what is displayed of a value that has this text, at each width and at one that is far larger.
fn assert_filled<T: Display>(
    rt: &impl Abort,
    alloc: Global,
    value: &T,
    text: &str,
) -> Result<(), Fail> {
    for width in 0..=WIDEST {
        assert_filled_to(rt, alloc, value, text, width)?;
    }
    assert_filled_to(rt, alloc, value, text, 65_535)
}

/// Asserts the same at one width, with spaces and with a fill of three bytes.
fn assert_filled_to<T: Display>(
    rt: &impl Abort,
    alloc: Global,
    value: &T,
    text: &str,
    width: usize,
) -> Result<(), Fail> {
    let missing = width.saturating_sub(text.chars().count());
    let spaces = " ".repeat(alloc, missing)?;
    let right = format!(in alloc; "{}", value.width(width))?;
    let expected = format!(in alloc; "{spaces}{text}")?;
    assert_equal(rt, right.as_str(), expected.as_str());
    let fill = "€".repeat(alloc, missing)?;
    let left = format!(in alloc; "{}", value.left().fill('€').width(width))?;
    let expected = format!(in alloc; "{text}{fill}")?;
    assert_equal(rt, left.as_str(), expected.as_str());
    Ok(())
}

/// Returns the format under which texts are longest: the separator, the minus sign and the mark have eight bytes.
fn longest_format() -> Result<CustomFormat, Error> {
    CustomFormat::builder()
        .grouping(Grouping::Indian)
        .separator("12345678")
        .minus_sign("abcdefgh")
        .decimal("ABCDEFGH")
        .build()
}

/// The text of `i128::MIN` has 191 columns under that format, and 199 with one decimal.
#[test]
fn the_longest_texts(rt: HostRuntime) -> Result<(), Fail> {
    let (alloc, format) = (rt.alloc(), longest_format()?);
    let groups = "17 01 41 18 34 60 46 92 31 73 16 87 30 37 15 88 41 05 728";
    let groups = groups.replace(alloc, " ", "12345678")?;
    let whole = format!(in alloc; "abcdefgh{groups}")?;
    assert_filled(&rt, alloc, &i128::MIN.formatted(&format), &whole)?;
    let groups = "1 70 14 11 83 46 04 69 23 17 31 68 73 03 71 58 84 10 572";
    let groups = groups.replace(alloc, " ", "12345678")?;
    let tenths = format!(in alloc; "abcdefgh{groups}ABCDEFGH8")?;
    let decimal = Decimal::new(i128::MIN, 1)?;
    assert_filled(&rt, alloc, &decimal.formatted(&format), &tenths)?;
    assert_equal(&rt, (whole.len(), tenths.len()), (191, 199));
    assert_written(&rt, alloc, &decimal, &format, &tenths)
}

/// Asserts the text of a decimal by each call that may fail.
fn assert_written(
    rt: &impl Abort,
    alloc: Global,
    decimal: &Decimal,
    format: &CustomFormat,
    text: &str,
) -> Result<(), Fail> {
    let string = decimal.to_formatted_string(alloc, format)?;
    assert_equal(rt, string.as_str(), text);
    let mut appended = String::new(alloc);
    decimal.read_to_fmt_writer(&mut appended, format)?;
    assert_equal(rt, appended.as_str(), text);
    let mut bytes = Vec::new(alloc);
    decimal.read_to_io_writer(&mut bytes, format)?;
    assert_equal(rt, bytes.as_slice(), text.as_bytes());
    let buffer = DecimalBuffer::of(decimal, format);
    let shown = format!(in alloc; "{buffer}|{buffer:?}")?;
    let expected = format!(in alloc; "{text}|{text}")?;
    assert_equal(rt, shown.as_str(), expected.as_str());
    Ok(())
}

/// In the debug form a width counts for a decimal under a format, and not for its buffer.
#[test]
fn decimals_to_debug(rt: HostRuntime) -> Result<(), Fail> {
    let price = Decimal::new(-123_450, 2)?;
    let buffer = DecimalBuffer::of(&price, &Locale::en);
    let shown = price.formatted(&Locale::en);
    let text = format!(in rt.alloc(); "{shown:>12?}|{buffer:>12?}")?;
    assert_equal(&rt, text.as_str(), "   -1,234.50|-1,234.50");
    Ok(())
}

#[test]
fn money(rt: HostRuntime) -> Result<(), Fail> {
    let price = Money {
        minor_units: -123_450,
        currency: Currency::Eur,
    };
    assert_filled(&rt, rt.alloc(), &price.formatted(&Locale::de), "-1.234,50")?;
    let least = Money {
        minor_units: i128::MIN,
        currency: Currency::Chf,
    };
    let text = "-1,701,411,834,604,692,317,316,873,037,158,841,057.28";
    assert_filled(&rt, rt.alloc(), &least.formatted(&Locale::en), text)
}
