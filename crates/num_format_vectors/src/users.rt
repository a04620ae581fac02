//! The crates `uses_money` and `uses_settings`: amounts displayed and parsed, and formats of settings.

use crate::asserting::assert_equal;
use num_format::parsing::StrictError;
use num_format::{Buffer, Locale};
use num_format_decimal::{DecimalError, ParseAtScaleError};
use std::alloc::Global;
use std::process::Abort;
use std::test::Fail;
use uses_money::{Currency, Money, format_price};
use uses_settings::parse_format;

/// Minor units of a currency, a locale, and the text of the amount.
type Amount = (i128, Currency, Locale, &'static str);

#[rattlefmt::skip]
const AMOUNTS: [Amount; 7] = [
    (123_456_789, Currency::Eur, Locale::de, "1.234.567,89"),
    (-5, Currency::Usd, Locale::en, "-0.05"),
    (100_000, Currency::Eur, Locale::es, "1.000,00"),
    (123_456_789, Currency::Inr, Locale::en_IN, "12,34,567.89"),
    (-123_450, Currency::Jpy, Locale::en, "-123,450"),
    (i128::MIN, Currency::Chf, Locale::en, "-1,701,411,834,604,692,317,316,873,037,158,841,057.28"),
    (i128::MAX, Currency::Krw, Locale::en, "170,141,183,460,469,231,731,687,303,715,884,105,727"),
];

/// Asserts how an amount is displayed, and that this text is parsed as the amount.
fn assert_money(rt: &impl Abort, alloc: Global, amount: &Amount) -> Result<(), Fail> {
    let (minor_units, currency, locale, text) = *amount;
    let money = Money {
        minor_units,
        currency,
    };
    let displayed = format!(in alloc; "{}", money.formatted(&locale))?;
    assert_equal(rt, displayed.as_str(), text);
    assert_equal(rt, Money::parse(text, currency, &locale), Ok(money));
    Ok(())
}

#[test]
fn amounts(rt: HostRuntime) -> Result<(), Fail> {
    for amount in &AMOUNTS {
        assert_money(&rt, rt.alloc(), amount)?;
    }
    Ok(())
}

/// A text that is no amount of the currency under `en`, and why.
type Refused = (&'static str, Currency, ParseAtScaleError);

#[rattlefmt::skip]
const REFUSED: [Refused; 4] = [
    ("12.345", Currency::Usd, ParseAtScaleError::Rescale(DecimalError::DigitsLost)),
    ("12.5", Currency::Jpy, ParseAtScaleError::Rescale(DecimalError::DigitsLost)),
    ("12.50 USD", Currency::Usd, ParseAtScaleError::Parse(StrictError::Unexpected { at: 5 })),
    ("1,23.40", Currency::Usd, ParseAtScaleError::Parse(StrictError::Misspelled)),
];

/// Asserts why a text is refused as an amount.
fn assert_no_money(rt: &impl Abort, refused: &Refused) {
    let (text, currency, error) = *refused;
    assert_equal(rt, Money::parse(text, currency, &Locale::en), Err(error));
}

#[test]
fn refused_amounts(rt: HostRuntime) {
    for refused in &REFUSED {
        assert_no_money(&rt, refused);
    }
}

#[test]
fn the_longest_prices(rt: HostRuntime) -> Result<(), Fail> {
    let least = format_price(rt.alloc(), i64::MIN, Locale::en)?;
    assert_equal(&rt, least.as_str(), "-92,233,720,368,547,758.08");
    let most = format_price(rt.alloc(), i64::MAX, Locale::de)?;
    assert_equal(&rt, most.as_str(), "92.233.720.368.547.758,07");
    let none = format_price(rt.alloc(), 0, Locale::en)?;
    assert_equal(&rt, none.as_str(), "0.00");
    Ok(())
}

/// Asserts the text of a number under the format of these settings.
fn assert_printed(rt: &impl Abort, settings: &str, expected: &str) -> Result<(), Fail> {
    let format = parse_format(settings)?;
    let buffer = Buffer::of(&-1_234_567, &format);
    assert_equal(rt, buffer.as_str(), expected);
    Ok(())
}

#[test]
fn settings(rt: HostRuntime) -> Result<(), Fail> {
    assert_printed(&rt, "", "-1,234,567")?;
    assert_printed(&rt, "separator='\ngrouping=Indian", "-12'34'567")?;
    assert_printed(&rt, "separator=123456789\nseparator=.\n", "-1.234.567")
}

/// Asserts the message of the error that these settings have.
fn assert_refused(
    rt: &impl Abort,
    alloc: Global,
    settings: &str,
    expected: &str,
) -> Result<(), Fail> {
    let Err(error) = parse_format(settings) else {
        return Err(Fail::from("a format"));
    };
    let message = format!(in alloc; "{error}")?;
    assert_equal(rt, message.as_str(), expected);
    Ok(())
}

#[test]
fn refused_settings(rt: HostRuntime) -> Result<(), Fail> {
    let too_long =
        "Attempted to write input of length 9 bytes into a buffer with capacity 8 bytes.";
    assert_refused(&rt, rt.alloc(), "minus_sign=123456789", too_long)?;
    let ambiguous = "numbers under this format do not read back";
    assert_refused(&rt, rt.alloc(), "separator=0", ambiguous)?;
    let no_setting = "a line is no setting of a format";
    assert_refused(&rt, rt.alloc(), "grouping=indian", no_setting)?;
    assert_refused(&rt, rt.alloc(), "separator", no_setting)
}
