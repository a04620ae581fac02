//! What `{}` and `{:?}` write, for the shortest and the longest values of each type.
//!
//! The contracts say what is written where a call succeeds. These tests show that it does: a string is
//! a writer that does not fail. No width, fill or precision changes a text.

use crate::asserting::assert_equal;
use num_format::json::JsonFault;
use num_format::parsing::{ParseBytesError, StrictError};
use num_format::utils::{InfinityStr, SeparatorStr};
use num_format::{Buffer, Error, Locale};
use num_format_decimal::{DecimalError, ParseAtScaleError};
use num_format_digits::{DigitText, Digits};
use num_format_typed::TypedError;
use std::alloc::Global;
use std::fmt::{Debug, Display};
use std::process::Abort;
use std::test::Fail;
use uses_money::Currency;

/// Asserts what `{}` writes of a value.
fn assert_displayed<T: Display>(
    rt: &impl Abort,
    alloc: Global,
    value: &T,
    text: &str,
) -> Result<(), Fail> {
    let shown = format!(in alloc; "{value}|{value:*^65535}|{value:.0}")?;
    let expected = format!(in alloc; "{text}|{text}|{text}")?;
    assert_equal(rt, shown.as_str(), expected.as_str());
    Ok(())
}

/// Asserts what `{:?}` writes of a value.
fn assert_debugged<T: Debug>(
    rt: &impl Abort,
    alloc: Global,
    value: &T,
    text: &str,
) -> Result<(), Fail> {
    let shown = format!(in alloc; "{value:?}|{value:*^65535?}")?;
    let expected = format!(in alloc; "{text}|{text}")?;
    assert_equal(rt, shown.as_str(), expected.as_str());
    Ok(())
}

/// A buffer shows its text alone.
#[test]
fn buffers(rt: HostRuntime) -> Result<(), Fail> {
    let alloc = rt.alloc();
    let longest = "0".repeat(alloc, 191)?;
    for text in ["", "5", "1\u{202f}000", longest.as_str()] {
        let buffer = Buffer::from_text(text);
        assert_displayed(&rt, alloc, &buffer, text)?;
        assert_debugged(&rt, alloc, &buffer, text)?;
    }
    Ok(())
}

/// The debug form of a bounded text has quotation marks and escapes, as that of a `str`.
#[test]
fn bounded_texts(rt: HostRuntime) -> Result<(), Fail> {
    let alloc = rt.alloc();
    for (text, debugged) in [
        ("", "\"\""),
        (",", "\",\""),
        ("\u{202f}\u{e9}", "\"\\u{202f}\u{e9}\""),
        ("\"\n\\", "\"\\\"\\n\\\\\""),
    ] {
        let separator = SeparatorStr::new(text)?;
        assert_displayed(&rt, alloc, &separator, text)?;
        assert_debugged(&rt, alloc, &separator, debugged)?;
    }
    let longest = "\u{221e}x".repeat(alloc, 32)?;
    assert_displayed(&rt, alloc, &InfinityStr::new(&longest)?, &longest)
}

/// Asserts what an error and its kind display.
fn assert_message(
    rt: &impl Abort,
    alloc: Global,
    error: Option<Error>,
    message: &str,
) -> Result<(), Fail> {
    let Some(error) = error else {
        return Err(Fail::from("no error"));
    };
    assert_displayed(rt, alloc, &error, message)?;
    assert_displayed(rt, alloc, error.kind(), message)
}

#[test]
fn errors(rt: HostRuntime) -> Result<(), Fail> {
    let alloc = rt.alloc();
    let kept = "a".repeat(alloc, 256)?;
    assert_message(&rt, alloc, Some(Error::new("")), "")?;
    assert_message(&rt, alloc, Some(Error::new(&kept)), &kept)?;
    let debugged = format!(in alloc; "{:?}", Error::new(&kept).kind())?;
    let expected = format!(in alloc; "Other(\"{kept}\")")?;
    assert_equal(&rt, debugged.as_str(), expected.as_str());
    let message = format!(in alloc; "Failed to parse {kept} into a valid locale.")?;
    assert_message(&rt, alloc, Locale::from_name(&kept).err(), &message)?;
    let message =
        "Attempted to write input of length 256 bytes into a buffer with capacity 8 bytes.";
    assert_message(&rt, alloc, SeparatorStr::new(&kept).err(), message)
}

/// Asserts what each value of a list displays.
fn assert_all<T: Display>(rt: &impl Abort, alloc: Global, shown: &[(T, &str)]) -> Result<(), Fail> {
    for (value, text) in shown {
        assert_displayed(rt, alloc, value, text)?;
    }
    Ok(())
}

#[test]
#[rattlefmt::skip]
fn errors_of_parsing(rt: HostRuntime) -> Result<(), Fail> {
    assert_all(&rt, rt.alloc(), &[
        (ParseBytesError::NotUtf8, "The bytes are not UTF-8."),
        (ParseBytesError::NotANumber, "The text is no number of the type."),
    ])?;
    assert_all(&rt, rt.alloc(), &OF_STRICT_PARSING)
}

#[rattlefmt::skip]
const OF_DECIMALS: [(DecimalError, &str); 3] = [
    (DecimalError::ScaleTooLarge, "The scale is larger than 38."),
    (DecimalError::DigitsLost, "Digits would be lost at that scale."),
    (DecimalError::OutOfRange, "The units are out of range."),
];

#[rattlefmt::skip]
const OF_STRICT_PARSING: [(StrictError, &str); 7] = [
    (StrictError::AmbiguousFormat, "The format is ambiguous."),
    (StrictError::NotUtf8, "The bytes are not UTF-8."),
    (StrictError::Unexpected { at: usize::MAX }, "The text has an unexpected byte."),
    (StrictError::NoDigit, "The text has no digit."),
    (StrictError::TooManyDecimals, "The text has more than 38 decimals."),
    (StrictError::Misspelled, "The text is not as the number is printed."),
    (StrictError::OutOfRange, "The number is no value of the type."),
];

/// An error of parsing at a scale shows that of which it is made.
#[test]
fn errors_of_decimals(rt: HostRuntime) -> Result<(), Fail> {
    assert_all(&rt, rt.alloc(), &OF_DECIMALS)?;
    for (error, message) in &OF_DECIMALS {
        assert_displayed(
            &rt,
            rt.alloc(),
            &ParseAtScaleError::Rescale(*error),
            message,
        )?;
    }
    Ok(())
}

#[test]
fn errors_of_parsing_decimals(rt: HostRuntime) -> Result<(), Fail> {
    for (error, message) in &OF_STRICT_PARSING {
        assert_displayed(&rt, rt.alloc(), &ParseAtScaleError::Parse(*error), message)?;
    }
    Ok(())
}

/// An error of a typed text shows that of which it is made.
#[test]
fn errors_of_typed_texts(rt: HostRuntime) -> Result<(), Fail> {
    let too_long: TypedError<StrictError> = TypedError::TooLong;
    assert_displayed(&rt, rt.alloc(), &too_long, "The text is too long.")?;
    for (error, message) in &OF_STRICT_PARSING {
        assert_displayed(&rt, rt.alloc(), &TypedError::Number(*error), message)?;
    }
    Ok(())
}

/// A text in other digits shows itself alone.
#[test]
fn texts_in_digits(rt: HostRuntime) -> Result<(), Fail> {
    assert_displayed(&rt, rt.alloc(), &DigitText::new(), "")?;
    let text = DigitText::of(&i64::MIN, &Locale::en, Digits::of_locale(Locale::ne));
    assert_displayed(&rt, rt.alloc(), &text, "-९,२२३,३७२,०३६,८५४,७७५,८०८")
}

/// A currency shows its code. The codes are those of ISO 4217.
#[test]
#[rattlefmt::skip]
fn currencies(rt: HostRuntime) -> Result<(), Fail> {
    assert_all(&rt, rt.alloc(), &[
        (Currency::Usd, "USD"), (Currency::Eur, "EUR"), (Currency::Jpy, "JPY"), (Currency::Gbp, "GBP"),
        (Currency::Cny, "CNY"), (Currency::Aud, "AUD"), (Currency::Cad, "CAD"), (Currency::Chf, "CHF"),
        (Currency::Hkd, "HKD"), (Currency::Sgd, "SGD"), (Currency::Sek, "SEK"), (Currency::Krw, "KRW"),
        (Currency::Nok, "NOK"), (Currency::Nzd, "NZD"), (Currency::Inr, "INR"), (Currency::Mxn, "MXN"),
        (Currency::Twd, "TWD"), (Currency::Zar, "ZAR"), (Currency::Brl, "BRL"), (Currency::Dkk, "DKK"),
    ])
}

#[test]
#[rattlefmt::skip]
fn faults_of_json(rt: HostRuntime) -> Result<(), Fail> {
    assert_all(&rt, rt.alloc(), &[
        (JsonFault::NotArray, "the value is no array"),
        (JsonFault::TooLarge, "the array has more than 191 items"),
        (JsonFault::NotByte, "an item of the array is no byte"),
        (JsonFault::NotUtf8, "the bytes in the array are not UTF-8"),
        (JsonFault::NotObject, "the value is no object"),
        (JsonFault::Missing("dec"), "the object lacks the key dec"),
        (JsonFault::WrongKind("grp"), "the value has the wrong kind at the key grp"),
        (JsonFault::TooLong("sep"), "the text is too long at the key sep"),
        (JsonFault::NotText, "the value is no text"),
        (JsonFault::NoSuchLocale, "the text is the name of no locale"),
    ])
}
