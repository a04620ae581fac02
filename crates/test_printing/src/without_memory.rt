//! Calls that take no memory.
//!
//! `tests/memory_checks.py` counts the requests for memory that each of these tests makes. There is
//! none, but the one for the `String` that is parsed.

use crate::asserting::assert_equal;
use crate::longest::{LONGEST, longest_format};
use num_format::parsing::{FromFormattedStr, ParseFormatted, StrictError};
use num_format::{
    Buffer, CustomFormat, Locale, ToFormattedStr, WriteFormatted, prints_alike, reads_back,
};
use std::process::Abort;
use std::test::Fail;

/// A text, the number that it denotes under `en`, and the one for which it is canonical.
type Case = (&'static str, Option<i64>, Result<i64, StrictError>);

#[rattlefmt::skip]
const TEXTS: [Case; 7] = [
    ("-1,234", Some(-1234), Ok(-1234)),
    ("1234567", Some(1234567), Ok(1234567)),
    ("12.50", Some(1250), Err(StrictError::Unexpected { at: 2 })),
    ("1\u{b2}", None, Err(StrictError::Unexpected { at: 1 })),
    ("-", None, Err(StrictError::NoDigit)),
    ("01,23", Some(123), Err(StrictError::Misspelled)),
    ("9,223,372,036,854,775,808", None, Err(StrictError::OutOfRange)),
];

/// Asserts what is returned of the text as a `&str` and as bytes.
fn assert_case(rt: &impl Abort, case: Case) {
    let (text, denoted, canonical) = case;
    assert_equal(rt, i64::from_formatted_str(text, &Locale::en).ok(), denoted);
    assert_equal(
        rt,
        i64::from_formatted_bytes(text.as_bytes(), &Locale::en).ok(),
        denoted,
    );
    assert_equal(rt, i64::from_strict_str(text, &Locale::en), canonical);
    assert_equal(
        rt,
        i64::from_strict_bytes(text.as_bytes(), &Locale::en),
        canonical,
    );
}

#[test]
fn texts_are_parsed(rt: HostRuntime) {
    for case in &TEXTS {
        assert_case(&rt, *case);
    }
}

#[test]
fn a_string_is_parsed(rt: HostRuntime) -> Result<(), Fail> {
    let text = String::from_str(rt.alloc(), "-1,234")?;
    assert_equal(&rt, text.parse_formatted(&Locale::en).ok(), Some(-1234i64));
    assert_equal(&rt, text.parse_strict(&Locale::en), Ok(-1234i64));
    assert_equal(
        &rt,
        text.parse_strict(&Locale::sv),
        Err::<i64, _>(StrictError::Unexpected { at: 0 }),
    );
    Ok(())
}

#[test]
fn numbers_are_printed(rt: HostRuntime) -> Result<(), Fail> {
    let mut buffer = Buffer::new();
    let len = buffer.write_formatted(&i128::MIN, &longest_format()?);
    assert_equal(&rt, (len, buffer.as_str()), (191, LONGEST));
    let len = (-1234i32).read_to_buffer(&mut buffer, &Locale::en);
    assert_equal(&rt, (len, buffer.as_str()), (6, "-1,234"));
    assert_equal(&rt, Buffer::of(&u128::MAX, &Locale::en).len(), 51);
    let mut bytes = [0u8; 5];
    let mut space = bytes.as_mut_slice();
    assert_equal(&rt, space.write_formatted(&1000, &Locale::en).ok(), Some(5));
    assert_equal(&rt, bytes.as_slice(), b"1,000".as_slice());
    Ok(())
}

#[test]
fn locales_are_found(rt: HostRuntime) {
    assert_equal(
        &rt,
        Locale::from_name("ca_ES_VALENCIA").ok(),
        Some(Locale::ca_ES_VALENCIA),
    );
    assert_equal(&rt, Locale::from_name("xx").ok(), None);
    let (traced, _) = Locale::from_name_traced("zu");
    assert_equal(&rt, traced.ok(), Some(Locale::zu));
    assert_equal(&rt, Locale::lookup("de_DE.UTF-8"), Some(Locale::de));
    assert_equal(&rt, Locale::lookup("xx"), None);
}

#[test]
fn a_format_is_built_and_judged(rt: HostRuntime) -> Result<(), Fail> {
    let format = longest_format()?;
    assert!(rt; !reads_back(&format) && reads_back(&Locale::en));
    assert_equal(
        &rt,
        "1".parse_strict(&format),
        Err::<i64, _>(StrictError::AmbiguousFormat),
    );
    assert!(rt; !prints_alike(&format, &Locale::en));
    assert!(rt; prints_alike(&CustomFormat::default(), &Locale::en));
    Ok(())
}
