//! Numbers under formats of the tests' own.

use crate::asserting::assert_equal;
use crate::own_format::{Sevens, WithoutMinus};
use num_format::parsing::{ParseFormatted, StrictError};
use num_format::{Buffer, CustomFormat, Format, Grouping, prints_alike, reads_back};
use std::process::Abort;
use std::test::Fail;

/// Asserts the text of a number, and the number that this text parses to.
fn assert_number<F: Format>(rt: &impl Abort, n: i128, format: &F, text: &str, parsed: i128) {
    let mut buffer = Buffer::new();
    buffer.write_formatted(&n, format);
    assert_equal(rt, buffer.as_str(), text);
    assert_equal(rt, text.parse_formatted(format).ok(), Some(parsed));
}

/// A text that begins with `17` is negative, whatever was printed.
#[test]
fn digits_as_separator_and_minus_sign(rt: HostRuntime) {
    let of = |grouping| Sevens { grouping };
    assert_number(&rt, 1000, &of(Grouping::Standard), "17000", -17000);
    assert_number(
        &rt,
        -100000,
        &of(Grouping::Indian),
        "1717007000",
        -1717007000,
    );
    assert_number(&rt, -5, &of(Grouping::Posix), "175", -175);
    assert_number(&rt, -1000, &WithoutMinus, "1,000", -1000);
}

/// Both certificates take a format of one's own, and so does a builder.
#[test]
fn certificates(rt: HostRuntime) -> Result<(), Fail> {
    let grouping = Grouping::Indian;
    let format = Sevens { grouping };
    assert_equal(&rt, reads_back(&format), false);
    let refused = Err::<i32, _>(StrictError::AmbiguousFormat);
    assert_equal(&rt, "5".parse_strict(&format), refused);
    assert_equal(&rt, prints_alike(&format, &WithoutMinus), false);
    let built = CustomFormat::builder().format(&format).build()?;
    assert_equal(&rt, prints_alike(&format, &built), true);
    assert_number(&rt, 1234567, &built, "127347567", 127347567);
    Ok(())
}
