//! Numbers written to any writer.

use crate::asserting::assert_equal;
use crate::longest::longest_format;
use num_format::{CustomFormat, WriteFormatted};
use std::io;
use std::process::Abort;
use std::test::Fail;

/// What [`append_numbers`] writes: 1000 twice, and the longest of all texts, which is that of `i128::MIN`
/// in Indian groups with a separator and a minus sign of eight bytes.
pub const NUMBERS: &str =
    "1,0001,000abcdefgh1712345678011234567841123456781812345678341234567860123456\
    78461234567892123456783112345678731234567816123456788712345678301234567837123456781512345678881234567841\
    123456780512345678728";

/// The length of [`NUMBERS`] in bytes.
pub const LEN: usize = 201;

/// Writes 1000 under the format of `en`, and returns the length of its text in bytes.
pub fn write_thousand<W: WriteFormatted>(writer: &mut W) -> Result<usize, io::Error> {
    writer.write_formatted(&1000, &CustomFormat::default())
}

/// Writes 1000 and asserts the returned length.
pub fn append_thousand<W: WriteFormatted>(rt: &impl Abort, writer: &mut W) -> Result<(), Fail> {
    assert_equal(rt, write_thousand(writer)?, 5);
    Ok(())
}

/// Writes 1000 to the writer, then 1000 and the number of the longest text to a reference to it, and
/// asserts the returned lengths.
pub fn append_numbers<W: WriteFormatted>(rt: &impl Abort, writer: &mut W) -> Result<(), Fail> {
    append_thousand(rt, writer)?;
    let mut borrowed = writer;
    append_thousand(rt, &mut borrowed)?;
    let count = borrowed.write_formatted(&i128::MIN, &longest_format()?)?;
    assert_equal(rt, count, 191);
    Ok(())
}

/// Asserts that these bytes are the numbers between two texts.
pub fn assert_numbers(rt: &impl Abort, bytes: &[u8], before: &str, after: &str) {
    let rest = bytes.strip_prefix(before.as_bytes()).unwrap_or(&[]);
    let numbers = rest.strip_suffix(after.as_bytes());
    assert_equal(rt, numbers, Some(NUMBERS.as_bytes()));
}
