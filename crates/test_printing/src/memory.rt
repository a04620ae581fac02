//! Calls that take memory, where it is refused.
//!
//! `tests/memory_checks.py` runs each of these tests without a refusal, and then as often as it makes
//! requests for memory, each time with another one refused. A test passes in every run: it asserts what
//! holds after an error, and prints `refused`. The test command compares what is printed, so a call returns an
//! error where a request is refused, and nowhere else.

use num_format::json::{
    buffer_from_value, buffer_to_value, format_from_value, format_to_value, locale_from_value,
    locale_to_value,
};
use num_format::{Buffer, CustomFormat, Locale, ToFormattedString, WriteFormatted};
use std::alloc::Global;
use std::io;
use std::io::{Cursor, ErrorKind};
use std::process::Abort;
use std::test::Fail;

/// Prints it where a request was refused, and asserts that there is no other error.
fn show<R: Print + Abort>(rt: &R, returned: io::Result<()>) -> Result<(), Fail> {
    if let Err(error) = returned {
        assert_eq!(rt; error.kind(), ErrorKind::OutOfMemory);
        println!(rt; "refused")?;
    }
    Ok(())
}

#[test]
fn a_new_string(rt: HostRuntime) -> Result<(), Fail> {
    show(&rt, new_string(&rt, rt.alloc()))
}

fn new_string(rt: &impl Abort, alloc: Global) -> io::Result<()> {
    let text = 1000.to_formatted_string(alloc, &CustomFormat::default())?;
    assert_eq!(rt; text.as_str(), "1,000");
    Ok(())
}

#[test]
fn a_string(rt: HostRuntime) -> Result<(), Fail> {
    show(&rt, string(&rt, rt.alloc()))
}

fn string(rt: &impl Abort, alloc: Global) -> io::Result<()> {
    let mut text = String::from_str(alloc, "x")?;
    let returned = text.write_formatted(&1000, &CustomFormat::default());
    assert_eq!(rt;
        text.as_str(),
        if returned.is_ok() { "x1,000" } else { "x" }
    );
    returned.map(|_| ())
}

#[test]
fn a_vector(rt: HostRuntime) -> Result<(), Fail> {
    show(&rt, vector(&rt, rt.alloc()))
}

fn vector(rt: &impl Abort, alloc: Global) -> io::Result<()> {
    let mut bytes = b"x".to_vec(alloc)?;
    let returned = bytes.write_formatted(&1000, &CustomFormat::default());
    let expected = if returned.is_ok() { "x1,000" } else { "x" };
    assert_eq!(rt; bytes.as_slice(), expected.as_bytes());
    returned.map(|_| ())
}

/// Writes 1000 over the last two bytes of a vector that holds `abcdefgh`.
fn overwrite<T>(cursor: &mut Cursor<T>) -> io::Result<()>
where
    Cursor<T>: WriteFormatted,
{
    cursor.set_position(6);
    cursor.write_formatted(&1000, &CustomFormat::default())?;
    Ok(())
}

/// Asserts that the vector received the text, or on an error a prefix of it.
fn assert_overwritten(rt: &impl Abort, returned: &io::Result<()>, bytes: &[u8]) {
    match returned {
        Ok(()) => assert_eq!(rt; bytes, b"abcdef1,000".as_slice()),
        Err(_) => assert!(rt;
            [b"abcdefgh", b"abcdef1h", b"abcdef1,"]
                .iter()
                .any(|prefix| prefix.as_slice() == bytes)
        ),
    }
}

#[test]
fn a_cursor_over_a_vector(rt: HostRuntime) -> Result<(), Fail> {
    show(&rt, cursor_over_vector(&rt, rt.alloc()))
}

fn cursor_over_vector(rt: &impl Abort, alloc: Global) -> io::Result<()> {
    let mut cursor = Cursor::new(b"abcdefgh".to_vec(alloc)?);
    let returned = overwrite(&mut cursor);
    assert_overwritten(rt, &returned, cursor.get_ref());
    returned
}

#[test]
fn a_cursor_over_a_borrowed_vector(rt: HostRuntime) -> Result<(), Fail> {
    show(&rt, cursor_over_borrowed_vector(&rt, rt.alloc()))
}

fn cursor_over_borrowed_vector(rt: &impl Abort, alloc: Global) -> io::Result<()> {
    let mut bytes = b"abcdefgh".to_vec(alloc)?;
    let returned = overwrite(&mut Cursor::new(&mut bytes));
    assert_overwritten(rt, &returned, &bytes);
    returned
}

#[test]
fn a_buffer_as_json(rt: HostRuntime) -> Result<(), Fail> {
    show(&rt, buffer_as_json(&rt, rt.alloc()))
}

fn buffer_as_json(rt: &impl Abort, alloc: Global) -> io::Result<()> {
    let value = buffer_to_value(alloc, &Buffer::from_text("1,000"))?;
    assert!(rt; matches!(buffer_from_value(&value), Ok(buffer) if buffer.as_str() == "1,000"));
    Ok(())
}

#[test]
fn a_format_as_json(rt: HostRuntime) -> Result<(), Fail> {
    show(&rt, format_as_json(&rt, rt.alloc()))
}

fn format_as_json(rt: &impl Abort, alloc: Global) -> io::Result<()> {
    let format = CustomFormat::default();
    let value = format_to_value(alloc, &format)?;
    assert!(rt; matches!(format_from_value(&value), Ok(found) if found == format));
    Ok(())
}

#[test]
fn a_locale_as_json(rt: HostRuntime) -> Result<(), Fail> {
    show(&rt, locale_as_json(&rt, rt.alloc()))
}

fn locale_as_json(rt: &impl Abort, alloc: Global) -> io::Result<()> {
    let value = locale_to_value(alloc, Locale::en)?;
    assert_eq!(rt; locale_from_value(&value), Ok(Locale::en));
    Ok(())
}
