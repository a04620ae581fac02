//! Numbers into std's writers of bytes.

use crate::asserting::assert_equal;
use crate::numbers::{LEN, append_numbers, append_thousand, assert_numbers, write_thousand};
use num_format::to_formatted_string::write_whole;
use std::io;
use std::io::{BufWriter, Cursor, LineWriter, Write};
use std::test::Fail;

/// A cursor over a vector, which grows where the text goes past its end.
#[test]
fn cursors_over_vectors(rt: HostRuntime) -> Result<(), Fail> {
    let mut cursor = Cursor::new(b"abcdefgh".to_vec(rt.alloc())?);
    cursor.set_position(2);
    append_thousand(&rt, &mut cursor)?;
    assert_equal(&rt, cursor.get_ref().as_slice(), b"ab1,000h".as_slice());
    append_numbers(&rt, &mut cursor)?;
    assert_numbers(&rt, cursor.get_ref(), "ab1,000", "");
    assert_equal(&rt, cursor.position(), 208);
    Ok(())
}

#[test]
fn cursors_over_borrowed_vectors(rt: HostRuntime) -> Result<(), Fail> {
    let mut bytes = Vec::new(rt.alloc());
    append_numbers(&rt, &mut Cursor::new(&mut bytes))?;
    assert_numbers(&rt, &bytes, "", "");
    Ok(())
}

/// A cursor over a slice, which does not grow.
#[test]
fn cursors_over_slices(rt: HostRuntime) -> Result<(), Fail> {
    let mut bytes = [b'x'; LEN + 3];
    let mut cursor = Cursor::new(bytes.as_mut_slice());
    cursor.set_position(2);
    append_numbers(&rt, &mut &mut cursor)?;
    assert_equal(&rt, cursor.position(), 203);
    assert_numbers(&rt, &bytes, "xx", "x");
    Ok(())
}

#[test]
fn cursors_over_boxed_slices(rt: HostRuntime) -> Result<(), Fail> {
    let mut cursor = Cursor::new([b'x'; LEN + 1].to_vec(rt.alloc())?.into_boxed_slice());
    append_numbers(&rt, &mut cursor)?;
    assert_numbers(&rt, cursor.get_ref(), "", "x");
    Ok(())
}

#[test]
fn cursors_over_short_boxed_slices(rt: HostRuntime) -> Result<(), Fail> {
    let mut cursor = Cursor::new(b"xxxx".to_vec(rt.alloc())?.into_boxed_slice());
    assert!(rt; write_thousand(&mut cursor).is_err());
    assert_equal(&rt, &cursor.get_ref()[..], b"1,00".as_slice());
    Ok(())
}

/// Buffered bytes are written to the vector by `flush`.
#[test]
fn buffered_writers(rt: HostRuntime) -> Result<(), Fail> {
    let mut buffered = BufWriter::new(rt.alloc(), Vec::new(rt.alloc()))?;
    append_numbers(&rt, &mut buffered)?;
    assert!(rt; buffered.get_ref().is_empty());
    buffered.flush()?;
    assert_numbers(&rt, buffered.get_ref(), "", "");
    Ok(())
}

/// A line is written to the vector at its end.
#[test]
fn line_writers(rt: HostRuntime) -> Result<(), Fail> {
    let mut lines = LineWriter::new(rt.alloc(), Vec::new(rt.alloc()))?;
    append_numbers(&rt, &mut lines)?;
    lines.write_all(b"\n")?;
    assert_numbers(&rt, lines.get_ref(), "", "\n");
    Ok(())
}

/// A long text is written whole, also by a buffer that it does not fit.
#[test]
fn long_texts(rt: HostRuntime) -> Result<(), Fail> {
    let text = "0123456789abcdef".repeat(rt.alloc(), 65_536)?;
    let mut bytes = Vec::new(rt.alloc());
    assert_equal(&rt, write_whole(text.as_bytes(), &mut bytes)?, 1_048_576);
    assert_equal(&rt, bytes.as_slice(), text.as_bytes());
    let mut buffered = BufWriter::new(rt.alloc(), Vec::new(rt.alloc()))?;
    assert_equal(&rt, write_whole(text.as_bytes(), &mut buffered)?, 1_048_576);
    buffered.flush()?;
    assert_equal(&rt, buffered.get_ref().as_slice(), text.as_bytes());
    Ok(())
}

#[test]
fn sinks(rt: HostRuntime) -> Result<(), Fail> {
    append_numbers(&rt, &mut io::sink())
}
