//! Numbers into writers of bytes that make short writes, fail, or write nothing.

use crate::Step::{Fail, Interrupt, Take, Zero};
use crate::{Scripted, Step};
use num_format::{CustomFormat, Format, ToFormattedString, WriteFormatted};
use std::alloc::Global;
use std::io::{BufWriter, ErrorKind, LineWriter};
use std::process::Abort;
use std::{io, test};
use test_printing::longest::{LONGEST, longest_format};

/// The space of each writer in bytes, enough for the longest text.
pub const SPACE: usize = 191;

/// The steps of a writer, what is returned, the bytes that it received, and in how many writes.
type Case<'a> = (&'a [Step], Result<usize, ErrorKind>, &'a str, usize);

/// The number 1000 under the format of `en`.
#[rattlefmt::skip]
const CASES: [Case<'static>; 12] = [
    (&[], Ok(5), "1,000", 1),
    (&[Take(6)], Ok(5), "1,000", 1),
    (&[Take(1), Take(1), Take(1), Take(1), Take(1)], Ok(5), "1,000", 5),
    (&[Take(3), Take(1), Take(9), Fail], Ok(5), "1,000", 3),
    (&[Take(5), Fail], Ok(5), "1,000", 1),
    (&[Fail], Err(ErrorKind::BrokenPipe), "", 1),
    (&[Interrupt], Err(ErrorKind::Interrupted), "", 1),
    (&[Zero], Err(ErrorKind::WriteZero), "", 1),
    (&[Take(2), Fail], Err(ErrorKind::BrokenPipe), "1,", 2),
    (&[Take(2), Interrupt, Take(9)], Err(ErrorKind::Interrupted), "1,", 2),
    (&[Take(4), Zero], Err(ErrorKind::WriteZero), "1,00", 2),
    (&[Take(4), Zero, Take(9)], Err(ErrorKind::WriteZero), "1,00", 2),
];

/// Asserts what was returned and what the writer received. No writer is flushed.
fn assert_case(rt: &impl Abort, returned: io::Result<usize>, writer: &Scripted, case: Case<'_>) {
    let (_, expected, received, writes) = case;
    assert_eq!(rt; returned.map_err(|error| error.kind()), expected);
    assert_eq!(rt;
        (writer.received.as_slice(), writer.calls, writer.flushes),
        (received.as_bytes(), writes, 0)
    );
}

/// Asserts the case of a number that is written by `read_to_io_writer`.
fn assert_read<N: ToFormattedString, F: Format>(
    rt: &impl Abort,
    alloc: Global,
    n: &N,
    format: &F,
    case: Case<'_>,
) -> Result<(), test::Fail> {
    let mut writer = Scripted::new(alloc, SPACE, case.0)?;
    let returned = n.read_to_io_writer(&mut writer, format);
    assert_case(rt, returned, &writer, case);
    Ok(())
}

/// Writes 1000 under the format of `en`.
fn write_thousand<W: WriteFormatted>(writer: &mut W) -> io::Result<usize> {
    writer.write_formatted(&1000, &CustomFormat::default())
}

/// Asserts the case of the number 1000 that is written to a reference to a writer. Buffers without
/// capacity pass each write on.
fn assert_written(rt: &impl Abort, alloc: Global, case: Case<'_>) -> Result<(), test::Fail> {
    let mut boxed = Box::new(alloc, Scripted::new(alloc, SPACE, case.0)?)?;
    assert_case(rt, write_thousand(&mut &mut boxed), &boxed, case);
    let mut buffered = BufWriter::with_capacity(alloc, 0, Scripted::new(alloc, SPACE, case.0)?)?;
    let returned = write_thousand(&mut &mut buffered);
    assert_case(rt, returned, buffered.get_ref(), case);
    let mut lines = LineWriter::with_capacity(alloc, 0, Scripted::new(alloc, SPACE, case.0)?)?;
    assert_case(rt, write_thousand(&mut &mut lines), lines.get_ref(), case);
    Ok(())
}

#[test]
fn each_list_of_steps(rt: HostRuntime) -> Result<(), test::Fail> {
    for case in CASES {
        assert_read(&rt, rt.alloc(), &1000, &CustomFormat::default(), case)?;
        assert_written(&rt, rt.alloc(), case)?;
    }
    Ok(())
}

/// The longest text at one byte a write needs as many writes as it has bytes.
#[test]
fn the_longest_text(rt: HostRuntime) -> Result<(), test::Fail> {
    let steps = [Take(1); 192];
    let case = (steps.as_slice(), Ok(191), LONGEST, 191);
    assert_read(&rt, rt.alloc(), &i128::MIN, &longest_format()?, case)
}

/// Asserts that the bytes of the writes before this one were received where it fails in any way.
fn assert_fails(rt: &impl Abort, alloc: Global, write: usize) -> Result<(), test::Fail> {
    let received = LONGEST.get(..write).ok_or("not one byte a character")?;
    for (fault, kind) in [
        (Fail, ErrorKind::BrokenPipe),
        (Interrupt, ErrorKind::Interrupted),
        (Zero, ErrorKind::WriteZero),
    ] {
        let mut steps = vec![in alloc; Take(1); write]?;
        steps.push(fault)?;
        let case = (steps.as_slice(), Err(kind), received, steps.len());
        assert_read(rt, alloc, &i128::MIN, &longest_format()?, case)?;
    }
    Ok(())
}

#[test]
fn each_write_of_the_longest_text_fails_in_turn(rt: HostRuntime) -> Result<(), test::Fail> {
    for write in 0..191 {
        assert_fails(&rt, rt.alloc(), write)?;
    }
    Ok(())
}
