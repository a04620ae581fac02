//! Blanks without end, a limit of lines, and what a fault displays. No reader fails here.

use crate::rules::RULES;
use crate::{ReadStep, Scripted, ScriptedReader};
use num_format::error::cut;
use num_format::{Error, ErrorKind, Locale};
use regroup_lines::{
    Notation, Parsing, Reading, RegroupFault, Rules, Span, regroup_at_most, regroup_lines,
};
use std::alloc::Global;
use std::io;
use std::process::Abort;
use std::test::Fail;

/// Returns the fault of a line that does not parse.
fn not_a_number(number: u64, text: &str) -> RegroupFault {
    RegroupFault::Line(number, Error::from(ErrorKind::ParseNumber(cut(text))))
}

#[test]
fn blanks_without_end(rt: HostRuntime) -> Result<(), Fail> {
    let mut blanks = io::repeat(b' ');
    let result = regroup_lines(&mut blanks, &mut io::sink(), &Locale::en, &Locale::en_IN);
    assert_eq!(rt; result, Err(RegroupFault::TooLong(1, 4096)));
    Ok(())
}

/// Regroups at most so many lines of at most 4 bytes, and returns how many.
fn at_most<R: io::Read, W: io::Write>(
    lines: u64,
    flushes: bool,
    reader: &mut R,
    out: &mut W,
) -> Result<u64, RegroupFault> {
    let rules = Rules {
        span: Span::Line,
        reading: Reading {
            parsing: Parsing::Lenient,
            scale: None,
        },
        max_line_len: 4,
        flushes,
        ..RULES
    };
    regroup_at_most(
        None,
        lines,
        &rules,
        "-",
        &mut [0; 5],
        reader,
        out,
        &mut io::sink(),
        &mut io::sink(),
        &Notation::latin(&Locale::en),
        &Notation::latin(&Locale::en_IN),
    )
    .map(|summary| summary.lines)
}

/// A limit of lines counts the last one too, with or without a newline after it.
#[test]
fn two_lines_at_most(rt: HostRuntime) -> Result<(), Fail> {
    for (input, returned) in [
        ("", Ok(0)),
        ("1\n2", Ok(2)),
        ("1\n2\n", Ok(2)),
        ("1\n2\n\n", Err(RegroupFault::TooMany)),
        ("1\n2\n3", Err(RegroupFault::TooMany)),
    ] {
        let (mut reader, mut out) = (input.as_bytes(), io::sink());
        assert_eq!(rt; at_most(2, false, &mut reader, &mut out), returned);
    }
    Ok(())
}

/// After the last line that is allowed, too, the writer is flushed before it is read whether a byte follows.
#[test]
fn one_line_at_most_is_flushed(rt: HostRuntime) -> Result<(), Fail> {
    for (input, returned) in [("1\n", Ok(1)), ("1\n2", Err(RegroupFault::TooMany))] {
        let mut reader = ScriptedReader::new(input.as_bytes(), &[ReadStep::Give(2)]);
        let mut out = Scripted::new(rt.alloc(), 8, &[])?;
        assert_eq!(rt; at_most(1, true, &mut reader, &mut out), returned);
        assert_eq!(rt; out.received.as_slice(), b"1\n".as_slice());
        assert_eq!(rt; [reader.calls, out.flushes], [2, 2]);
    }
    Ok(())
}

/// Asserts what a fault displays, also where a width or a precision is asked for.
fn assert_message(
    rt: &impl Abort,
    alloc: Global,
    fault: &RegroupFault,
    message: &str,
) -> Result<(), Fail> {
    let displayed = format!(in alloc; "{fault}|{fault:*^65535}|{fault:.0}")?;
    let expected = format!(in alloc; "{message}|{message}|{message}")?;
    assert_eq!(rt; displayed.as_str(), expected.as_str());
    Ok(())
}

#[test]
fn messages(rt: HostRuntime) -> Result<(), Fail> {
    for (fault, message) in [
        (RegroupFault::TooMany, "more lines than are allowed"),
        (
            RegroupFault::TooLong(2, 4096),
            "line 2: more than 4096 bytes",
        ),
        (RegroupFault::Read, "failed to read"),
        (RegroupFault::NotText(2), "line 2: not UTF-8"),
        (not_a_number(3, ""), "line 3: '': not a number"),
        (RegroupFault::Write, "failed to write"),
        (RegroupFault::Report, "failed to write a message"),
        (RegroupFault::Reject, "failed to write a rejected line"),
        (RegroupFault::Flush, "failed to flush"),
    ] {
        assert_message(&rt, rt.alloc(), &fault, message)?;
    }
    let long = "x".repeat(rt.alloc(), 256)?;
    let shown = "x".repeat(rt.alloc(), 64)?;
    let message = format!(in rt.alloc(); "line 18446744073709551615: '{shown}': not a number")?;
    assert_message(&rt, rt.alloc(), &not_a_number(u64::MAX, &long), &message)
}
