//! Lines from a reader to a writer that both follow a script: by `regroup_lines`, and by the program
//! `regroup-lines`.

use crate::ReadStep::Give;
use crate::Step::{Take, Zero};
use crate::rules::RULES;
use crate::{ReadStep, Scripted, ScriptedReader, Step};
use num_format::{CustomFormat, Locale};
use regroup_lines::{RegroupFault, regroup_lines};
use regroup_stream::{FAILED, Formats, NamedFormat, Parsing, REGROUPED, Reading, Rules, run};
use std::alloc::Global;
use std::io;
use std::io::BufWriter;
use std::process::Abort;
use std::test::Fail;

/// The lines that are read, of nine and three bytes.
const INPUT: &[u8] = b"1,000000\n-5\n";

/// The rules under which the first line is a number.
const LENIENT: Rules = Rules {
    reading: Reading {
        parsing: Parsing::Lenient,
        scale: None,
    },
    ..RULES
};

/// The space of a writer in bytes.
const SPACE: usize = 64;

/// How lines end.
#[derive(Clone, Copy, PartialEq, Debug)]
enum Ended {
    Lines(u64),
    FailedRead,
    FailedWrite,
}

/// The steps of the reader and of the writer, how the lines end, what the writer received, and the
/// calls of the reader and of the writer.
type Case<'a> = (&'a [ReadStep], &'a [Step], Ended, &'a str, usize, usize);

/// The lines from `en` to `en-IN`.
#[rattlefmt::skip]
const CASES: [Case<'static>; 19] = [
    (&[], &[], Ended::Lines(2), "10,00,000\n-5\n", 2, 2),
    (&[Give(5), Give(5)], &[], Ended::Lines(2), "10,00,000\n-5\n", 4, 2),
    (&[], &[Take(4), Take(5), Take(1), Take(1)], Ended::Lines(2), "10,00,000\n-5\n", 2, 5),
    (&[Give(9)], &[Take(9), Take(9), Take(9)], Ended::Lines(2), "10,00,000\n-5\n", 3, 3),
    (&[ReadStep::Fail], &[], Ended::FailedRead, "", 1, 0),
    (&[ReadStep::Interrupt], &[], Ended::FailedRead, "", 1, 0),
    (&[Give(8), ReadStep::Fail], &[], Ended::FailedRead, "", 2, 0),
    (&[Give(9), ReadStep::Interrupt], &[Take(6)], Ended::FailedRead, "10,00,000\n", 2, 2),
    (&[Give(12), ReadStep::Fail], &[], Ended::FailedRead, "10,00,000\n-5\n", 2, 2),
    (&[], &[Step::Fail], Ended::FailedWrite, "", 1, 1),
    (&[], &[Step::Interrupt], Ended::FailedWrite, "", 1, 1),
    (&[], &[Zero], Ended::FailedWrite, "", 1, 1),
    (&[], &[Take(4), Step::Fail], Ended::FailedWrite, "10,0", 1, 2),
    (&[], &[Take(9), Zero], Ended::FailedWrite, "10,00,000", 1, 2),
    (&[Give(4)], &[Take(10), Step::Interrupt], Ended::FailedWrite, "10,00,000\n", 2, 2),
    (&[], &[Take(10), Take(2), Step::Fail], Ended::FailedWrite, "10,00,000\n-5", 1, 3),
    (&[], &[Take(10), Take(2), Zero, Take(9)], Ended::FailedWrite, "10,00,000\n-5", 1, 3),
    (&[Give(9), ReadStep::Fail], &[Zero], Ended::FailedWrite, "", 1, 1),
    (&[Give(12), ReadStep::Fail], &[Take(10), Zero], Ended::FailedWrite, "10,00,000\n", 1, 2),
];

fn reader<'a>(case: &Case<'a>) -> ScriptedReader<'a> {
    ScriptedReader::new(INPUT, case.0)
}

/// Asserts a case by `regroup_lines`, which does not flush.
fn assert_regrouped(rt: &impl Abort, alloc: Global, case: &Case<'_>) -> Result<(), Fail> {
    let mut reader = reader(case);
    let mut writer = Scripted::new(alloc, SPACE, case.1)?;
    let result = regroup_lines(&mut reader, &mut writer, &Locale::en, &Locale::en_IN);
    let ended = match result {
        Ok(lines) => Some(Ended::Lines(lines)),
        Err(RegroupFault::Read) => Some(Ended::FailedRead),
        Err(RegroupFault::Write) => Some(Ended::FailedWrite),
        Err(_) => None,
    };
    assert_eq!(rt; ended, Some(case.2));
    assert_eq!(rt; writer.received.as_slice(), case.3.as_bytes());
    assert_eq!(rt;
        [reader.calls, writer.calls, writer.flushes],
        [case.4, case.5, 0]
    );
    Ok(())
}

/// Asserts a case by `regroup-lines`, which flushes once. A buffer without capacity passes each write
/// on.
fn assert_run(rt: &impl Abort, alloc: Global, case: &Case<'_>) -> Result<(), Fail> {
    let writer = Scripted::new(alloc, SPACE, case.1)?;
    let mut out = BufWriter::with_capacity(alloc, 0, writer)?;
    let mut err = Scripted::new(alloc, SPACE, &[])?;
    let formats = Formats {
        from: NamedFormat::latin(CustomFormat::from(Locale::en)),
        to: NamedFormat::latin(CustomFormat::from(Locale::en_IN)),
    };
    let mut buffer = [0; 100];
    let input = reader(case);
    let status = run(
        alloc,
        &LENIENT,
        &formats,
        "-",
        &mut buffer,
        input,
        &mut out,
        &mut err,
        &mut BufWriter::new(alloc, io::sink())?,
    );
    let (expected, messages) = if matches!(case.2, Ended::Lines(_)) {
        (REGROUPED, 0)
    } else {
        (FAILED, 1)
    };
    assert_eq!(rt; status, expected);
    let writer = out.get_ref();
    assert_eq!(rt; writer.received.as_slice(), case.3.as_bytes());
    assert_eq!(rt;
        [writer.calls, writer.flushes, err.calls],
        [case.5, 1, messages]
    );
    Ok(())
}

#[test]
fn each_list_of_steps(rt: HostRuntime) -> Result<(), Fail> {
    for case in &CASES {
        assert_regrouped(&rt, rt.alloc(), case)?;
        assert_run(&rt, rt.alloc(), case)?;
    }
    Ok(())
}
