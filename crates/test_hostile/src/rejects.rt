//! Lines at fault that are rejected: to a writer of their own, where each of the three writers may fail.

use crate::Step::{Fail as Fails, Take, Zero};
use crate::rules::RULES;
use crate::{Scripted, Step};
use num_format::Locale;
use regroup_lines::{Invalid, Notation, RegroupFault, Rules, Span, Summary, regroup_at_most};
use std::alloc::Global;
use std::process::Abort;
use std::test::Fail;

/// The second line is not a number, and the fourth has a byte too many.
const INPUT: &[u8] = b"1,000\n12x\n5\n123456789\n7";

/// The messages of the second and of the fourth line.
const MESSAGES: &[u8] = b"regroup-lines: -:2: '12x': not a number at byte 3\n\
regroup-lines: -:4: more than 8 bytes\n";

/// The message of the second line.
const FIRST_MESSAGE: &[u8] = b"regroup-lines: -:2: '12x': not a number at byte 3\n";

const REJECTED: Rules = Rules {
    span: Span::Line,
    invalid: Invalid::Fail,
    rejects: true,
    max_line_len: 8,
    ..RULES
};

/// What is returned, and what the output, the messages and the rejected lines are.
type Ended<'a> = (Result<Summary, RegroupFault>, &'a [u8], &'a [u8], &'a [u8]);

/// Asserts how the lines end where the writers do these steps.
fn assert_ended(
    rt: &impl Abort,
    alloc: Global,
    rules: &Rules,
    steps: [&[Step]; 3],
    ended: &Ended<'_>,
) -> Result<(), Fail> {
    let mut out = Scripted::new(alloc, 64, steps[0])?;
    let mut err = Scripted::new(alloc, 128, steps[1])?;
    let mut rejects = Scripted::new(alloc, 64, steps[2])?;
    let mut buffer = vec![in alloc; 0; rules.max_line_len as usize + 1]?;
    let mut reader = INPUT;
    let result = regroup_at_most(
        None,
        9,
        rules,
        "-",
        &mut buffer,
        &mut reader,
        &mut out,
        &mut err,
        &mut rejects,
        &Notation::latin(&Locale::en),
        &Notation::latin(&Locale::de),
    );
    assert_eq!(rt; result, ended.0);
    assert_eq!(rt; out.received.as_slice(), ended.1);
    assert_eq!(rt; err.received.as_slice(), ended.2);
    assert_eq!(rt; rejects.received.as_slice(), ended.3);
    Ok(())
}

#[test]
#[rattlefmt::skip]
fn a_writer_fails(rt: HostRuntime) -> Result<(), Fail> {
    let rejected = || Err(RegroupFault::Reject);
    let (first, two) = (b"1.000\n".as_slice(), b"1.000\n5\n".as_slice());
    let cases: [([&[Step]; 3], Ended<'_>); 8] = [
        ([&[], &[], &[Fails]], (rejected(), first, FIRST_MESSAGE, b"")),
        ([&[], &[], &[Take(2), Zero]], (rejected(), first, FIRST_MESSAGE, b"12")),
        ([&[], &[], &[Take(3), Fails]], (rejected(), first, FIRST_MESSAGE, b"12x")),
        ([&[], &[], &[Take(3), Take(1), Zero]], (rejected(), two, MESSAGES, b"12x\n")),
        ([&[], &[], &[Take(3), Take(1), Take(9), Fails]], (rejected(), two, MESSAGES, b"12x\n123456789")),
        ([&[], &[Fails], &[]], (Err(RegroupFault::Report), first, b"", b"")),
        ([&[], &[Take(9), Zero], &[]], (Err(RegroupFault::Report), first, b"regroup-l", b"")),
        ([&[Fails], &[], &[]], (Err(RegroupFault::Write), b"", b"", b"")),
    ];
    for (steps, ended) in &cases {
        assert_ended(&rt, rt.alloc(), &REJECTED, *steps, ended)?;
    }
    Ok(())
}

/// The first line at fault ends the run, and is sent nowhere: any write would fail.
#[test]
fn a_line_at_fault_ends_the_run(rt: HostRuntime) -> Result<(), Fail> {
    let rules = Rules {
        invalid: Invalid::Abort,
        max_line_len: 2,
        ..REJECTED
    };
    let ended: Ended<'_> = (Err(RegroupFault::TooLong(1, 2)), b"", b"", b"");
    assert_ended(&rt, rt.alloc(), &rules, [&[Fails]; 3], &ended)
}
