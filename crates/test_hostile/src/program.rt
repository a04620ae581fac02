//! Commands of the program `regroup` whose outputs fail at each of their writes.

use crate::Step::{Fail, Interrupt, Take, Zero};
use crate::{Scripted, Step};
use regroup_commands::{ANSWERED, FAILED, run};
use std::alloc::{AllocError, Global};
use std::process::Abort;
use std::test;

/// The space of each output in bytes, enough for the names.
const SPACE: usize = 8192;

/// Commands that print a result, and after them some that print an error. Each prints one line.
const COMMANDS: [&[&str]; 10] = [
    &["custom", ",", "Standard", "-", "-1000000"],
    &["print", "as", "-1234567"],
    &["read", "as", "-12,34,567"],
    &["check", "as"],
    &["alike", "as", "en"],
    &["custom", "123456789", "Standard", "1234567890", "1"],
    &["print", "xx", "1"],
    &["read", "en", "one"],
    &["check", "xx"],
    &["custom"],
];

/// Returns steps that accept so many bytes a write, but for one write that fails.
fn failing_at(
    alloc: Global,
    most: usize,
    write: usize,
    fault: Step,
) -> Result<Vec<Step>, AllocError> {
    let mut steps = vec![in alloc; Take(most); write]?;
    steps.push(fault)?;
    Ok(steps)
}

/// Asserts that a command ends with [`FAILED`] where the last of these steps fails, and writes nothing
/// after it. Without a failure it has this status, and writes these bytes to one output.
fn assert_fails(
    rt: &impl Abort,
    alloc: Global,
    words: &[&str],
    steps: &[Step],
    status: u8,
    written: &[u8],
) -> Result<(), AllocError> {
    let mut failing = Scripted::new(alloc, SPACE, steps)?;
    let mut other = Scripted::new(alloc, SPACE, &[])?;
    let returned = if status == ANSWERED {
        run(words, &mut failing, &mut other)
    } else {
        run(words, &mut other, &mut failing)
    };
    assert_eq!(rt;
        (returned, failing.calls, other.calls),
        (FAILED, steps.len(), 0)
    );
    assert!(rt; written.starts_with(&failing.received));
    Ok(())
}

/// Asserts that a command, whose outputs accept so many bytes a write, ends with [`FAILED`] where any
/// of its writes fails in this way, and only there.
fn fails_at_each_write(
    rt: &impl Abort,
    alloc: Global,
    words: &[&str],
    most: usize,
    fault: Step,
) -> Result<(), AllocError> {
    let steps = vec![in alloc; Take(most); SPACE]?;
    let mut out = Scripted::new(alloc, SPACE, &steps)?;
    let mut err = Scripted::new(alloc, SPACE, &steps)?;
    let status = run(words, &mut out, &mut err);
    assert_ne!(rt; status, FAILED);
    let (used, unused) = if status == ANSWERED {
        (out, err)
    } else {
        (err, out)
    };
    assert_eq!(rt; unused.calls, 0);
    for write in 0..used.calls {
        let steps = failing_at(alloc, most, write, fault)?;
        assert_fails(rt, alloc, words, &steps, status, &used.received)?;
    }
    Ok(())
}

fn fails_in_each_way(rt: &impl Abort, alloc: Global, words: &[&str]) -> Result<(), AllocError> {
    for fault in [Fail, Interrupt, Zero] {
        fails_at_each_write(rt, alloc, words, 1, fault)?;
        fails_at_each_write(rt, alloc, words, SPACE, fault)?;
    }
    Ok(())
}

#[test]
fn each_write_fails_in_turn(rt: HostRuntime) -> Result<(), test::Fail> {
    for words in COMMANDS {
        fails_in_each_way(&rt, rt.alloc(), words)?;
    }
    Ok(())
}

/// The longest texts of a number and of an error, which keeps 256 bytes of a name.
#[test]
fn each_write_of_the_longest_lines_fails_in_turn(rt: HostRuntime) -> Result<(), test::Fail> {
    let number = format!(in rt.alloc(); "{}", i128::MIN)?;
    let words = ["custom", "12345678", "Indian", "abcdefgh", number.as_str()];
    fails_in_each_way(&rt, rt.alloc(), &words)?;
    let name = "x".repeat(rt.alloc(), 300)?;
    fails_in_each_way(&rt, rt.alloc(), &["print", name.as_str(), "1"])?;
    fails_in_each_way(&rt, rt.alloc(), &["read", "en", name.as_str()])?;
    Ok(())
}

#[test]
fn each_write_of_the_names_fails_in_turn(rt: HostRuntime) -> Result<(), test::Fail> {
    for fault in [Fail, Zero] {
        fails_at_each_write(&rt, rt.alloc(), &["names"], SPACE, fault)?;
    }
    Ok(())
}

/// Returns how many writes and flushes a command makes, of outputs that accept all bytes.
fn calls(alloc: Global, words: &[&str]) -> Result<(usize, usize), AllocError> {
    let mut out = Scripted::new(alloc, SPACE, &[])?;
    let mut err = Scripted::new(alloc, SPACE, &[])?;
    run(words, &mut out, &mut err);
    Ok((
        out.calls.saturating_add(err.calls),
        out.flushes.saturating_add(err.flushes),
    ))
}

/// Nothing is flushed: the streams of the process have no buffer.
#[test]
fn each_line_is_one_write(rt: HostRuntime) -> Result<(), test::Fail> {
    for words in COMMANDS {
        assert_eq!(rt; calls(rt.alloc(), words)?, (1, 0));
    }
    assert_eq!(rt; calls(rt.alloc(), &["names"])?, (542, 0));
    Ok(())
}
