//! The program `regroup-lines` where its input, an output or a flush fails.
ghost use Rattle.std.specs.Prelude.{⊤};

use crate::ReadStep::{Fail, Give};
use crate::Step::{Interrupt, Take, Zero};
use crate::rules::RULES;
use crate::{ReadStep, Scripted, ScriptedReader, Step};
use num_format::{CustomFormat, Locale};
use regroup_stream::{
    CLOSED, FAILED, FAULTY, Fields, Formats, Invalid, MISUSED, Misuse, NamedFormat, Open,
    REGROUPED, Rules, Span, Unread, refuse, run, run_all,
};
use std::alloc::Global;
use std::cell::Cell;
use std::io::{BufWriter, ErrorKind, Read, Write};
use std::process::Abort;
use std::{io, test};

/// The rules of `regroup-lines` without an option.
const STRICT: Rules = Rules {
    flushes: true,
    ..RULES
};

/// Returns the formats of `en` and `de`.
fn to_de() -> Formats {
    Formats {
        from: NamedFormat::latin(CustomFormat::from(Locale::en)),
        to: NamedFormat::latin(CustomFormat::from(Locale::de)),
    }
}

/// Regroups the lines of an input from `en` to `de` without an option, and returns the status.
fn run_plainly<R: Read + Drop, O: Write + Drop, E: Write>(
    alloc: Global,
    input: R,
    out: &mut BufWriter<O>,
    err: &mut E,
) -> Result<u8, test::Fail> {
    let mut rejects = BufWriter::new(alloc, io::sink())?;
    let mut buffer = [0; 100];
    let status = run(
        alloc,
        &STRICT,
        &to_de(),
        "-",
        &mut buffer,
        input,
        out,
        err,
        &mut rejects,
    );
    Ok(status)
}

/// Accepts all bytes, and fails as often as it says when it is flushed, for this cause.
#[derive(Drop)]
struct Unflushed {
    cause: ErrorKind,
    failures: usize,
    flushes: usize,
}

impl Write for Unflushed {
    fn write(&mut self, buf: &[u8]) -> io::Result<usize> {
        Ok(buf.len())
    }

    fn flush(&mut self) -> io::Result<()> {
        self.flushes = self.flushes.saturating_add(1);
        if self.flushes > self.failures {
            return Ok(());
        }
        Err(io::Error::from(self.cause))
    }
}

impl Unflushed {
    fn new(cause: ErrorKind, failures: usize) -> Unflushed {
        Unflushed {
            cause,
            failures,
            flushes: 0,
        }
    }
}

/// A failed read is not the end: the lines before it are written, and a message, and the status is 3.
#[test]
fn a_read_fails(rt: HostRuntime) -> Result<(), test::Fail> {
    for text in [b"1,000\n".as_slice(), b"1,000\n2", b"1,000\nx"] {
        let mut out = BufWriter::new(rt.alloc(), Vec::new(rt.alloc()))?;
        let mut err = Vec::new(rt.alloc());
        let reader = ScriptedReader::new(text, &[Give(3), Give(9), Fail]);
        let status = run_plainly(rt.alloc(), reader, &mut out, &mut err)?;
        assert_eq!(rt; status, FAILED);
        assert_eq!(rt; out.get_ref().as_slice(), b"1.000\n".as_slice());
        assert_eq!(rt;
            err.as_slice(),
            b"regroup-lines: -: read error: Broken pipe\n".as_slice()
        );
    }
    Ok(())
}

/// A flush that fails before the first read is a failed write, and only the flush at the end follows it. No line is
/// read then, and where the output was closed there is no message.
#[test]
fn a_flush_fails(rt: HostRuntime) -> Result<(), test::Fail> {
    let full = b"regroup-lines: write error: No space left on device\n".as_slice();
    for text in [b"".as_slice(), b"1,000\n", b"x\n"] {
        for (cause, status, message) in [
            (ErrorKind::BrokenPipe, CLOSED, b"".as_slice()),
            (ErrorKind::StorageFull, FAILED, full),
        ] {
            let writer = Unflushed::new(cause, 2);
            let mut out = BufWriter::new(rt.alloc(), writer)?;
            let mut err = Vec::new(rt.alloc());
            let ended = run_plainly(rt.alloc(), text, &mut out, &mut err)?;
            assert_eq!(rt; ended, status);
            assert_eq!(rt; out.get_ref().flushes, 2);
            assert_eq!(rt; err.as_slice(), message);
        }
    }
    Ok(())
}

/// Where the last flush succeeds, the cause of one that failed before it is not known, so a message is sent.
#[test]
fn a_flush_fails_once(rt: HostRuntime) -> Result<(), test::Fail> {
    for cause in [ErrorKind::BrokenPipe, ErrorKind::StorageFull] {
        let mut out = BufWriter::new(rt.alloc(), Unflushed::new(cause, 1))?;
        let mut err = Vec::new(rt.alloc());
        let text = b"1,000\n".as_slice();
        let status = run_plainly(rt.alloc(), text, &mut out, &mut err)?;
        assert_eq!(rt; status, FAILED);
        assert_eq!(rt; out.get_ref().flushes, 2);
        assert_eq!(rt; err.as_slice(), b"regroup-lines: write error\n".as_slice());
    }
    Ok(())
}

/// Asserts what is said of rejected lines that this writer does not take, after the message of the line. The output is
/// written.
fn assert_unrejected<X: Write + Drop>(
    rt: &impl Abort,
    alloc: Global,
    writer: X,
    end: &str,
) -> Result<(), test::Fail> {
    let rules = Rules {
        invalid: Invalid::Warn,
        rejects: true,
        ..STRICT
    };
    let mut out = BufWriter::new(alloc, Vec::new(alloc))?;
    let mut err = Vec::new(alloc);
    let mut rejects = BufWriter::with_capacity(alloc, 0, writer)?;
    let mut buffer = [0; 100];
    let text = b"1,000\nx\n".as_slice();
    let status = run(
        alloc,
        &rules,
        &to_de(),
        "-",
        &mut buffer,
        text,
        &mut out,
        &mut err,
        &mut rejects,
    );
    assert_eq!(rt; status, FAILED);
    assert_eq!(rt; out.get_ref().as_slice(), b"1.000\n".as_slice());
    let message = "regroup-lines: -:2: 'x': not a number at byte 1";
    let all = format!(in alloc; "{message}\nregroup-lines: {end}\n")?;
    assert_eq!(rt; err.as_slice(), all.as_bytes());
    Ok(())
}

/// A rejected line that is not written is a failed write, and so is one that is not flushed, with its cause.
#[test]
fn a_rejected_line_fails(rt: HostRuntime) -> Result<(), test::Fail> {
    let alloc = rt.alloc();
    let unwritten = Scripted::new(alloc, 64, &[Step::Fail])?;
    assert_unrejected(&rt, alloc, unwritten, "write error of rejected lines")?;
    let unflushed = Unflushed::new(ErrorKind::StorageFull, 1);
    let end = "write error of rejected lines: No space left on device";
    assert_unrejected(&rt, alloc, unflushed, end)
}

/// Inputs by their names: `bad` has a line at fault, and `none` and `output` are not read.
#[derive(Drop)]
struct ByName {
    /// How many calls of `open` were made.
    calls: Cell<usize>,
}

impl Open for ByName {
    type Input = &'static [u8];

    ghost opens = { λ _ _ _. ⊤ };

    fn open(&self, name: &str) -> Result<&'static [u8], Unread> {
        self.calls.set(self.calls.get().saturating_add(1));
        match name {
            "none" => Err(Unread::CannotOpen(ErrorKind::NotFound)),
            "output" => Err(Unread::IsOutput),
            "bad" => Ok(b"1,000\nx\n".as_slice()),
            _ => Ok(b"1\n2,000\n".as_slice()),
        }
    }
}

/// Asserts the status of inputs, what standard output received, how many messages standard error was sent, of which the
/// first may fail, and how often an input was opened.
fn assert_inputs(
    rt: &impl Abort,
    alloc: Global,
    invalid: Invalid,
    names: &[&str],
    fails_first: bool,
    expected: (u8, &str, usize, usize),
) -> Result<(), test::Fail> {
    let rules = Rules { invalid, ..STRICT };
    let mut out = BufWriter::new(alloc, Vec::new(alloc))?;
    let steps = [Step::Fail];
    let steps = if fails_first { steps.as_slice() } else { &[] };
    let mut err = Scripted::new(alloc, 512, steps)?;
    let mut buffer = [0; 100];
    let inputs = ByName {
        calls: Cell::new(0),
    };
    let status = run_all(
        alloc,
        &rules,
        &[],
        &to_de(),
        names,
        &mut buffer,
        &inputs,
        &mut out,
        &mut err,
        &mut BufWriter::new(alloc, io::sink())?,
    );
    let (expected_status, written, messages, opened) = expected;
    assert_eq!(rt; status, expected_status);
    assert_eq!(rt; out.get_ref().as_slice(), written.as_bytes());
    assert_eq!(rt; [err.calls, inputs.calls.get()], [messages, opened]);
    Ok(())
}

/// The status of several inputs is the highest. Each is opened once, none after one whose lines are not all written.
#[test]
#[rattlefmt::skip]
fn several_inputs(rt: HostRuntime) -> Result<(), test::Fail> {
    let (good, bad) = ("1\n2.000\n", "1.000\nx\n");
    let both = format!(in rt.alloc(); "{bad}{good}")?;
    let both = both.as_str();
    for (invalid, names, fails_first, expected) in [
        (Invalid::Abort, ["good", "none", "output"], false, (FAULTY, good, 2, 3)),
        (Invalid::Abort, ["none", "bad", "good"], false, (FAULTY, "1.000\n", 2, 2)),
        (Invalid::Fail, ["none", "bad", "good"], false, (FAULTY, both, 2, 3)),
        (Invalid::Warn, ["bad", "good", "none"], false, (FAULTY, both, 2, 3)),
        (Invalid::Fail, ["none", "bad", "good"], true, (FAILED, both, 2, 3)),
        (Invalid::Fail, ["bad", "none", "good"], true, (FAILED, "1.000\n", 1, 1)),
    ] {
        assert_inputs(&rt, rt.alloc(), invalid, &names, fails_first, expected)?;
    }
    Ok(())
}

/// A message shows four bytes for each byte of a name that is not printable, and 256 of a name, or 64 of a word.
#[test]
fn the_longest_messages(rt: HostRuntime) -> Result<(), test::Fail> {
    let (alloc, mut err) = (rt.alloc(), Vec::new(rt.alloc()));
    let name = "\u{1}".repeat(alloc, 300)?;
    assert_eq!(rt; refuse(&name, ErrorKind::FilesystemLoop, &mut err), FAULTY);
    let shown = "\\x01".repeat(alloc, 256)?;
    let cause = "cannot open: Too many levels of symbolic links";
    let message = format!(in alloc; "regroup-lines: {shown}: {cause}\n")?;
    assert_eq!(rt; err.as_slice(), message.as_bytes());
    err.clear();
    assert_eq!(rt; Misuse::NoFormat(name.as_str()).send(&mut err), MISUSED);
    let shown = "\\x01".repeat(alloc, 64)?;
    let help = "Try 'regroup-lines --help' for more information.";
    let message = format!(in alloc; "regroup-lines: '{shown}' names no format\n{help}\n")?;
    assert_eq!(rt; err.as_slice(), message.as_bytes());
    Ok(())
}

/// Asserts the status, and how often each output is written to and flushed.
fn assert_calls(
    rt: &impl Abort,
    alloc: Global,
    text: &[u8],
    err_steps: &[Step],
    status: u8,
    calls: [usize; 4],
) -> Result<(), test::Fail> {
    let mut out = BufWriter::new(alloc, Scripted::new(alloc, 64, &[])?)?;
    let mut err = Scripted::new(alloc, 128, err_steps)?;
    let ended = run_plainly(alloc, text, &mut out, &mut err)?;
    assert_eq!(rt; ended, status);
    let written = out.get_ref();
    assert_eq!(rt;
        [written.calls, written.flushes, err.calls, err.flushes],
        calls
    );
    Ok(())
}

/// The buffered lines are one write and a flush after it, before the next read or at the end, also where a line is at
/// fault. A message is one write, if that writes all of it, and is not flushed.
#[test]
fn writes_and_flushes(rt: HostRuntime) -> Result<(), test::Fail> {
    let alloc = rt.alloc();
    assert_calls(&rt, alloc, b"", &[], REGROUPED, [0, 2, 0, 0])?;
    assert_calls(&rt, alloc, b"1,000\n-5\n", &[], REGROUPED, [1, 3, 0, 0])?;
    assert_calls(&rt, alloc, b"5\nx\n", &[], FAULTY, [1, 2, 1, 0])?;
    assert_calls(&rt, alloc, b"x\n", &[Take(8)], FAULTY, [0, 2, 2, 0])?;
    let mut err = Scripted::new(alloc, 128, &[])?;
    assert_eq!(rt; Misuse::NoFormat("xx").send(&mut err), MISUSED);
    assert_eq!(rt; [err.calls, err.flushes], [1, 0]);
    Ok(())
}

/// A message that fails is not tried again.
#[test]
fn a_message_fails(rt: HostRuntime) -> Result<(), test::Fail> {
    for fault in [Step::Fail, Interrupt, Zero] {
        for (steps, calls) in [([fault, Take(0)], 1), ([Take(5), fault], 2)] {
            assert_calls(&rt, rt.alloc(), b"x\n", &steps, FAILED, [0, 2, calls, 0])?;
            let mut err = Scripted::new(rt.alloc(), 128, &steps)?;
            assert_eq!(rt; Misuse::NoFormat("xx").send(&mut err), FAILED);
            assert_eq!(rt; err.calls, calls);
        }
    }
    Ok(())
}

/// An input with a header, from a reader that does these steps.
#[derive(Clone, Copy)]
struct WithHeader<'a>(&'a [ReadStep]);

impl<'a> Open for WithHeader<'a> {
    type Input = ScriptedReader<'a>;

    ghost opens = { λ _ _ _. ⊤ };

    fn open(&self, _name: &str) -> Result<ScriptedReader<'a>, Unread> {
        Ok(ScriptedReader {
            rest: b"id,net\n1,-5\n",
            steps: self.0,
            calls: 0,
        })
    }
}

/// Asserts the status of that input, where the field of this name is chosen, and what the outputs received.
fn assert_named(
    rt: &impl Abort,
    alloc: Global,
    steps: &[ReadStep],
    name: &str,
    expected: (u8, &str, &str),
) -> Result<(), test::Fail> {
    let span = Span::Fields(Fields {
        list: &[],
        delimiter: b',',
        quotes: false,
        output: None,
        only: false,
        blanks: false,
    });
    let rules = Rules {
        span,
        header_lines: 1,
        ..STRICT
    };
    let mut out = BufWriter::new(alloc, Vec::new(alloc))?;
    let mut err = Vec::new(alloc);
    let mut buffer = [0; 100];
    let status = run_all(
        alloc,
        &rules,
        &[name],
        &to_de(),
        &["-"],
        &mut buffer,
        &WithHeader(steps),
        &mut out,
        &mut err,
        &mut BufWriter::new(alloc, io::sink())?,
    );
    let (expected_status, written, message) = expected;
    assert_eq!(rt; status, expected_status);
    assert_eq!(rt; out.get_ref().as_slice(), written.as_bytes());
    assert_eq!(rt; err.as_slice(), message.as_bytes());
    Ok(())
}

/// A header that has names is read in as many pieces as a reader gives, and no line is written if a read of it fails.
#[test]
fn a_header_is_read(rt: HostRuntime) -> Result<(), test::Fail> {
    let fails = "regroup-lines: -: read error: Broken pipe\n";
    let unknown = "regroup-lines: -:1: 'vat' names no field of 'id,net'\n";
    for (steps, name, expected) in [
        (
            [Give(1), Give(5), Give(1), Give(9)],
            "net",
            (REGROUPED, "id,net\n1,-5\n", ""),
        ),
        (
            [Give(9), Give(1), Give(9), Give(9)],
            "net",
            (REGROUPED, "id,net\n1,-5\n", ""),
        ),
        (
            [Give(6), Fail, Give(9), Give(9)],
            "net",
            (FAILED, "", fails),
        ),
        (
            [Fail, Give(9), Give(9), Give(9)],
            "vat",
            (FAILED, "", fails),
        ),
        (
            [Give(9), Fail, Give(9), Give(9)],
            "vat",
            (MISUSED, "", unknown),
        ),
        (
            [Give(9), Fail, Give(9), Give(9)],
            "net",
            (FAILED, "id,net\n", fails),
        ),
    ] {
        assert_named(&rt, rt.alloc(), &steps, name, expected)?;
    }
    Ok(())
}
