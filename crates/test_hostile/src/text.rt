//! Numbers into writers of text that fail. Each writer is called once, and not again after an error.

use crate::Step::{Fail, Interrupt, Take, Zero};
use crate::bytes::SPACE;
use crate::{Scripted, Step};
use num_format::{CustomFormat, Format, ToFormattedString, WriteFormatted};
use std::alloc::Global;
use std::fmt::Formatter;
use std::process::Abort;
use std::test;
use test_printing::longest::{LONGEST, longest_format};

/// The steps of a writer, the count that is returned where it does not fail, and the text that the
/// writer received.
type Case<'a> = (&'a [Step], Option<usize>, &'a str);

/// The number 1000 under the format of `en`.
const CASES: [Case<'static>; 7] = [
    (&[], Some(5), "1,000"),
    (&[Take(5), Fail], Some(5), "1,000"),
    (&[Take(4)], None, "1,00"),
    (&[Take(1)], None, "1"),
    (&[Zero], None, ""),
    (&[Interrupt], None, ""),
    (&[Fail], None, ""),
];

/// Asserts what was returned and what the writer received in its one call.
fn assert_case(rt: &impl Abort, returned: Option<usize>, writer: &Scripted, case: Case<'_>) {
    let (_, expected, received) = case;
    assert_eq!(rt;
        (returned, writer.received.as_slice(), writer.calls),
        (expected, received.as_bytes(), 1)
    );
}

/// Asserts the case of a number, by a writer and by a formatter over it.
fn assert_number<N: ToFormattedString, F: Format>(
    rt: &impl Abort,
    alloc: Global,
    n: &N,
    format: &F,
    case: Case<'_>,
) -> Result<(), test::Fail> {
    let mut writer = Scripted::new(alloc, SPACE, case.0)?;
    let returned = n.read_to_fmt_writer(&mut writer, format);
    assert_case(rt, returned.ok(), &writer, case);
    let mut formatter = Formatter::new(Scripted::new(alloc, SPACE, case.0)?);
    let returned = formatter.write_formatted(n, format);
    assert_case(rt, returned.ok(), &formatter.into_inner(), case);
    Ok(())
}

#[test]
fn each_list_of_steps(rt: HostRuntime) -> Result<(), test::Fail> {
    for case in CASES {
        assert_number(&rt, rt.alloc(), &1000, &CustomFormat::default(), case)?;
    }
    Ok(())
}

#[test]
fn the_longest_text(rt: HostRuntime) -> Result<(), test::Fail> {
    let format = longest_format()?;
    let whole: Case<'_> = (&[], Some(191), LONGEST);
    assert_number(&rt, rt.alloc(), &i128::MIN, &format, whole)?;
    let prefix = LONGEST.get(..190).ok_or("not one byte a character")?;
    let failing: Case<'_> = (&[Take(190)], None, prefix);
    assert_number(&rt, rt.alloc(), &i128::MIN, &format, failing)
}
