//! Each kind of line, of which a reader gives parts: the output is flushed before each read, and a line is one write.

use crate::ReadStep::Give;
use crate::rules::RULES;
use crate::{ReadStep, Scripted, ScriptedReader};
use num_format::{CustomFormat, Format, Grouping, Locale};
use regroup_lines::{
    FieldRange, Fields, Invalid, Notation, Parsing, Reading, RegroupFault, Rounding, Rules, Scale,
    Span, regroup_at_most,
};
use std::alloc::Global;
use std::io;
use std::process::Abort;
use std::test::Fail;

/// How a reader gives a text: one byte, two or seven by a read, or all.
const PARTS: [&[ReadStep]; 4] = [&[Give(1); 64], &[Give(2); 64], &[Give(7); 64], &[]];

const PLAIN: Rules = Rules {
    flushes: true,
    ..RULES
};

const IGNORED: Rules = Rules {
    invalid: Invalid::Ignore,
    ..PLAIN
};

const WARNED: Rules = Rules {
    invalid: Invalid::Warn,
    ..PLAIN
};

/// Numbers with two decimals.
const CENTS: Reading = Reading {
    parsing: Parsing::Strict,
    scale: Some(Scale {
        decimals: 2,
        rounding: Rounding::HalfEven,
    }),
};

/// The second field of each line.
const FIELDS: Rules = Rules {
    span: Span::Fields(SECOND),
    ..IGNORED
};

const SECOND: Fields<'static> = Fields {
    list: &[FieldRange {
        first: 2,
        last: Some(2),
    }],
    delimiter: b',',
    quotes: true,
    output: None,
    only: false,
    blanks: false,
};

const ONLY: Fields<'static> = Fields {
    only: true,
    ..SECOND
};

/// The rules, lines, what is written of them under `de`, and the writes of output, messages and rejected lines.
type Kind<'a> = (Rules<'a>, &'a [u8], &'a [u8], [usize; 3]);

#[rattlefmt::skip]
const KINDS: [Kind<'static>; 21] = [
    (PLAIN, b"1,000\n-5\n", b"1.000\n-5\n", [2, 0, 0]),
    (PLAIN, b"1,000\n1,000", b"1.000\n1.000\n", [2, 0, 0]),
    (Rules { reading: CENTS, ..PLAIN }, b"1,000.125\n-5\n", b"1.000,12\n-5,00\n", [2, 0, 0]),
    // What is before a number, the number, what is after it, and the end.
    (PLAIN, b" 1,000 \n", b" 1.000 \n", [4, 0, 0]),
    (PLAIN, b"\xef\xbb\xbf1,000\n", b"\xef\xbb\xbf1.000\n", [3, 0, 0]),
    (Rules { header_lines: 2, ..PLAIN }, b"the amount\nEUR\n5\n", b"the amount\nEUR\n5\n", [3, 0, 0]),
    (Rules { passes_empty: true, ..PLAIN }, b"\n  \n5\n", b"\n  \n5\n", [3, 0, 0]),
    (IGNORED, b"12x\n1,000\ny", b"12x\n1.000\ny\n", [3, 0, 0]),
    (WARNED, b"12x\n1,000\ny", b"12x\n1.000\ny\n", [3, 2, 0]),
    (Rules { rejects: true, ..WARNED }, b"12x\n1,000\ny", b"1.000\n", [1, 2, 2]),
    // Each line whose fields are chosen by one write.
    (FIELDS, b"a,\"1,000\",b\n", b"a,\"1.000\",b\n", [1, 0, 0]),
    (FIELDS, b"\"a\nb\",1000\n", b"\"a\nb\",1.000\n", [1, 0, 0]),
    (FIELDS, b"\"a\nb\",x\na\n\"c\n", b"\"a\nb\",x\na\n\"c\n", [3, 0, 0]),
    // The second field alone.
    (Rules { span: Span::Fields(ONLY), ..IGNORED }, b"a,\"1,000\",b\n", b"\"1.000\"\n", [1, 0, 0]),
    (Rules { span: Span::Fields(ONLY), header_lines: 1, ..IGNORED }, b"a,b,c\n\xff,5", b"b\n5\n", [2, 0, 0]),
    // In parts of nine bytes.
    (Rules { max_line_len: 8, ..IGNORED }, b"1234567890123456789012\n7\n", b"1234567890123456789012\n7\n", [4, 0, 0]),
    (Rules { max_line_len: 8, ..WARNED }, b"12345678901234567890", b"12345678901234567890\n", [3, 1, 0]),
    (Rules { max_line_len: 8, ..FIELDS }, b"\"a\nb\nc\nd\ne\nf\",1\n", b"\"a\nb\nc\nd\ne\nf\",1\n", [2, 0, 0]),
    (Rules { max_line_len: 8, ..FIELDS }, b"\"bcdefgh\nj\n", b"\"bcdefgh\nj\n", [2, 0, 0]),
    (Rules { max_line_len: 8, ..FIELDS }, b"\"bcdefgh\n", b"\"bcdefgh\n", [1, 0, 0]),
    (Rules { max_line_len: 8, ..FIELDS }, b"\"bcdefghi", b"\"bcdefghi\n", [2, 0, 0]),
];

/// Asserts what is written of the lines under a format, by how many writes, and that there is a flush before each read.
fn assert_kind<G: Format>(
    rt: &impl Abort,
    alloc: Global,
    kind: &Kind<'_>,
    steps: &[ReadStep],
    to: &G,
) -> Result<(), Fail> {
    let rules = &kind.0;
    let mut reader = ScriptedReader::new(kind.1, steps);
    let mut out = Scripted::new(alloc, kind.2.len(), &[])?;
    let mut err = Scripted::new(alloc, 128, &[])?;
    let mut rejects = Scripted::new(alloc, 64, &[])?;
    let mut buffer = vec![in alloc; 0; rules.max_line_len as usize + 1]?;
    let result = regroup_at_most(
        Some(alloc),
        9,
        rules,
        "-",
        &mut buffer,
        &mut reader,
        &mut out,
        &mut err,
        &mut rejects,
        &Notation::latin(&Locale::en),
        &Notation::latin(to),
    );
    assert!(rt; result.is_ok());
    assert_eq!(rt; out.received.as_slice(), kind.2);
    assert_eq!(rt; [out.calls, err.calls, rejects.calls], kind.3);
    assert_eq!(rt; out.flushes, reader.calls);
    Ok(())
}

#[test]
fn each_kind(rt: HostRuntime) -> Result<(), Fail> {
    for kind in &KINDS {
        for steps in &PARTS {
            assert_kind(&rt, rt.alloc(), kind, steps, &Locale::de)?;
        }
    }
    Ok(())
}

/// A long number is written together with the end of its line.
#[test]
fn a_long_number(rt: HostRuntime) -> Result<(), Fail> {
    let format = CustomFormat::builder()
        .separator("stuvwxyz")
        .grouping(Grouping::Indian)
        .build()?;
    let out =
        b"1stuvwxyz70stuvwxyz14stuvwxyz11stuvwxyz83stuvwxyz46stuvwxyz04stuvwxyz69stuvwxyz20stuvwxyz692\n";
    let kind: Kind<'_> = (PLAIN, b"17014118346046920692\n", out, [1, 0, 0]);
    for steps in &PARTS {
        assert_kind(&rt, rt.alloc(), &kind, steps, &format)?;
    }
    Ok(())
}

/// A line that is too long is passed on in parts, however many they are.
#[test]
fn a_line_of_a_thousand_parts(rt: HostRuntime) -> Result<(), Fail> {
    let rules = Rules {
        max_line_len: 8,
        ..IGNORED
    };
    let mut line = "x".repeat(rt.alloc(), 9000)?;
    line.push('\n')?;
    let kind: Kind<'_> = (rules, line.as_bytes(), line.as_bytes(), [1001, 0, 0]);
    assert_kind(&rt, rt.alloc(), &kind, &[], &Locale::de)
}

/// Where there is no memory for the text of a line of fields, it is not sent. A fault of the line comes first.
#[test]
fn a_line_without_memory(rt: HostRuntime) -> Result<(), Fail> {
    let mut out = Scripted::new(rt.alloc(), 64, &[])?;
    let mut buffer = vec![in rt.alloc(); 0; FIELDS.max_line_len as usize + 1]?;
    let result = regroup_at_most(
        None,
        9,
        &FIELDS,
        "-",
        &mut buffer,
        &mut "a,x\nb,1000\n".as_bytes(),
        &mut out,
        &mut io::sink(),
        &mut io::sink(),
        &Notation::latin(&Locale::en),
        &Notation::latin(&Locale::de),
    );
    assert_eq!(rt; result, Err(RegroupFault::Write));
    assert_eq!(rt; out.received.as_slice(), b"a,x\n".as_slice());
    Ok(())
}
