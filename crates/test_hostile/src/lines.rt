//! Lines from a reader that gives them in pieces, is interrupted or fails.

use crate::ReadStep::{Fail, Give, Interrupt};
use crate::{ReadStep, ScriptedReader};
use num_format::error::cut;
use num_format::{Error, ErrorKind, Locale};
use regroup_lines::{RegroupFault, regroup_lines};
use std::process::Abort;
use std::{io, test};

/// Two lines, and one that does not parse.
const INPUT: &[u8] = b"1,000000\n-5\n\n";

/// The lines that are written of it.
const WRITTEN: &[u8] = b"10,00,000\n-5\n";

/// Asserts what regrouping from `en` to `en_IN` returns, what it writes, and how often it reads.
fn assert_lines(
    rt: &impl Abort,
    input: &[u8],
    steps: &[ReadStep],
    returned: Result<u64, RegroupFault>,
    written: &[u8],
    reads: usize,
) {
    let mut out = [0; 64];
    let mut space = out.as_mut_slice();
    let mut reader = ScriptedReader::new(input, steps);
    let result = regroup_lines(&mut reader, &mut space, &Locale::en, &Locale::en_IN);
    let left = space.len();
    assert_eq!(rt; result, returned);
    assert_eq!(rt; &out[..64usize.saturating_sub(left)], written);
    assert_eq!(rt; reader.calls, reads);
}

/// Asserts the result of the input in pieces of so many bytes, without a failure and with one after
/// each number of pieces.
fn assert_pieces(rt: &impl Abort, most: usize) {
    let mut steps = [Give(most); 13];
    let third = RegroupFault::Line(3, Error::from(ErrorKind::ParseNumber(cut(""))));
    assert_lines(
        rt,
        INPUT,
        &steps,
        Err(third),
        WRITTEN,
        INPUT.len().div_ceil(most.max(1)),
    );
    for pieces in 0..13 {
        let written = match most.saturating_mul(pieces) {
            0..9 => "",
            9..12 => "10,00,000\n",
            12 => "10,00,000\n-5\n",
            _ => return,
        };
        for fault in [Fail, Interrupt] {
            steps[pieces] = fault;
            assert_lines(
                rt,
                INPUT,
                &steps,
                Err(RegroupFault::Read),
                written.as_bytes(),
                pieces + 1,
            );
        }
        steps[pieces] = Give(most);
    }
}

#[test]
fn pieces_of_each_length(rt: HostRuntime) {
    for most in 1..8 {
        assert_pieces(&rt, most);
    }
}

/// A failed read is not the end, also where a line could end.
#[test]
fn a_failed_read_is_not_the_end(rt: HostRuntime) {
    for input in ["7\n8", "7\nx", "7\n"] {
        for fault in [Fail, Interrupt] {
            let steps = [Give(3), fault];
            assert_lines(
                &rt,
                input.as_bytes(),
                &steps,
                Err(RegroupFault::Read),
                b"7\n",
                2,
            );
        }
    }
}

/// A read of no bytes is the end, and none follows it.
#[test]
fn one_read_at_the_end(rt: HostRuntime) {
    assert_lines(&rt, b"", &[], Ok(0), b"", 1);
    for input in ["7", "7\n"] {
        assert_lines(&rt, input.as_bytes(), &[], Ok(1), b"7\n", 2);
    }
    let steps = [Give(1); 4];
    assert_lines(&rt, b"7\n8", &steps, Ok(2), b"7\n8\n", 4);
    assert_lines(&rt, b"7\n8\n", &steps, Ok(2), b"7\n8\n", 5);
    let mut longest = [b' '; 4096];
    longest[0] = b'7';
    assert_lines(&rt, &longest, &[], Ok(1), b"7\n", 2);
}

/// Asserts that each line is written where the first read gives so many bytes.
fn assert_first_read(rt: &impl Abort, input: &[u8], most: usize, lines: u64) {
    let steps = [Give(most)];
    let mut reader = ScriptedReader::new(input, &steps);
    let mut out = io::sink();
    let result = regroup_lines(&mut reader, &mut out, &Locale::en, &Locale::en_IN);
    assert_eq!(rt; result, Ok(lines));
}

/// A read may end anywhere in a line, and fill the array. Lines take long where each access is checked, so few lengths
/// between are tried, and fewer with many lines.
#[test]
fn a_first_read_of_many_lengths(rt: HostRuntime) -> Result<(), test::Fail> {
    let short = b"1,000\n".repeat(rt.alloc(), 700)?;
    let mut long = [b' '; 4098];
    long[4095] = b'1';
    long[4096] = b'\n';
    long[4097] = b'2';
    for most in 1..=4096 {
        let is_near_an_end = most < 32 || most > 4064;
        if is_near_an_end {
            assert_first_read(&rt, &short, most, 700);
        }
        if is_near_an_end || most % 61 == 0 {
            assert_first_read(&rt, &long, most, 2);
        }
    }
    Ok(())
}
