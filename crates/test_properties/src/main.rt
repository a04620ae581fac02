//! Checks properties of `num_format` on arbitrary bytes.
//!
//! Any file may be changed. Each property has a line in `stdout`.
//!
//! Standard input is cut into records, each of which is an input: an integer type, a number, a format
//! and a text. The module [`input`] has the rule, by which any bytes are an input. No expected result
//! is needed, since each property is about what the calls return, as that a printed number parses as
//! the same number again. The module [`check`] has the properties.
//!
//! The program prints for each property on how many inputs it was checked and on how many it failed,
//! and the record of the first of these in hexadecimal. The exit status is 0 where there is an input
//! and no property failed, and 1 otherwise.
//!
//! A word is the name of a property that is to fail where it holds. It shows that a failure is printed.
//!
//! `tools/properties.py` writes inputs, and any other bytes will do.
#![tactic(auto)]

mod check;
mod input;
mod properties;
mod report;

use check::outcomes;
use input::{Input, RECORD_LEN};
use report::Report;
use std::alloc::Global;
use std::io::Read;
use std::process::ExitCode;
use std::{env, io};

fn main(rt: HostRuntime) -> io::Result<ExitCode> {
    let negated = env::args(&rt)?.nth(1);
    let mut data = Vec::new(rt.alloc());
    rt.reader().read_to_end(&mut data)?;
    let report = checked(rt.alloc(), &data, negated.as_deref())?;
    for line in report.lines(rt.alloc(), &data)? {
        println!(rt; "{line}")?;
    }
    Ok(if report.is_passed() {
        ExitCode::SUCCESS
    } else {
        ExitCode::FAILURE
    })
}

/// Returns what came of the properties of each input, one of them negated.
fn checked<'a>(alloc: Global, data: &[u8], negated: Option<&'a str>) -> io::Result<Report<'a>> {
    let mut report = Report::new(alloc, negated)?;
    for (index, record) in data.chunks(RECORD_LEN).enumerate() {
        let input = Input::read(alloc, record)?;
        report.add(index, outcomes(alloc, &input)?);
    }
    Ok(report)
}
