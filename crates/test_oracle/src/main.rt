//! Replays the tables of cases, which `tests/cases` has: it is a replayer, as `tests/README.md` says.
//!
//! The module [`calls`] has what is called for each table. Most cases stand for several calls: [`printing`] has the
//! ways of printing, a text is parsed as a `&str` and as a `String`, strictly also as bytes and by a parser, a name is
//! looked up by `from_name`, `parse` and `from_name_traced`, and the data of a locale are read by its getters, as a
//! format, and from the [`CustomFormat`](num_format::CustomFormat) made of it. Where these differ, the result says so,
//! and no table has it.
#![tactic(auto)]

mod building;
mod calls;
mod case;
mod decimals;
mod locales;
mod parsing;
mod printing;

use calls::result;
use case::Fields;
use percent_encoding::{CONTROLS, utf8_percent_encode};
use std::io;

fn main(rt: HostRuntime) -> io::Result<()> {
    // A tab stands between two fields of a result.
    let encoded = CONTROLS.remove(b'\t').add(b'%').add(b'?');
    let data = io::read_to_string(rt.alloc(), rt.reader())?;
    for case in data.lines() {
        match result(rt.alloc(), &mut Fields(case.split('\t'))) {
            Some(result) => println!(rt; "{}", utf8_percent_encode(&result, encoded))?,
            None => println!(rt; "no case")?,
        }
    }
    Ok(())
}
