//! Prints a ledger: lines of a name, a tab and an amount, and their total. The amounts are read under
//! one locale and printed under another.
//!
//! Any file may be changed, as in a project of a user's own.
#![tactic(auto)]

mod entry;
mod report;

use crate::entry::read_entries;
use crate::report::write_report;
use anyhow::{Result, bail};
use num_format::Locale;
use std::io::{BufWriter, Write};
use std::{env, io};

fn main(rt: HostRuntime) -> Result<()> {
    let args: Vec<String> = env::args(&rt)?.skip(1).collect(rt.alloc())?;
    let [from, to] = args.as_slice() else {
        bail!("usage: uses_ledger FROM TO");
    };
    let from = Locale::from_name(from.as_str())?;
    let to = Locale::from_name(to.as_str())?;
    let text = io::read_to_string(rt.alloc(), rt.stdin())?;
    let entries = read_entries(rt.alloc(), text.as_str(), &from)?;
    let mut out = BufWriter::new(rt.alloc(), rt.stdout())?;
    write_report(&entries, &to, &mut out)?;
    out.flush()?;
    Ok(())
}
