//! A number to each type of a stream of the process.
//!
//! No contract states what a stream received. `tests/program_checks.py` compares it.

use num_format::{Locale, WriteFormatted};
use std::io::Lock;

/// Returns how many of these writes failed.
pub(crate) fn failed_writes(rt: &HostRuntime) -> u8 {
    let mut failed = 0u8;
    for written in [
        rt.stdout().write_formatted(&1000, &Locale::en),
        rt.stdout().lock().write_formatted(&2000, &Locale::en),
        rt.stderr().write_formatted(&3000, &Locale::en),
        rt.stderr().lock().write_formatted(&4000, &Locale::en),
    ] {
        failed = failed.saturating_add(u8::from(written.is_err()));
    }
    failed
}
