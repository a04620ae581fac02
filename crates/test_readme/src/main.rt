//! The program of `docs/CALLERS.md`, and with any argument one that writes a number to each stream.
//!
//! Change `readme.rt` and the block in `docs/CALLERS.md` together; `stdout` stands there too.
#![tactic(auto)]

mod readme;
mod streams;

use std::env;
use std::process::ExitCode;

fn main(rt: HostRuntime) -> ExitCode {
    if env::args(&rt).is_ok_and(|mut args| args.nth(1).is_some()) {
        return ExitCode::from(streams::failed_writes(&rt));
    }
    match readme::run(rt) {
        Ok(()) => ExitCode::SUCCESS,
        Err(_) => ExitCode::FAILURE,
    }
}
