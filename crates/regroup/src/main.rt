//! The program `regroup`: formats and parses numbers with separators between groups of digits.
//!
//! It has `main` alone. Change a command in `regroup_commands`.
//!
//! The crate `regroup_commands` has its commands, and states what is proved of them.
#![tactic(auto)]

use regroup_commands::{FAILED, run};
use std::process::ExitCode;
use std::{env, io};

/// Runs the command and exits with its status. The status is 3, and nothing is written, also where
/// the program cannot get its arguments.
fn main(rt: HostRuntime) -> ExitCode {
    ExitCode::from(try_main(&rt).unwrap_or(FAILED))
}

/// Runs the command that the arguments ask for, and returns its status.
///
/// # Errors
///
/// Returns an error if there is no memory for the arguments, or if one of them is not UTF-8.
fn try_main(rt: &HostRuntime) -> io::Result<u8> {
    let args: Vec<String> = env::args(rt)?.skip(1).collect(rt.alloc())?;
    let words: Vec<&str> = args.iter().map(|arg| arg.as_str()).collect(rt.alloc())?;
    Ok(run(&words, &mut rt.stdout(), &mut rt.stderr()))
}
