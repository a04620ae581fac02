//! The commands of the program `regroup`, over any two writers.
//!
//! Any file may be changed. It calls only what `num_format` passes on, and names the crates that have it,
//! so that proving `regroup` needs no JSON.
//!
//! [`run`] takes the words after the program's name. It sends the output of the command to two
//! writers, standard output and standard error in the program, and returns the exit status:
//!
//! | Status | Output |
//! |---|---|
//! | 0 | the result on standard output: lines, each of which ends with a newline |
//! | 1 | the message of an `Error` and a newline, on standard error |
//! | 2 | the usage and a newline, on standard error |
//! | 3 | a part of one of these: a write failed or wrote no bytes |
//!
//! The commands:
//!
//! | Words | Result |
//! |---|---|
//! | `custom SEP GROUPING MINUS NUMBER` | the number under the format of `en` with these three fields |
//! | `print LOCALE NUMBER` | the number under the locale |
//! | `names` | the names of the 542 locales, in ascending byte order, one per line |
//! | `read LOCALE TEXT` | the number that the text denotes under the locale, in plain decimal |
//! | `check LOCALE` | `true` or `false`: whether every number parses again from its text under the locale |
//! | `alike LOCALE LOCALE` | `true` or `false`: whether every number has the same text under both locales |
//!
//! GROUPING is `Standard`, `Indian`, `Posix`, `Myriad` or `Sparse`, and NUMBER is a text that
//! `parse::<i128>` accepts.
//! Both are checked first: where one of them is wrong, the status is 2, whatever the other arguments
//! are. LOCALE is a name as `names` prints it, or with `_` in place of each `-`. It is looked up
//! before TEXT is parsed, and the first of two before the second. TEXT parses as an `i128`. The
//! numbers of `check` and `alike` are those of all integer types. `check` prints `true` for every
//! locale.
//!
//! Nothing here allocates.
#![tactic(auto)]

mod command;
pub mod laws;
mod sending;

ghost use Rattle.std.specs.Prelude.{◌≡◌, ◌≢◌};
ghost use Rattle.regroup_commands.specs.Request.{texts};
ghost use Rattle.regroup_commands.specs.Output.{output_of};
ghost use Rattle.regroup_commands.specs.Sending.{IsSent, SendsOutput, StopsShort};

use crate::command::Command;
use crate::sending::send_line;
use std::io;
use std::io::Write;

/// The status of a command that printed its result.
pub const ANSWERED: u8 = 0;

/// The status of a command that has an error in place of a result: a separator or a minus sign is
/// too long, no locale has the name, or the text does not parse as a number.
pub const REFUSED: u8 = 1;

/// The status where the words are no command with its arguments.
pub const MISUSED: u8 = 2;

/// The status where a write failed or wrote no bytes. The program ends with it also where it could
/// not get the words.
pub const FAILED: u8 = 3;

/// The message for words that are no command with its arguments.
const USAGE: &str = "usage: regroup COMMAND ARGUMENT...";

/// Runs the command that the words ask for, and returns the exit status. The words are those after
/// the program's name.
///
/// - [`ANSWERED`] (0): `out` received the result, and `err` nothing.
/// - [`REFUSED`] (1): `err` received the message of the error and a newline, and `out` nothing.
/// - [`MISUSED`] (2): `err` received the usage and a newline, and `out` nothing. The command is
///   unknown, the number of words is wrong, or GROUPING or NUMBER is not one. This is checked
///   before any error of status 1.
/// - [`FAILED`] (3): a write failed, also one that was interrupted, or wrote no bytes. Nothing was
///   written after it. Each of `out` and `err` received a prefix of what it receives with the
///   status 0, 1 or 2 that the words have, and not both received all.
///
/// ```rust
/// let (mut out, mut err) = (Vec::new(alloc), Vec::new(alloc));
/// run(&["print", "en", "1000000"], &mut out, &mut err)    // 0
/// str::from_utf8(&out)                                    // Ok("1,000,000\n")
/// ```
pub fn run<O: Write, E: Write>(args: &[&str], out: &mut O, err: &mut E) -> u8
    ensures status { result ≢ 3 → result ≡ (output_of (texts args.now)).status }
    ensures sent { result ≢ 3 → IsSent (output_of (texts args.now))
        (O.contents out.old) (O.contents out.new) (E.contents err.old) (E.contents err.new) }
    ensures failed { result ≡ 3 → StopsShort (output_of (texts args.now))
        (O.contents out.old) (O.contents out.new) (E.contents err.old) (E.contents err.new) }
{
    try_run(args, out, err).unwrap_or(FAILED)
}

/// Runs the command that the words ask for, and returns its status.
///
/// # Errors
///
/// Returns the error of the first write that fails or writes no bytes.
fn try_run<O: Write, E: Write>(args: &[&str], out: &mut O, err: &mut E) -> io::Result<u8>
    ensures { SendsOutput result (output_of (texts args.now))
        (O.contents out.old) (O.contents out.new) (E.contents err.old) (E.contents err.new) }
{
    match Command::from_words(args) {
        Some(command) => command.run(out, err),
        None => send_line(USAGE, err).and(Ok(MISUSED)),
    }
}
