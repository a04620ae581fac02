//! The program `regroup-lines`: the numbers in lines of files or of standard input, from one format to another.
//!
//! `main`, the command line and its messages live here. Any file may be changed; what is done with lines is in
//! `regroup_stream` and `regroup_lines`.
//!
//! The crate `regroup_stream` states what is proved of it.
#![tactic(auto)]

mod command_line;
mod files;
mod misuse;
mod options;
mod output;
mod words;

use crate::command_line::matches;
use crate::files::Files;
use crate::misuse::cause_of;
use crate::options::{
    affixes_of, capacity_of, files_of, has_field_after_rest, list_of, options_of, words_of,
};
use crate::output::Output;
use crate::words::Word;
use clap::ArgMatches;
use clap::error::ErrorKind;
use regroup_stream::{
    FAILED, FieldList, NoLog, REGROUPED, Rules, formats_for, refuse_arguments, run_all, sum_all,
};
use std::io::BufWriter;
use std::process::ExitCode;
use std::{env, io};

/// The bytes of the output's buffer.
const CAPACITY: usize = 65536;

/// Regroups the lines and exits with the status. The status is 3 also where the program has no memory for its
/// arguments or for the buffers, and then nothing is written.
fn main(rt: HostRuntime) -> ExitCode {
    ExitCode::from(try_main(&rt).unwrap_or(FAILED))
}

/// Regroups the lines as the arguments say, and returns the status.
///
/// # Errors
///
/// Returns an error if there is no memory for the arguments and the buffers, or if the help or the version cannot be
/// printed.
fn try_main(rt: &HostRuntime) -> io::Result<u8> {
    let args: Vec<String> = match env::args(rt) {
        Ok(args) => args.skip(1).collect(rt.alloc())?,
        Err(error) if error.kind() == io::ErrorKind::InvalidData => {
            return Ok(refuse(rt, "an argument is not UTF-8"));
        }
        Err(error) => return Err(error),
    };
    let matches = match matches(rt.alloc(), args.as_slice()) {
        Ok(matches) => matches,
        Err(error) if error.kind() == ErrorKind::OutOfMemory => return Ok(FAILED),
        Err(error) if error.use_stderr() => {
            return Ok(refuse(rt, cause_of(rt.alloc(), &error)?.as_str()));
        }
        Err(error) => {
            error.print(rt)?;
            return Ok(REGROUPED);
        }
    };
    let Some(list) = list_of(rt.alloc(), &matches)? else {
        return Ok(refuse(rt, "the fields are no list, as 1,3-5 or 2-"));
    };
    regroup_fields(rt, &matches, &list)
}

/// Regroups the lines, where these fields are chosen, and returns the status.
///
/// # Errors
///
/// Returns an error if there is no memory for the affixes and the buffers.
fn regroup_fields(
    rt: &HostRuntime,
    matches: &ArgMatches<'_>,
    list: &FieldList<'_>,
) -> io::Result<u8> {
    if matches.get_flag("sum") && has_field_after_rest(list) {
        return Ok(refuse(
            rt,
            "option '--sum' takes a part N- at the end of LIST alone",
        ));
    }
    let affixes = affixes_of(rt.alloc(), matches)?;
    match options_of(matches, list, affixes.as_deref()).rules() {
        Ok(rules) => regroup_files(rt, matches, &rules, &list.names),
        Err(fault) => Ok(refuse(rt, fault.cause())),
    }
}

/// Sends the message of arguments that are refused for this cause, and returns the status.
fn refuse(rt: &HostRuntime, cause: &str) -> u8 {
    refuse_arguments(rt.alloc(), cause, &mut rt.stderr())
}

/// Regroups the lines of the files, and returns the status. The buffer of the input has one byte more than a line may
/// have.
///
/// # Errors
///
/// Returns an error if there is no memory for the buffers.
fn regroup_files(
    rt: &HostRuntime,
    matches: &ArgMatches<'_>,
    rules: &Rules,
    field_names: &[&str],
) -> io::Result<u8> {
    let words = words_of(matches);
    let (from, to) = (Word::read(rt, words[0]), Word::read(rt, words[1]));
    let (parsing, span, affixes) = (rules.reading.parsing, &rules.span, rules.affixes);
    let (source, target) = (from.source(), to.source());
    let formats = match formats_for(rt.alloc(), parsing, span, affixes, source, target) {
        Ok(formats) => formats,
        Err(misuse) => return Ok(misuse.send(&mut rt.stderr())),
    };
    let (names, mut inputs, mut err) = (files_of(matches), Files::new(rt), rt.stderr());
    let capacity = capacity_of(matches, CAPACITY);
    let mut buffer = vec![in rt.alloc(); 0; rules.max_line_len as usize + 1]?;
    let rejects = match inputs.create(matches.get_str("rejects"), &words, names) {
        Ok(rejects) => rejects,
        Err(misuse) => return Ok(misuse.send(&mut err)),
    };
    let mut rejects = BufWriter::with_capacity(rt.alloc(), capacity, Output::new(rejects))?;
    let mut out = BufWriter::with_capacity(rt.alloc(), capacity, Output::new(rt.stdout()))?;
    if matches.get_flag("sum") {
        return Ok(sum_all(
            rt.alloc(),
            rules,
            field_names,
            formats,
            names,
            &mut buffer,
            &inputs,
            NoLog,
            &mut out,
            &mut err,
            &mut rejects,
        ));
    }
    Ok(run_all(
        rt.alloc(),
        rules,
        field_names,
        &formats,
        names,
        &mut buffer,
        &inputs,
        &mut out,
        &mut err,
        &mut rejects,
    ))
}
