//! The command line: its words and options, and the help.

use clap::{Arg, ArgAction, ArgMatches, Command, Error, value_parser};
use std::alloc::{AllocError, Global};

/// The version of the project, which the file VERSION has too.
const VERSION: &str = "0.1.0";

/// The values of `--round`.
const ROUNDINGS: [&str; 4] = ["half-even", "half-away-from-zero", "toward-zero", "exact"];

/// What `--help` says after the options.
const AFTER_HELP: &str = "\
FROM and TO are each plain, as in -1234.5, a locale, as en-US, de_DE.UTF-8 or C, or with its digits ar-EG-u-nu-arab,
custom:SEP:GROUPING:MINUS or custom:SEP:GROUPING:MINUS:MARK: the format of en with these fields, or @FILE: that of a
JSON object with the texts dec, grp, inf, min, nan, plus and sep. GROUPING, or grp, is Standard, Indian, Posix, Myriad
or Sparse.

LIST has parts N, N-M, N- or -M, with commas between them, as 1,3-5: fields are counted from 1. With --header other
parts are names of it, as in 1,amount. A line needs each field that LIST names, and of N- the field N.

The manual page regroup-lines(1) says which lines are at fault, what is passed on, and what each status means.";

/// Returns what the arguments say.
///
/// # Errors
///
/// Returns an error if they are misused, if they ask for help or for the version, or if there is no memory.
pub(crate) fn matches<'a>(alloc: Global, args: &'a [String]) -> Result<ArgMatches<'a>, Error> {
    command(alloc)?.try_get_matches_from(args)
}

/// Returns the command line of the program.
///
/// # Errors
///
/// Returns an error if there is no memory for it.
fn command<'a>(alloc: Global) -> Result<Command<'a>, AllocError> {
    let command = Command::new(alloc, "regroup-lines")
        .no_binary_name(true)
        .version(VERSION)
        .about("Writes the number in each line of the files under another format.")
        .after_help(AFTER_HELP)
        .arg(
            Arg::new(alloc, "FROM")
                .required(true)
                .help("The format of the numbers that are read"),
        )?
        .arg(
            Arg::new(alloc, "TO")
                .required(true)
                .help("The format of the numbers that are written"),
        )?
        .arg(
            Arg::new(alloc, "FILE")
                .num_args(0..)
                .default_value("-")
                .help("The files to read, and - for standard input"),
        )?
        .arg(flag(
            alloc,
            "line-buffered",
            "Write each line at once, and not when a block is full or more is read",
        )?)?
        .arg(flag(
            alloc,
            "zero-terminated",
            "End lines with NUL, not with a newline",
        )?
        .short('z'))?;
    with_options(alloc, command)
}

/// Returns an option of this name without a value, which may be repeated.
///
/// # Errors
///
/// Returns an error if there is no memory for it.
fn flag<'a>(alloc: Global, name: &'a str, help: &'a str) -> Result<Arg<'a>, AllocError> {
    Arg::new(alloc, name)
        .long(name)
        .action(ArgAction::SetTrue)
        .help(help)
        .overrides_with(name)
}

/// Returns the command line with its options.
fn with_options<'a>(alloc: Global, command: Command<'a>) -> Result<Command<'a>, AllocError> {
    let command = command
        .arg(
            Arg::new(alloc, "field")
                .short('f')
                .long("field")
                .value_name("LIST")
                .allow_hyphen_values(true)
                .help("Read the number in each of these fields of a line, and pass on the others"),
        )?
        .arg(
            Arg::new(alloc, "delimiter")
                .short('d')
                .long("delimiter")
                .value_name("CHAR")
                .requires_arg("field")?
                .help(
                    "The ASCII character between two fields, or \\t for a tab [default: a tab, or a comma with --csv]",
                ),
        )?
        .arg(
            flag(alloc, "blanks", "Read fields that runs of spaces separate")?
                .requires_arg("field")?
                .conflicts_with("delimiter")?
                .conflicts_with("csv")?
                .conflicts_with("output-delimiter")?
                .conflicts_with("quote")?,
        )?
        .arg(flag(
            alloc,
            "csv",
            "Read records of RFC 4180: fields may be in quotes",
        )?
        .requires_arg("field")?)?
        .arg(flag(alloc, "header", "Pass on the first line")?.conflicts_with("header-lines")?)?
        .arg(
            Arg::new(alloc, "header-lines")
                .long("header-lines")
                .value_name("N")
                .value_parser(value_parser!(u64))
                .help("Pass on the first N lines"),
        )?;
    with_fault_options(alloc, with_output_options(alloc, command)?)
}

/// Returns the command line with its options about how fields are written.
fn with_output_options<'a>(alloc: Global, command: Command<'a>) -> Result<Command<'a>, AllocError> {
    command
        .arg(
            Arg::new(alloc, "output-delimiter")
                .long("output-delimiter")
                .value_name("CHAR")
                .requires_arg("field")?
                .help(
                    "Write this character between two fields, and quotes around one that needs them then",
                ),
        )?
        .arg(
            Arg::new(alloc, "quote")
                .long("quote")
                .value_name("WHICH")
                .value_parser(["keep", "necessary"].as_slice())
                .requires_arg("csv")?
                .help(
                    "Which fields are written in quotes: those that were, or those that need them [default: keep]",
                ),
        )?
        .arg(flag(
            alloc,
            "only",
            "Write the chosen fields alone, in the order of LIST",
        )?
        .requires_arg("field")?)?
        .arg(
            flag(
                alloc,
                "sum",
                "Write no line, but at the end one line with the sum of each chosen field",
            )?
            .requires_arg("field")?
            .conflicts_with("only")?
            .conflicts_with("quote")?,
        )
}

/// Returns the command line with its options about lines that are no numbers.
fn with_fault_options<'a>(alloc: Global, command: Command<'a>) -> Result<Command<'a>, AllocError> {
    let command = with_decimals(alloc, command)?
        .arg(
            Arg::new(alloc, "invalid")
                .long("invalid")
                .value_name("MODE")
                .value_parser(["abort", "fail", "warn", "ignore"].as_slice())
                .help("What to do at a line at fault [default: abort, or fail with --rejects]"),
        )?
        .arg(
            Arg::new(alloc, "rejects")
                .long("rejects")
                .value_name("FILE")
                .help(
                    "Write lines at fault to this file, as they were read, and not to standard output",
                ),
        )?
        .arg(flag(
            alloc,
            "empty",
            "Pass on a line where nothing is in place of the number",
        )?)?;
    with_reading_options(alloc, command)
}

/// Returns the command line with its options about how numbers are read.
fn with_reading_options<'a>(
    alloc: Global,
    command: Command<'a>,
) -> Result<Command<'a>, AllocError> {
    command
        .arg(flag(
            alloc,
            "lenient",
            "Read whole numbers, and ignore each character that is not numeric, but for a minus sign at the start",
        )?)?
        .arg(flag(
            alloc,
            "typed",
            "Read numbers as people type them: a keyboard's space, apostrophe and hyphen stand for those of FROM",
        )?
        .conflicts_with("lenient")?)?
        .arg(
            Arg::new(alloc, "affix")
                .long("affix")
                .value_name("LIST")
                .conflicts_with("lenient")?
                .help(
                    "Pass on one of these texts before a number, and one after it, as a currency",
                ),
        )
}

/// Returns the command line with its options about how many decimals numbers have.
fn with_decimals<'a>(alloc: Global, command: Command<'a>) -> Result<Command<'a>, AllocError> {
    command
        .arg(
            Arg::new(alloc, "decimals")
                .long("decimals")
                .value_name("N")
                .value_parser(value_parser!(u8).range(0..=38))
                .help("Write each number with N decimals, 0 to 38, and not with as many as it has"),
        )?
        .arg(
            Arg::new(alloc, "round")
                .long("round")
                .value_name("MODE")
                .value_parser(ROUNDINGS.as_slice())
                .requires_arg("decimals")?
                .help("What to do with a number that has more decimals [default: half-even]"),
        )
}
