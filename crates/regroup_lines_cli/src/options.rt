//! What the options and words of the command line ask for.

use clap::ArgMatches;
use regroup_stream::{
    FieldList, Invalid, Options, Parsing, Quoting, Reading, Rounding, Scale, field_list,
};
use std::alloc::{AllocError, Global};

/// Returns the fields that are chosen: none without `--field`. Returns `None` if its value is no list.
///
/// # Errors
///
/// Returns an error if there is no memory for them.
pub(crate) fn list_of<'a>(
    alloc: Global,
    matches: &ArgMatches<'a>,
) -> Result<Option<FieldList<'a>>, AllocError> {
    match matches.get_str("field") {
        Some(text) => field_list(alloc, text),
        None => Ok(Some(FieldList {
            ranges: Vec::new(alloc),
            names: Vec::new(alloc),
        })),
    }
}

/// Returns whether a list has a field after all those from one on. How many these are differs from line to line, so
/// that no sum is that of the field after them.
pub(crate) fn has_field_after_rest(list: &FieldList<'_>) -> bool {
    match list.ranges.split_last() {
        Some((_, before)) => before.iter().any(|range| range.last.is_none()),
        None => false,
    }
}

/// Returns the texts that may be before or after a number, if `--affix` is given.
///
/// # Errors
///
/// Returns an error if there is no memory for them.
pub(crate) fn affixes_of<'a>(
    alloc: Global,
    matches: &ArgMatches<'a>,
) -> Result<Option<Vec<&'a str>>, AllocError> {
    match matches.get_str("affix") {
        Some(list) => Ok(Some(list.split(',').collect(alloc)?)),
        None => Ok(None),
    }
}

/// Returns what the options say of lines, where these fields are chosen and these texts may be around a number.
pub(crate) fn options_of<'a, 'w>(
    matches: &ArgMatches<'w>,
    list: &'a FieldList<'_>,
    affixes: Option<&'a [&'a str]>,
) -> Options<'a, 'w> {
    let header_lines = if matches.get_flag("header") {
        1
    } else {
        matches.get_one::<u64>("header-lines").unwrap_or(0)
    };
    let quoting = match matches.get_str("quote") {
        Some("necessary") => Quoting::Necessary,
        _ => Quoting::Keep,
    };
    Options {
        list: &list.ranges,
        has_names: !list.names.is_empty(),
        delimiter: matches.get_str("delimiter"),
        blanks: matches.get_flag("blanks"),
        csv: matches.get_flag("csv"),
        output_delimiter: matches.get_str("output-delimiter"),
        quoting,
        only: matches.get_flag("only"),
        affixes,
        reading: reading_of(matches),
        header_lines,
        passes_empty: matches.get_flag("empty"),
        invalid: invalid_of(matches),
        rejects: matches.get_str("rejects").is_some(),
        zero_terminated: matches.get_flag("zero-terminated"),
    }
}

/// Returns how numbers are read.
fn reading_of(matches: &ArgMatches<'_>) -> Reading {
    let parsing = match (matches.get_flag("lenient"), matches.get_flag("typed")) {
        (true, _) => Parsing::Lenient,
        (_, true) => Parsing::Typed,
        _ => Parsing::Strict,
    };
    let scale = match matches.get_one::<u8>("decimals") {
        Some(decimals) => Some(Scale {
            decimals,
            rounding: rounding_of(matches),
        }),
        None => None,
    };
    Reading { parsing, scale }
}

/// Returns what becomes of a number with more decimals than are written.
fn rounding_of(matches: &ArgMatches<'_>) -> Rounding {
    match matches.get_str("round") {
        Some("half-away-from-zero") => Rounding::HalfAwayFromZero,
        Some("toward-zero") => Rounding::TowardZero,
        Some("exact") => Rounding::Exact,
        _ => Rounding::HalfEven,
    }
}

/// Returns what is done with a line at fault, if that is given.
fn invalid_of(matches: &ArgMatches<'_>) -> Option<Invalid> {
    match matches.get_str("invalid")? {
        "fail" => Some(Invalid::Fail),
        "warn" => Some(Invalid::Warn),
        "ignore" => Some(Invalid::Ignore),
        _ => Some(Invalid::Abort),
    }
}

/// Returns the capacity of the output's buffer in bytes: that of a block, or none where each line is written at once.
pub(crate) fn capacity_of(matches: &ArgMatches<'_>, block: usize) -> usize {
    if matches.get_flag("line-buffered") {
        0
    } else {
        block
    }
}

/// Returns the names of the files.
pub(crate) fn files_of<'m, 'a>(matches: &'m ArgMatches<'a>) -> &'m [&'a str] {
    matches.get_strs("FILE").unwrap_or_default()
}

/// Returns the words that name the formats.
pub(crate) fn words_of<'a>(matches: &ArgMatches<'a>) -> [&'a str; 2] {
    let word = |id| matches.get_str(id).unwrap_or_default();
    [word("FROM"), word("TO")]
}
