//! What is said of arguments that are refused, in the words of the GNU programs.

use clap::error::ErrorKind;
use regroup_faults::quoted;
use std::alloc::{AllocError, Global};

/// Returns what is wrong with the arguments, by an error of the command line.
///
/// # Errors
///
/// Returns an error if there is no memory for it.
pub(crate) fn cause_of(alloc: Global, error: &clap::Error) -> Result<String, AllocError> {
    let text = format!(in alloc; "{error}")?;
    cause_in(alloc, error.kind(), text.as_str())
}

/// Returns the same by the kind and the text of the error.
///
/// # Errors
///
/// Returns an error if there is no memory for it.
fn cause_in(alloc: Global, kind: ErrorKind, text: &str) -> Result<String, AllocError> {
    match kind {
        ErrorKind::UnknownArgument => {
            unknown_option(alloc, between(text, "unexpected argument '", "' found\n"))
        }
        ErrorKind::InvalidValue | ErrorKind::ValueValidation => {
            let option = quoted(between(text, " for '", " <").as_bytes());
            if text.starts_with("error: a value is required") {
                return format!(in alloc; "option {} requires an argument", option.as_str());
            }
            let value = quoted(between(text, "invalid value '", "' for '").as_bytes());
            format!(in alloc;
                "invalid argument {} for {}",
                value.as_str(),
                option.as_str()
            )
        }
        ErrorKind::TooManyValues => {
            let option = quoted(between(text, "' for '", "' found").as_bytes());
            format!(in alloc; "option {} doesn't allow an argument", option.as_str())
        }
        ErrorKind::MissingRequiredArgument => {
            let missing = between(text, "not provided:", "\n\n");
            let cause = if missing.contains("<TO>") {
                "missing operand"
            } else if missing.contains("--csv") {
                "option '--quote' requires '--csv'"
            } else if missing.contains("--decimals") {
                "option '--round' requires '--decimals'"
            } else if text.contains("--blanks") {
                "option '--blanks' requires '--field'"
            } else if text.contains("--csv") {
                "option '--csv' requires '--field'"
            } else if text.contains("--output-delimiter") {
                "option '--output-delimiter' requires '--field'"
            } else if text.contains("--only") {
                "option '--only' requires '--field'"
            } else if text.contains("--sum") {
                "option '--sum' requires '--field'"
            } else {
                "option '--delimiter' requires '--field'"
            };
            String::from_str(alloc, cause)
        }
        // The first of several arguments stands on the next line.
        ErrorKind::ArgumentConflict if text.contains(" with:\n") => format!(in alloc;
            "{} with '{}'",
            between(text, "error: ", " with:\n"),
            between(text, " with:\n  ", "\n")
        ),
        _ => String::from_str(alloc, between(text, "error: ", "\n")),
    }
}

/// Returns what is said of a word that is no option.
///
/// # Errors
///
/// Returns an error if there is no memory for it.
fn unknown_option(alloc: Global, word: &str) -> Result<String, AllocError> {
    if word.starts_with("--") {
        let shown = quoted(word.as_bytes());
        return format!(in alloc; "unrecognized option {}", shown.as_str());
    }
    let letter = quoted(word.strip_prefix("-").unwrap_or(word).as_bytes());
    format!(in alloc; "invalid option -- {}", letter.as_str())
}

/// Returns what stands between the first of two texts and the second one after it, or nothing.
fn between<'t>(text: &'t str, before: &str, after: &str) -> &'t str {
    let Some((_, rest)) = text.split_once(before) else {
        return "";
    };
    match rest.split_once(after) {
        Some((found, _)) => found,
        None => rest,
    }
}
