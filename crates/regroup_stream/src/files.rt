//! The format that a file holds as a JSON object.
ghost use Rattle.std.specs.Prelude.{◌≡◌, ◌≤◌, ◌++◌, length, OnOk};
ghost use Rattle.std.specs.Result.{result_map_both};
ghost use Rattle.num_format.specs.Json.{fault_of};
ghost use Rattle.regroup_faults.specs.Quoting.{quoted};
ghost use Rattle.regroup_stream.specs.Files.{HoldsFormat, completed, json_cause, unfit_message, unfit_of, with_text_at};
ghost use Rattle.serde_json.specs.View.{view};

use crate::ending::{MAX_CAUSE_LEN, failure_message};
use arrayvec::ArrayString;
use num_format::CustomFormat;
use num_format::json::{JsonFault, format_from_value};
use regroup_faults::{MAX_FAULT_MESSAGE_LEN, quoted};
use serde_json::Value;
use std::alloc::{AllocError, Global};
use std::io::ErrorKind;

/// Why a file holds no format, or is not that of rejected lines.
#[derive(Clone, Copy, Debug, PartialEq, Eq)]
pub enum FileFault {
    /// The file cannot be read, or there is no memory for what it holds.
    Unread(ErrorKind),
    /// The file is no JSON text.
    NotJson,
    /// The JSON value is no format.
    NotFormat(JsonFault),
    /// The file of rejected lines cannot be created.
    Uncreated(ErrorKind),
    /// The file of rejected lines is an input or the output.
    InUse,
}

impl FileFault {
    /// Returns the message of a file of this name.
    pub(crate) fn message(&self, name: &str) -> ArrayString<MAX_FAULT_MESSAGE_LEN>
        ensures { result.bytes ≡ unfit_message name.now (unfit_of self.now) }
    {
        match self {
            FileFault::Unread(kind) => failure_message(name, ": cannot read", Some(*kind)),
            FileFault::NotJson => failure_message(name, ": not JSON", None),
            FileFault::NotFormat(fault) => {
                failure_message(name, json_cause(*fault).as_str(), None)
            }
            FileFault::Uncreated(kind) => failure_message(name, ": cannot create", Some(*kind)),
            FileFault::InUse => failure_message(
                name,
                ": rejects file is input or output file",
                None,
            ),
        }
    }
}

/// Returns what is said of a JSON value that holds no format, which names the key that is at fault.
fn json_cause(fault: JsonFault) -> ArrayString<MAX_CAUSE_LEN>
    ensures { result.bytes ≡ json_cause (fault_of fault) }
{
    match fault {
        JsonFault::Missing(key) => key_cause(": no key ", key),
        JsonFault::WrongKind(key) => key_cause(": wrong value of key ", key),
        JsonFault::TooLong(key) => key_cause(": too long text of key ", key),
        _ => {
            let mut cause = ArrayString::new();
            cause.push_str(": not a JSON object");
            cause
        }
    }
}

/// Returns a text and after it the key in quotes.
fn key_cause(text: &str, key: &str) -> ArrayString<MAX_CAUSE_LEN>
    requires { length text.now ≤ 24 }
    ensures { result.bytes ≡ text.now ++ quoted key.now }
{
    let mut cause = ArrayString::new();
    cause.push_str(text);
    cause.push_str(quoted(key.as_bytes()).as_str());
    cause
}

/// Returns the format that the bytes of a file hold, as a JSON object with its seven fields. Of these `inf`, `nan` and
/// `plus`, which no decimal needs, may be missing, and are those of `en` then.
///
/// # Errors
///
/// Returns why they hold none.
pub(crate) fn format_held(alloc: Global, bytes: &[u8]) -> Result<CustomFormat, FileFault>
    ensures { HoldsFormat bytes.now (result_map_both (λ format. format) unfit_of result) }
{
    let mut value = match Value::from_slice(alloc, bytes) {
        Ok(value) => value,
        Err(error) if error.is_memory() => {
            return Err(FileFault::Unread(ErrorKind::OutOfMemory));
        }
        Err(_) => return Err(FileFault::NotJson),
    };
    match complete(alloc, &mut value) {
        Ok(()) => format_from_value(&value).map_err(FileFault::NotFormat),
        Err(_) => Err(FileFault::Unread(ErrorKind::OutOfMemory)),
    }
}

/// Inserts the texts of `en` that an object lacks and no decimal needs.
///
/// # Errors
///
/// Returns an error if there is no memory for them.
fn complete(alloc: Global, value: &mut Value) -> Result<(), AllocError>
    ensures { OnOk result (view value.new ≡ completed (view value.old)) }
{
    let en = CustomFormat::default();
    insert_missing(alloc, value, "inf", en.infinity())?;
    insert_missing(alloc, value, "nan", en.nan())?;
    insert_missing(alloc, value, "plus", en.plus_sign())
}

/// Inserts a text at a key that an object lacks.
///
/// # Errors
///
/// Returns an error if there is no memory for it.
fn insert_missing(alloc: Global, value: &mut Value, key: &str, text: &str) -> Result<(), AllocError>
    ensures { OnOk result (view value.new ≡ with_text_at key.now text.now (view value.old)) }
{
    if value.get(key).is_some() {
        return Ok(());
    }
    if let Some(members) = value.as_object_mut() {
        members.insert(
            String::from_str(alloc, key)?,
            Value::try_from_str(alloc, text)?,
        )?;
    }
    Ok(())
}
