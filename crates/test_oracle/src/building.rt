//! The custom formats that a builder builds, and what JSON holds.

use crate::case::text;
use num_format::json::{JsonFault, buffer_from_value, format_from_value, locale_from_value};
use num_format::{CustomFormat, CustomFormatBuilder, ErrorKind, Grouping, Locale};
use serde_json::Value;
use std::alloc::Global;

/// Returns the format that is built after the calls of a builder, or the error. None where there is
/// no such call, or out of memory.
pub fn built(alloc: Global, calls: &str) -> Option<String> {
    let mut builder = CustomFormat::builder();
    for call in calls.split(' ') {
        if !call.is_empty() {
            builder = after_call(alloc, builder, call)?;
        }
    }
    match builder.build() {
        Ok(format) => described(alloc, &format),
        Err(error) => match error.kind() {
            ErrorKind::Capacity { len, cap } => {
                format!(in alloc; "err Capacity {len} {cap}").ok()
            }
            _ => None,
        },
    }
}

/// Returns the builder after one more call.
fn after_call(
    alloc: Global,
    builder: CustomFormatBuilder,
    call: &str,
) -> Option<CustomFormatBuilder> {
    let (name, argument) = call.split_once('=')?;
    match name {
        "from" => Some(CustomFormatBuilder::from(locale_of(argument)?)),
        "format" => Some(builder.format(&locale_of(argument)?)),
        "grouping" => Some(builder.grouping(Grouping::from_name(argument)?)),
        _ => after_text(builder, name, &text(alloc, argument)?),
    }
}

/// Returns the builder after the setter of that name received the text.
fn after_text(
    builder: CustomFormatBuilder,
    setter: &str,
    text: &str,
) -> Option<CustomFormatBuilder> {
    match setter {
        "decimal" => Some(builder.decimal(text)),
        "infinity" => Some(builder.infinity(text)),
        "minus_sign" => Some(builder.minus_sign(text)),
        "nan" => Some(builder.nan(text)),
        "plus_sign" => Some(builder.plus_sign(text)),
        "separator" => Some(builder.separator(text)),
        _ => None,
    }
}

/// Returns the locale that `locale:NAME` names.
fn locale_of(format: &str) -> Option<Locale> {
    Locale::from_name(format.strip_prefix("locale:")?).ok()
}

/// Returns the buffer, format or locale, as the kind says, that a JSON text holds, or the fault.
/// None where the text is no JSON, there is no such kind, or out of memory.
pub fn from_json(alloc: Global, kind: &str, json: &str) -> Option<String> {
    let value = Value::from_str(alloc, json).ok()?;
    match kind {
        "buffer" => match buffer_from_value(&value) {
            Ok(buffer) => format!(in alloc; "ok {buffer}").ok(),
            Err(fault) => described_fault(alloc, fault),
        },
        "format" => match format_from_value(&value) {
            Ok(format) => described(alloc, &format),
            Err(fault) => described_fault(alloc, fault),
        },
        "locale" => match locale_from_value(&value) {
            Ok(locale) => format!(in alloc; "ok {}", locale.name()).ok(),
            Err(fault) => described_fault(alloc, fault),
        },
        _ => None,
    }
}

fn described_fault(alloc: Global, fault: JsonFault) -> Option<String> {
    format!(in alloc; "err {fault:?}").ok()
}

/// Returns the data of a format.
fn described(alloc: Global, format: &CustomFormat) -> Option<String> {
    let (decimal, infinity) = (format.decimal(), format.infinity());
    let (minus_sign, plus_sign) = (format.minus_sign(), format.plus_sign());
    let (grouping, nan, separator) = (format.grouping(), format.nan(), format.separator());
    format!(in alloc;
        "ok dec={decimal} grp={grouping:?} inf={infinity} min={minus_sign} nan={nan} \
         plus={plus_sign} sep={separator}"
    )
    .ok()
}
