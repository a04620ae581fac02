//! Locales that are found, and their data.

use crate::calls::agreed;
use crate::parsing::parsed;
use num_format::{CustomFormat, Error, Format, Grouping, Locale};
use std::alloc::Global;

/// Returns the name of the locale that a name finds by each call, or the error.
pub fn found_by_name(alloc: Global, text: &str) -> Option<String> {
    let (traced, _) = Locale::from_name_traced(text);
    let results = [
        found(alloc, text, Locale::from_name(text))?,
        found(alloc, text, text.parse())?,
        found(alloc, text, traced)?,
    ];
    agreed(alloc, &results)
}

fn found(alloc: Global, text: &str, locale: Result<Locale, Error>) -> Option<String> {
    parsed(alloc, text, locale.map(|locale| locale.name()))
}

/// Returns the name of the locale that a tag finds.
pub fn found_by_tag(alloc: Global, tag: &str) -> Option<String> {
    match Locale::lookup(tag) {
        Some(locale) => format!(in alloc; "ok {}", locale.name()).ok(),
        None => String::from_str(alloc, "err ParseLocale").ok(),
    }
}

/// Returns the data of a locale: by its getters, as a format, and as a [`CustomFormat`].
pub fn described(alloc: Global, locale: Locale) -> Option<String> {
    let getters = [
        locale.decimal(),
        locale.infinity(),
        locale.minus_sign(),
        locale.nan(),
        locale.plus_sign(),
        locale.separator(),
    ];
    let results = [
        joined(alloc, locale.grouping(), getters)?,
        described_format(alloc, &locale)?,
        described_format(alloc, &CustomFormat::from(locale))?,
    ];
    agreed(alloc, &results)
}

fn described_format<F: Format>(alloc: Global, format: &F) -> Option<String> {
    let texts = [
        format.decimal().into_str(),
        format.infinity().into_str(),
        format.minus_sign().into_str(),
        format.nan().into_str(),
        format.plus_sign().into_str(),
        format.separator().into_str(),
    ];
    joined(alloc, format.grouping(), texts)
}

/// Returns a grouping and texts with a tab between them.
fn joined(alloc: Global, grouping: Grouping, texts: [&str; 6]) -> Option<String> {
    let mut fields = format!(in alloc; "{grouping:?}").ok()?;
    for text in texts {
        fields.push('\t').ok()?;
        fields.push_str(text).ok()?;
    }
    Some(fields)
}
