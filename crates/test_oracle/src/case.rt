//! The fields of a case, as `tests/README.md` and the head of each table say.

use num_format::{CustomFormat, Grouping, Locale};
use num_format_decimal::Decimal;
use percent_encoding::percent_decode_str;
use std::alloc::Global;
use std::str::Split;

/// The fields of a case that are still to be read.
#[derive(Drop)]
pub struct Fields<'a>(pub Split<'a, char>);

impl<'a> Fields<'a> {
    /// Returns the next field.
    pub fn next(&mut self) -> Option<&'a str> {
        self.0.next()
    }

    /// Returns the text of the next field.
    pub fn text(&mut self, alloc: Global) -> Option<String> {
        text(alloc, self.next()?)
    }

    /// Returns the format that the next field names.
    pub fn format(&mut self, alloc: Global) -> Option<NamedFormat> {
        NamedFormat::parse(alloc, self.next()?)
    }

    /// Returns the decimal of a field UNITS/SCALE.
    pub fn decimal(&mut self) -> Option<Decimal> {
        let (units, scale) = self.next()?.split_once('/')?;
        decimal_of(units, scale)
    }
}

/// Returns the decimal of its units and its scale.
pub fn decimal_of(units: &str, scale: &str) -> Option<Decimal> {
    Decimal::new(units.parse().ok()?, scale.parse().ok()?).ok()
}

/// A format of a case.
#[derive(Drop)]
pub enum NamedFormat {
    Custom(CustomFormat),
    Locale(Locale),
}

impl NamedFormat {
    /// Returns the format that a FORMAT names.
    fn parse(alloc: Global, format: &str) -> Option<NamedFormat> {
        let mut parts = format.split(':');
        let kind = parts.next()?;
        let first = parts.next()?;
        if kind == "locale" {
            return Some(NamedFormat::Locale(Locale::from_name(first).ok()?));
        }
        let builder = CustomFormat::builder()
            .separator(&text(alloc, first)?)
            .grouping(Grouping::from_name(parts.next()?)?)
            .minus_sign(&text(alloc, parts.next()?)?)
            .decimal(&text(alloc, parts.next()?)?);
        Some(NamedFormat::Custom(builder.build().ok()?))
    }
}

/// Returns the text of a percent-encoded field.
pub fn text(alloc: Global, field: &str) -> Option<String> {
    let mut bytes = Vec::new(alloc);
    percent_decode_str(field).append_to(&mut bytes).ok()?;
    String::from_utf8(bytes).ok()
}
