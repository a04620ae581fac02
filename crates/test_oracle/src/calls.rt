//! The call of each table, and what it returns in the words of the tables.

use crate::building::{built, from_json};
use crate::case::{Fields, NamedFormat, decimal_of};
use crate::decimals::{
    computed, decimal_at_scale, padded, parsed_decimal, printed_decimal, typed_decimal,
};
use crate::locales::{described, found_by_name, found_by_tag};
use crate::parsing::{leniently, strictly, typed};
use crate::printing::printed;
use num_format::parsing::FromFormattedStr;
use num_format::{Format, Locale, ToFormattedString, prints_alike, reads_back};
use std::alloc::Global;
use std::fmt::Display;
use std::num::{NonZeroU8, NonZeroU16, NonZeroU32, NonZeroU64, NonZeroU128, NonZeroUsize};
use std::str::FromStr;

/// The value of an expression with the format of a case, which has one of two types.
macro_rules! under {
    ($named:expr, |$format:ident| $value:expr) => {
        match &$named {
            NamedFormat::Custom($format) => $value,
            NamedFormat::Locale($format) => $value,
        }
    };
}

/// Reads a case, which is the name of a table and the arguments of its call, and returns the result, or why it has none
/// here. None where there is no such table, the fields are no such case, or out of memory.
pub fn result(alloc: Global, fields: &mut Fields<'_>) -> Option<String> {
    match fields.next()? {
        "names" => found_by_name(alloc, &fields.text(alloc)?),
        "tags" => found_by_tag(alloc, &fields.text(alloc)?),
        "locales" => described(alloc, Locale::from_name(fields.next()?).ok()?),
        "builders" => built(alloc, fields.next()?),
        "json" => from_json(alloc, fields.next()?, &fields.text(alloc)?),
        "reads_back" => {
            let format = fields.format(alloc)?;
            under!(
                format,
                |format| format!(in alloc; "{}", reads_back(format)).ok()
            )
        }
        "alike" => {
            let first = fields.format(alloc)?;
            let second = fields.format(alloc)?;
            under!(
                first,
                |first| under!(second, |second| alike(alloc, first, second))
            )
        }
        "decimals_computed" => {
            let first = fields.decimal()?;
            let second = fields.decimal()?;
            computed(alloc, first, second, fields.next()?.parse().ok()?)
        }
        table @ ("printing" | "lenient" | "strict" | "typed") => {
            let type_name = fields.next()?;
            let format = fields.format(alloc)?;
            let text = fields.text(alloc)?;
            under!(
                format,
                |format| of_integer(alloc, table, type_name, &text, format)
            )
        }
        table if table.ends_with("_digits") => String::from_str(alloc, "! of test_digits").ok(),
        table => of_decimal(alloc, table, fields),
    }
}

/// Returns the result for a table of the integers of the type of that name.
fn of_integer<F: Format>(
    alloc: Global,
    table: &str,
    type_name: &str,
    text: &str,
    format: &F,
) -> Option<String> {
    match type_name {
        "i8" => of_type::<i8, F>(alloc, table, text, format),
        "i16" => of_type::<i16, F>(alloc, table, text, format),
        "i32" => of_type::<i32, F>(alloc, table, text, format),
        "i64" => of_type::<i64, F>(alloc, table, text, format),
        "i128" => of_type::<i128, F>(alloc, table, text, format),
        "isize" => of_type::<isize, F>(alloc, table, text, format),
        "u8" => of_type::<u8, F>(alloc, table, text, format),
        "u16" => of_type::<u16, F>(alloc, table, text, format),
        "u32" => of_type::<u32, F>(alloc, table, text, format),
        "u64" => of_type::<u64, F>(alloc, table, text, format),
        "u128" => of_type::<u128, F>(alloc, table, text, format),
        "usize" => of_type::<usize, F>(alloc, table, text, format),
        "NonZeroU8" => of_type::<NonZeroU8, F>(alloc, table, text, format),
        "NonZeroU16" => of_type::<NonZeroU16, F>(alloc, table, text, format),
        "NonZeroU32" => of_type::<NonZeroU32, F>(alloc, table, text, format),
        "NonZeroU64" => of_type::<NonZeroU64, F>(alloc, table, text, format),
        "NonZeroU128" => of_type::<NonZeroU128, F>(alloc, table, text, format),
        "NonZeroUsize" => of_type::<NonZeroUsize, F>(alloc, table, text, format),
        _ => None,
    }
}

/// Returns the result for a table of the integers of one type.
fn of_type<N, F>(alloc: Global, table: &str, text: &str, format: &F) -> Option<String>
where
    N: ToFormattedString + FromFormattedStr + FromStr + Display + Drop,
    N::Err: Drop,
    F: Format,
{
    match table {
        "printing" => {
            let number: N = text.parse().ok()?;
            printed(alloc, &number, format)
        }
        "lenient" => leniently::<N, F>(alloc, text, format),
        "strict" => strictly::<N, F>(alloc, text, format),
        "typed" => typed::<N, F>(alloc, text, format),
        _ => None,
    }
}

/// Returns the result for a table of decimals.
fn of_decimal(alloc: Global, table: &str, fields: &mut Fields<'_>) -> Option<String> {
    let format = fields.format(alloc)?;
    let text = fields.text(alloc)?;
    match table {
        "decimals_printed" => {
            let decimal = decimal_of(&text, fields.next()?)?;
            under!(format, |format| printed_decimal(alloc, &decimal, format))
        }
        "decimals_parsed" => under!(format, |format| parsed_decimal(alloc, &text, format)),
        "typed_decimals" => under!(format, |format| typed_decimal(alloc, &text, format)),
        "decimals_at_scale" => {
            let scale = fields.next()?.parse().ok()?;
            under!(
                format,
                |format| decimal_at_scale(alloc, &text, scale, format)
            )
        }
        "padded" => {
            let decimal = decimal_of(&text, fields.next()?)?;
            let fill = fields.text(alloc)?.chars().next()?;
            let side = fields.next()?;
            let width = fields.next()?.parse().ok()?;
            under!(
                format,
                |format| padded(alloc, &decimal, format, fill, side, width)
            )
        }
        _ => None,
    }
}

/// Returns the result of several ways to make a call: the first one, and after it those that differ.
pub fn agreed(alloc: Global, results: &[String]) -> Option<String> {
    let (first, others) = results.split_first()?;
    let mut agreed = String::from_str(alloc, first).ok()?;
    for other in others {
        if other != first {
            agreed.push_str(" and ").ok()?;
            agreed.push_str(other).ok()?;
        }
    }
    Some(agreed)
}

/// Returns whether each number has the same text under both formats, asked both ways.
fn alike<F: Format, G: Format>(alloc: Global, first: &F, second: &G) -> Option<String> {
    let one_way = format!(in alloc; "{}", prints_alike(first, second)).ok()?;
    let other_way = format!(in alloc; "{}", prints_alike(second, first)).ok()?;
    agreed(alloc, &[one_way, other_way])
}
