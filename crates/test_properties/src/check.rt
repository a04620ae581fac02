//! Which properties are checked on which inputs.
//!
//! | Property | Inputs | Says |
//! |---|---|---|
//! | ways | all | each way of printing writes the same bytes, and returns their number |
//! | length | all | this number follows from how many digits there are, the grouping, and the lengths of separator and minus sign, and is at most 191 |
//! | reads back | with a format of which `reads_back` is true | the printed number parses as the same number |
//! | refused | whose printed number is refused, or parses as another number | `reads_back` is false of the format |
//! | parses | all | the text is parsed as a number, or refused with an error that keeps its longest prefix within 256 bytes |
//! | appended | all | with a character appended that is not numeric, the text is parsed as the same number, or refused as before, unless it begins with the minus sign only now |
//! | strict | whose bytes are parsed strictly as a number | the bytes are parsed as the same number |
//! | canonical | the same | printed, grouped or not, this number has the bytes |
//! | ambiguous | all | the bytes are refused for the format alone exactly if `reads_back` is false of it |
//! | strict again | with a format of which `reads_back` is true | the printed number, grouped or not, is parsed strictly as the same number |
//! | decimal canonical | whose bytes are parsed as a decimal | printed, grouped or not, this decimal has the bytes |
//! | decimal ambiguous | all | the bytes are refused as a decimal for the format alone exactly if `marks_decimals` is false of it |
//! | decimal again | with a format of which `marks_decimals` is true | the printed decimal, grouped or not, is parsed as one of the same units and scale |
//! | builds | all | the custom format has the texts and the grouping that the builder received |
//! | finds | all | the text is a locale's name, with hyphens or with underscores, or is refused with such an error |
//! | own name | all | the locale is found by the name at its place, and has this name |
//! | json buffer | all | a buffer with the printed number is the same after it was a JSON value |
//! | json format | all | so is the custom format |
//! | json locale | all | so is the locale |
ghost use Rattle.std.specs.Prelude.{◌≤◌};

use crate::input::Input;
use crate::properties::{
    are_ways_alike, finds_or_refuses, has_length, ignores_appended, is_ambiguous,
    is_buffer_alike_in_json, is_canonical, is_canonical_decimal, is_decimal_ambiguous,
    is_decimal_parsed, is_format_alike_in_json, is_found_by_its_name, is_locale_alike_in_json,
    is_parsed_strictly, is_parsed_too, parses_or_refuses,
};
use num_format::parsing::FromFormattedStr;
use num_format::{Buffer, CustomFormat, Format, ToFormattedString, reads_back};
use num_format_decimal::marks_decimals;
use std::alloc::Global;
use std::fmt::Display;
use std::io;
use std::num::{NonZeroU8, NonZeroU16, NonZeroU32, NonZeroU64, NonZeroU128, NonZeroUsize};

/// The properties, in the order of their outcomes.
#[rattlefmt::skip]
pub const PROPERTIES: [&str; 19] = [
    "ways", "length", "reads back", "refused", "parses", "appended", "strict", "canonical", "ambiguous", "strict again",
    "decimal canonical", "decimal ambiguous", "decimal again", "builds", "finds", "own name", "json buffer",
    "json format", "json locale",
];

/// Whether each property holds of an input. None where it says nothing of the input.
pub type Outcomes = [Option<bool>; 19];

/// Checks each property on an input.
///
/// # Errors
///
/// Returns an error where out of memory.
pub fn outcomes(alloc: Global, input: &Input) -> io::Result<Outcomes> {
    let custom = input.custom_format();
    if input.is_locale {
        under(alloc, input, &custom, &input.locale)
    } else {
        under(alloc, input, &custom, &custom)
    }
}

/// Checks the number as a value of its integer type. The types are in the order of their places.
fn under<F: Format>(
    alloc: Global,
    input: &Input,
    custom: &CustomFormat,
    format: &F,
) -> io::Result<Outcomes> {
    let bytes = &input.number;
    let two = u16::from_le_bytes(first(bytes));
    let four = u32::from_le_bytes(first(bytes));
    let eight = u64::from_le_bytes(first(bytes));
    let sixteen = u128::from_le_bytes(*bytes);
    let size = usize::from_le_bytes(first(bytes));
    let check = Check {
        alloc,
        input,
        custom,
        format,
    };
    match input.type_place {
        0 => check.number(bytes[0]),
        1 => check.number(two),
        2 => check.number(four),
        3 => check.number(eight),
        4 => check.number(sixteen),
        5 => check.number(size),
        6 => check.number(i8::from_le_bytes(first(bytes))),
        7 => check.number(i16::from_le_bytes(first(bytes))),
        8 => check.number(i32::from_le_bytes(first(bytes))),
        9 => check.number(i64::from_le_bytes(first(bytes))),
        10 => check.number(i128::from_le_bytes(*bytes)),
        11 => check.number(isize::from_le_bytes(first(bytes))),
        12 => check.number(NonZeroU8::new(bytes[0]).unwrap_or(NonZeroU8::MIN)),
        13 => check.number(NonZeroU16::new(two).unwrap_or(NonZeroU16::MIN)),
        14 => check.number(NonZeroU32::new(four).unwrap_or(NonZeroU32::MIN)),
        15 => check.number(NonZeroU64::new(eight).unwrap_or(NonZeroU64::MIN)),
        16 => check.number(NonZeroU128::new(sixteen).unwrap_or(NonZeroU128::MIN)),
        _ => check.number(NonZeroUsize::new(size).unwrap_or(NonZeroUsize::MIN)),
    }
}

/// What a number is checked with.
#[derive(Drop)]
struct Check<'a, F> {
    alloc: Global,
    input: &'a Input,
    custom: &'a CustomFormat,
    format: &'a F,
}

impl<F: Format> Check<'_, F> {
    /// Returns the outcomes for a number.
    fn number<N>(&self, number: N) -> io::Result<Outcomes>
    where
        N: ToFormattedString + FromFormattedStr + PartialEq + Display + Copy,
    {
        let (alloc, input, custom, format) = (self.alloc, self.input, self.custom, self.format);
        let (text, bytes) = (input.text.as_str(), input.bytes.as_slice());
        let mut buffer = Buffer::new();
        let count = buffer.write_formatted(&number, format);
        let printed = buffer.as_str();
        let is_same = N::from_formatted_str(printed, format).is_ok_and(|parsed| parsed == number);
        let (reads_back, marks) = (reads_back(format), marks_decimals(format));
        Ok([
            Some(are_ways_alike(alloc, &number, format, printed)?),
            Some(has_length(alloc, &number, format, count)?),
            reads_back.then_some(is_same),
            (!is_same).then_some(!reads_back),
            Some(parses_or_refuses(text, N::from_formatted_str(text, format).err())),
            Some(ignores_appended::<N, F>(alloc, text, format)?),
            is_parsed_too::<N, F>(bytes, format),
            is_canonical::<N, F>(bytes, format),
            Some(is_ambiguous::<N, F>(bytes, format) != reads_back),
            reads_back.then_some(is_parsed_strictly(number, format)),
            is_canonical_decimal(bytes, format),
            Some(is_decimal_ambiguous(bytes, format) != marks),
            marks.then_some(is_decimal_parsed(input.decimal, format)),
            Some(input.is_built(custom)),
            Some(finds_or_refuses(alloc, text)?),
            Some(is_found_by_its_name(input.name, input.locale)),
            Some(is_buffer_alike_in_json(alloc, &buffer)?),
            Some(is_format_alike_in_json(alloc, custom)?),
            Some(is_locale_alike_in_json(alloc, input.locale)?),
        ])
    }
}

/// Returns the first bytes.
fn first<const N: usize>(bytes: &[u8; 16]) -> [u8; N]
    requires { N ≤ 16 }
{
    let mut first = [0; N];
    first.copy_from_slice(&bytes[..N]);
    first
}
