//! The check of a format's decimal mark.
ghost use Rattle.std.specs.Prelude.{◌↔◌, IsTrue};
ghost use Rattle.num_format_decimal.specs.Marks.{MarksDecimals};

use crate::parser::DecimalParser;
use num_format_text::Format;

/// Returns whether every whole number reads back under the format, and the decimal mark cannot be taken for anything
/// else: it is not empty, no character of it is numeric, and it is not the separator, unless none is printed.
///
/// Then a text is canonical for one decimal at most, and each decimal of each scale, printed under the format, parses
/// as the same decimal again. Under any other format parsing refuses every text.
///
/// The contract says that the format `IsUnambiguous` where this says that every whole number reads back: by the law
/// `num_format::laws::round_trips` these are the same.
///
/// ```rust
/// marks_decimals(&Locale::de)                                       // true, as for each locale
/// marks_decimals(&CustomFormat::builder().decimal(",").build()?)    // false: the separator is a comma too
/// ```
pub fn marks_decimals<F: Format>(format: &F) -> bool
    ensures { IsTrue result ↔ MarksDecimals (F.answers format.now) }
{
    DecimalParser::new(format).is_ok()
}
