//! Prices in cents, as texts that parse as the same price.
ghost use Rattle.std.specs.Prelude.{◌≡◌, IfOk, string_bytes};
ghost use Rattle.num_format.specs.Data.{locale_data};
ghost use Rattle.num_format_decimal.specs.FixedPoint.{fixed_point};
ghost use Rattle.num_format_decimal.specs.Parsing.{ParsesDecimal};

use num_format::Locale;
use num_format_decimal::Decimal;
use num_format_decimal::laws::locale_marks;
use std::alloc::{AllocError, Global};

/// Returns the text of a price in cents under a locale. Strict parsing returns this price of it.
///
/// ```rust
/// format_price(alloc, 123_450, Locale::de)?    // "1.234,50"
/// ```
///
/// # Errors
///
/// Returns an error if there is no memory for the text.
pub fn format_price(alloc: Global, cents: i64, locale: Locale) -> Result<String, AllocError>
    ensures parses_back { IfOk result
        (λ text. ParsesDecimal (locale_data locale) (string_bytes text) (fixed_point cents 2)) }
{
    locale_marks(locale);
    let price = price_of(cents);
    let text = price.to_formatted_string(alloc, &locale)?;
    Ok(text)
}

/// Returns the price of that many cents.
fn price_of(cents: i64) -> Decimal
    ensures { result ≡ fixed_point cents 2 }
{
    Decimal::new(cents as i128, 2).unwrap()
}
