//! Laws of decimals, for callers' proofs.
//!
//! The contract of each function is a law. There is nothing to compute, so the bodies are empty, or call getters for
//! what their contracts say. A caller that needs a law in a proof calls its function.
ghost use Rattle.std.specs.Prelude.{◌≡◌};
ghost use Rattle.num_format_locale.specs.Data.{locale_data};
ghost use Rattle.num_format_decimal.specs.declared.buffer.TheConstants.{MAX_DECIMAL_LEN};
ghost use Rattle.num_format_decimal.specs.declared.decimal.TheConstants.{MAX_SCALE};
ghost use Rattle.num_format_decimal.specs.Laws.{MarkNeededLaw, OrderLaw, RoundingLaw, TextBoundLaw};
ghost use Rattle.num_format_decimal.specs.Marks.{MarksDecimals};

use num_format_locale::Locale;

/// Decimals are in the order of their units, each times 10 to the power of the other's scale. So 1.50 equals 1.5.
#[tactic(auto, using(crate::proofs::LawLemmas::order_law))]
pub fn order()
    ensures { OrderLaw }
{}

/// A decimal has at most 38 decimals, and its text at most 199 bytes.
pub fn limits()
    ensures scale { MAX_SCALE ≡ 38 }
    ensures bytes { MAX_DECIMAL_LEN ≡ 199 }
{}

/// No text of a decimal has more than 199 bytes. That of `i128::MIN` at scale 1 has as many where the grouping is
/// Indian, and the separator, the minus sign and the decimal mark have 8 bytes each.
#[tactic(auto, using(crate::proofs::LawLemmas::text_bound_law))]
pub fn text_bound()
    ensures { TextBoundLaw }
{}

/// Rounding to the nearest number is at most half a unit from the exact one. At a half, `HalfEven` is to the even
/// number and `HalfAwayFromZero` away from zero.
pub fn rounding()
    ensures { RoundingLaw }
{}

/// Each locale marks decimals.
#[tactic(auto, using(crate::proofs::LocaleMarkLemmas::locale_mark))]
pub fn locale_marks(locale: Locale)
    ensures { MarksDecimals (locale_data locale) }
{
    // The contract of `name` says that the locale is in the table.
    locale.name();
}

/// Where `,` is both the separator and the mark, under the mark `5`, and under an empty mark, with all else of
/// `en`, two decimals have one text.
#[tactic(auto, using(crate::proofs::LawLemmas::mark_needed_law))]
pub fn mark_needed()
    ensures { MarkNeededLaw }
{}
