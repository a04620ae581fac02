//! Laws of texts as people type them, for callers' proofs.
//!
//! The contract of each function is a law. There is nothing to compute: a body calls at most a getter for what its
//! contract says.
ghost use Rattle.num_format_locale.specs.Data.{locale_data};
ghost use Rattle.num_format_typed.specs.Laws.{OnceDecimalLaw, OnceLaw, PrintedAtScaleLaw, PrintedDecimalLaw};
ghost use Rattle.num_format_typed.specs.Laws.{PrintedLaw};
ghost use Rattle.num_format_typed.specs.Typed.{IsTypable};

use num_format_int::sealed::Sealed;
use num_format_locale::Locale;
use num_format_parsing::FromFormattedStr;

/// A text that strict parsing accepts is typed for the same number.
pub fn printed_texts<N: FromFormattedStr>()
    ensures { PrintedLaw N.kind N.value }
{
    // Its contract says that no value has more than 128 bits.
    N::is_wide();
}

/// A text that strict parsing accepts as a decimal is typed for the same one, and so is one that it accepts at a scale.
pub fn printed_decimals()
    ensures any_scale { PrintedDecimalLaw }
    ensures at_scale { PrintedAtScaleLaw }
{}

/// A text is typed for one number at most.
pub fn typed_once<N: FromFormattedStr>()
    ensures whole { OnceLaw N.kind N.value }
    ensures decimal { OnceDecimalLaw }
{}

/// No locale is refused as ambiguous.
pub fn locale_typable(locale: Locale)
    ensures { IsTypable (locale_data locale) }
{
    // Its contract says that the locale is in the table.
    locale.name();
}
