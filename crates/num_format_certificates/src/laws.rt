//! Laws of the checks of a format, for callers' proofs.
//!
//! The contract of each function is a law. There is nothing to compute, so the bodies are empty,
//! but for those of [`format_data`] and [`locale_round_trips`], which call getters for what their contracts
//! say. A caller that needs a law in a proof calls its function.
ghost use Rattle.num_format_locale.specs.Data.{locale_data};
ghost use Rattle.num_format_certificates.specs.Laws.{AlikeLaw, BothNeededLaw, DistinctTextsLaw, FourNeededLaw};
ghost use Rattle.num_format_certificates.specs.Laws.{RoundTripLaw, Utf8Law};
ghost use Rattle.num_format_certificates.specs.RoundTrips.{RoundTrips};
ghost use Rattle.num_format_text.specs.Format.{HasUtf8Texts, IsWithinCapacity};

use num_format_locale::Locale;
use num_format_text::Format;

/// The texts of a format of any type are within their capacities, and are UTF-8.
///
/// So other laws, which have these as premises, hold of each [`Format`].
pub fn format_data<F: Format>(format: &F)
    ensures within { IsWithinCapacity (F.answers format.now) }
    ensures utf8 { HasUtf8Texts (F.answers format.now) }
{
    // The contract of `into_str` says that a text is within its capacity, and its type that it is UTF-8.
    format.decimal().into_str();
    format.infinity().into_str();
    format.minus_sign().into_str();
    format.nan().into_str();
    format.plus_sign().into_str();
    format.separator().into_str();
}

/// The text of a number is UTF-8, if the minus sign and the separator are.
#[tactic(auto, using(crate::proofs::RoundTripLemmas::utf8_law))]
pub fn utf8_texts()
    ensures { Utf8Law }
{}

/// Two formats print all numbers alike exactly if they print 1000, 100000, 1000000 and -1 alike.
///
/// -1 shows the minus sign. 1000 has a separator under `Standard` and `Indian` alone. 100000 has one
/// under `Standard` and two under `Indian`, and one under `Myriad` and `Sparse`, of which 1000000 has
/// one and two. None of the four has one under `Posix`.
#[tactic(auto, using(crate::proofs::AlikeLemmas::alike_law))]
pub fn alike()
    ensures { AlikeLaw }
{}

/// None of these four numbers can be left out: for each there are two formats that print it
/// differently, and the other three alike.
#[tactic(auto, using(crate::proofs::AlikeExamples::four_needed_law))]
pub fn four_needed()
    ensures { FourNeededLaw }
{}

/// Every number of every integer type parses again from its text under a format exactly if the
/// `i128` values 1 and `i128::MIN` do. And this is so exactly if the minus sign is not empty, and
/// neither it nor a separator that is printed has a digit or another numeric character. A separator
/// is printed under each grouping but [`Grouping::Posix`](num_format_text::Grouping::Posix).
///
/// The law is about data whose minus sign and separator are UTF-8, as those of every
/// [`Format`](num_format_text::Format) are.
#[tactic(auto, using(crate::proofs::RoundTripLemmas::round_trip_law))]
pub fn round_trips()
    ensures { RoundTripLaw }
{}

/// Neither the `i128` value 1 nor `i128::MIN` decides this alone. With the data of `en` and the minus sign
/// `-0`, 1 parses again and `i128::MIN` does not; with the empty minus sign, `i128::MIN` does and 1 does
/// not.
#[tactic(auto, using(crate::proofs::RoundTripLemmas::both_needed_law))]
pub fn both_needed()
    ensures { BothNeededLaw }
{}

/// Every number of every integer type parses again from its text under the locale.
pub fn locale_round_trips(locale: Locale)
    ensures { RoundTrips (locale_data locale) }
{
    // The contract of `name` says that the locale is in the table.
    locale.name();
    format_data(&locale);
    round_trips();
}

/// Under a format by which every number reads back, two numbers of one integer type that have the
/// same text are equal.
pub fn distinct_texts()
    ensures { DistinctTextsLaw }
{}
