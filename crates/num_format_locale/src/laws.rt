//! Laws of the names and the data of locales, for callers' proofs.
//!
//! The contract of each function is a law: a fact about all texts and all places, over the
//! definitions alone. The bodies are empty, since there is nothing to compute. A caller that needs
//! a law in a proof calls its function.
ghost use Rattle.num_format_locale.specs.Laws.{FoundByNameLaw, FoundByTagLaw, LocaleHashLaw, LocaleOrderLaw, OrderLaw};
ghost use Rattle.num_format_locale.specs.Laws.{UniqueLaw, VariantLaw, WellFormedLaw};
ghost use Rattle.num_format_text.specs.Equality.{EqualityLaw};

use crate::locale::Locale;
use std::hash::Hash;

/// A text spells the name of at most one locale.
pub fn spelled_once()
    ensures { UniqueLaw }
{}

/// A locale's name, looked up, gives that locale.
pub fn found_by_name()
    ensures { FoundByNameLaw }
{}

/// A tag that is a locale's name, in any case, looked up, gives that locale.
pub fn found_by_tag()
    ensures { FoundByTagLaw }
{}

/// Two locales have different variants.
pub fn variants_differ()
    ensures { VariantLaw }
{}

/// The places of locales compare as their names do in byte order.
pub fn name_order()
    ensures { OrderLaw }
{}

/// The data of each locale are well formed: each text is within its capacity, the minus sign and the
/// separator are not empty, and each of their characters is one of the eleven that the definition of
/// the table lists.
pub fn well_formed_data()
    ensures { WellFormedLaw }
{}

/// Two locales are equal by `==` exactly if they are the same, and compare as their names do in byte
/// order. A clone is the same locale, and is never refused. Different locales are hashed differently.
pub fn locales()
    ensures equality { EqualityLaw (λ place. place) ⟦<Locale as PartialEq>⟧.eq ⟦<Locale as Clone>⟧.is_clone
        ⟦<Locale as Clone>⟧.is_infallible }
    ensures order { LocaleOrderLaw ⟦<Locale as Ord>⟧.cmp }
    ensures hash { LocaleHashLaw ⟦<Locale as Hash>⟧.hash_input }
{}
