//! Laws of formats of one's own and of their builder, for callers' proofs.
//!
//! The contract of each function is a law. There is nothing to compute: the bodies are empty, or call
//! another law. A caller that needs a law in a proof calls its function.
ghost use Rattle.num_format_custom.specs.Laws.{BuildingLaw, CustomFormatLaw, EnglishLaw};
ghost use Rattle.num_format_text.specs.Equality.{EqualityLaw, HashLaw};

use crate::custom_format::CustomFormat;
use crate::custom_format_builder::CustomFormatBuilder;
use num_format_text::laws::groupings;
use std::hash::Hash;

/// A builder starts with the data of the locale `en`.
pub fn english()
    ensures { EnglishLaw }
{}

/// After any calls, a builder has in each field the last value that the field was given. So what it
/// builds depends on these alone.
pub fn building()
    ensures { BuildingLaw }
{}

/// A builder that was made of a format builds that format again. Equal formats print every number
/// alike, and so do formats that have the same grouping, minus sign and separator.
pub fn custom_formats()
    ensures { CustomFormatLaw }
{}

/// By `==`, two formats are equal exactly if all their data are, and two builders exactly if they have
/// the same in each field. A clone is equal to its source, and needs no memory.
pub fn equality()
    ensures formats { EqualityLaw (λ x. x) ⟦<CustomFormat as PartialEq>⟧.eq ⟦<CustomFormat as Clone>⟧.is_clone
        ⟦<CustomFormat as Clone>⟧.is_infallible }
    ensures builders { EqualityLaw (λ x. x) ⟦<CustomFormatBuilder as PartialEq>⟧.eq
        ⟦<CustomFormatBuilder as Clone>⟧.is_clone ⟦<CustomFormatBuilder as Clone>⟧.is_infallible }
{}

/// Different formats are hashed differently, and equal ones alike.
pub fn hashes()
    ensures { HashLaw (λ x. x) ⟦<CustomFormat as Hash>⟧.hash_input }
{
    groupings();
}
