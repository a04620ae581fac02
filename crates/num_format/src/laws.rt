//! Laws: what follows from the definitions that the contracts use, for all formats and numbers.
//!
//! The contract of each function states a law. There is nothing to compute, so the bodies are
//! empty, or call methods whose contracts say it. A caller that needs a law in a proof calls its
//! function.
ghost use Rattle.num_format_text.specs.Equality.{EqualityLaw};
ghost use Rattle.num_format.specs.Json.{fault_of};
ghost use Rattle.num_format.specs.Laws.{JsonLaw};

use crate::json::JsonFault;
pub use num_format_certificates::laws::{
    alike, both_needed, distinct_texts, format_data, four_needed, locale_round_trips, round_trips,
    utf8_texts,
};
pub use num_format_custom::laws::{building, custom_formats, english, equality, hashes};
pub use num_format_int::laws::{digits, number_in_range, text_bound, text_ends, text_length};
pub use num_format_locale::laws::{
    found_by_name, found_by_tag, locales, name_order, spelled_once, variants_differ,
    well_formed_data,
};
pub use num_format_parsing::laws::{bytes_errors, minus_sign_decides, readable, strict_errors};
pub use num_format_text::laws::{
    cut_texts, errors, groupings, stored_texts, symbol_capacities, texts,
};

/// The JSON value of a buffer holds the same text, that of a format the same seven fields, and that
/// of a locale the same locale.
pub fn json()
    ensures { JsonLaw }
{}

/// Two faults are equal by `==` exactly if they are the same fault, at the same key, and so are a fault
/// and its clone.
pub fn json_faults()
    ensures { EqualityLaw fault_of ⟦<JsonFault as PartialEq>⟧.eq ⟦<JsonFault as Clone>⟧.is_clone
        ⟦<JsonFault as Clone>⟧.is_infallible }
{}
