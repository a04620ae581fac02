//! Laws of parsing and of its errors, for callers' proofs.
//!
//! The contract of each function is a law. There is nothing to compute, so the bodies are empty.
//! A caller that needs a law in a proof calls its function.
ghost use Rattle.num_format_parsing.specs.Laws.{MinusSignLaw, ReadableLaw, StrictErrorHashLaw};
ghost use Rattle.num_format_text.specs.Equality.{EqualityLaw, HashLaw};

use crate::error::{ParseBytesError, StrictError};
use std::hash::Hash;

/// Which number a text denotes, and whether it is refused, depends on the minus sign of the format, and
/// on nothing else of it.
pub fn minus_sign_decides()
    ensures { MinusSignLaw }
{}

/// A text is readable under a format, as a test decides that computes, exactly if it is not refused as an `i128`.
pub fn readable()
    ensures { ReadableLaw }
{}

/// Two errors of parsing bytes are equal by `==` exactly if they are the same variant, a clone is the same
/// variant, and different ones are hashed differently.
pub fn bytes_errors()
    ensures equality { EqualityLaw (λ e. e) ⟦<ParseBytesError as PartialEq>⟧.eq
        ⟦<ParseBytesError as Clone>⟧.is_clone ⟦<ParseBytesError as Clone>⟧.is_infallible }
    ensures hash { HashLaw (λ e. e) ⟦<ParseBytesError as Hash>⟧.hash_input }
{}

/// Two errors of strict parsing are equal by `==` exactly if they are the same variant with the same
/// place, and so are an error and its clone. Different ones are hashed differently.
pub fn strict_errors()
    ensures equality { EqualityLaw (λ e. e) ⟦<StrictError as PartialEq>⟧.eq
        ⟦<StrictError as Clone>⟧.is_clone ⟦<StrictError as Clone>⟧.is_infallible }
    ensures hash { StrictErrorHashLaw ⟦<StrictError as Hash>⟧.hash_input }
{}
