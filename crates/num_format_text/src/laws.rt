//! Laws of the parts of a format, for callers' proofs.
//!
//! The contract of each function is a law. The bodies are empty, since there is nothing to compute.
//! A caller that needs a law in a proof calls its function.
ghost use Rattle.std.specs.Prelude.{◌≡◌};
ghost use Rattle.num_format_text.specs.Cut.{CutLaw};
ghost use Rattle.num_format_text.specs.Equality.{EqualityLaw, HashLaw};
ghost use Rattle.num_format_text.specs.Format.{capacities};
ghost use Rattle.num_format_text.specs.Refusal.{ErrorHashLaw, refusal_of};

use crate::bounded_string::BoundedString;
use crate::error::Error;
use crate::error_kind::ErrorKind;
use crate::grouping::Grouping;
use crate::strings::BoundedStr;
use crate::symbol::{Decimal, Infinity, MinusSign, Nan, PlusSign, Separator, Symbol};
use std::hash::Hash;

/// The capacity of each symbol is the number of bytes that its text may have in the data of a
/// format.
pub fn symbol_capacities()
    ensures decimal { ⟦<Decimal as Symbol>⟧.CAPACITY ≡ capacities.decimal }
    ensures infinity { ⟦<Infinity as Symbol>⟧.CAPACITY ≡ capacities.infinity }
    ensures minus_sign { ⟦<MinusSign as Symbol>⟧.CAPACITY ≡ capacities.minus_sign }
    ensures nan { ⟦<Nan as Symbol>⟧.CAPACITY ≡ capacities.nan }
    ensures plus_sign { ⟦<PlusSign as Symbol>⟧.CAPACITY ≡ capacities.plus_sign }
    ensures separator { ⟦<Separator as Symbol>⟧.CAPACITY ≡ capacities.separator }
{}

/// What an error keeps of a text, as [`cut`](crate::error::cut) returns it, is the longest of its
/// prefixes that are whole characters and have at most
/// [`MAX_ERR_LEN`](crate::capacities::MAX_ERR_LEN) bytes.
pub fn cut_texts()
    ensures { CutLaw }
{}

/// Two groupings are equal by `==` exactly if they are the same variant, a clone is the same variant,
/// and different ones are hashed differently.
pub fn groupings()
    ensures equality { EqualityLaw (λ g. g) ⟦<Grouping as PartialEq>⟧.eq ⟦<Grouping as Clone>⟧.is_clone
        ⟦<Grouping as Clone>⟧.is_infallible }
    ensures hash { HashLaw (λ g. g) ⟦<Grouping as Hash>⟧.hash_input }
{}

/// Two texts of a symbol are equal by `==` exactly if they have the same bytes, a clone has the same
/// bytes, and different texts are hashed differently.
pub fn texts<S: Symbol>()
    ensures equality { EqualityLaw (λ s. s) ⟦<BoundedStr<'static, S> as PartialEq>⟧.eq ⟦<BoundedStr<'static, S> as Clone>⟧.is_clone ⟦<BoundedStr<'static, S> as Clone>⟧.is_infallible }
    ensures hash { HashLaw (λ s. s) ⟦<BoundedStr<'static, S> as Hash>⟧.hash_input }
{}

/// What [`texts`] says of texts that are stored in place.
pub fn stored_texts<const CAP: usize>()
    ensures equality { EqualityLaw (λ s. s) ⟦<BoundedString<CAP> as PartialEq>⟧.eq
        ⟦<BoundedString<CAP> as Clone>⟧.is_clone ⟦<BoundedString<CAP> as Clone>⟧.is_infallible }
    ensures hash { HashLaw (λ s. s) ⟦<BoundedString<CAP> as Hash>⟧.hash_input }
{}

/// Two errors are equal by `==` exactly if they have the same kind, with the same lengths or the same
/// kept text, and so have an error and its clone. Different ones are hashed differently.
pub fn errors()
    ensures kinds { EqualityLaw refusal_of ⟦<ErrorKind as PartialEq>⟧.eq ⟦<ErrorKind as Clone>⟧.is_clone
        ⟦<ErrorKind as Clone>⟧.is_infallible }
    ensures errors { EqualityLaw refusal_of ⟦<Error as PartialEq>⟧.eq ⟦<Error as Clone>⟧.is_clone
        ⟦<Error as Clone>⟧.is_infallible }
    ensures hashed_kinds { ErrorHashLaw ⟦<ErrorKind as Hash>⟧.hash_input }
    ensures hashed_errors { ErrorHashLaw ⟦<Error as Hash>⟧.hash_input }
{}
