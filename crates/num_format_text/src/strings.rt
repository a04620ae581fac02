//! The texts of a format, each within the capacity of its symbol.
//!
//! The six types differ in their symbol alone, so a minus sign cannot be passed for a separator.
ghost use Rattle.std.specs.Prelude.{◌≡◌, ◌≤◌, ◌↔◌, length, nat_eq, refl, Some, IfOk, IfErr, IsOk, ⊤};
ghost use Rattle.std.proofs.Common.{rules};
ghost use Rattle.std.specs.Ordering.{nat_cmp};
ghost use Rattle.std.specs.Cmp.{partial_equiv_from_equiv};
ghost use Rattle.std.specs.Cmp.Lexicographic.{pointwise, slice_cmp, nat_list_eq_equiv, nat_list_cmp_total, texts_po};
ghost use Rattle.std.specs.Cmp.Lexicographic.{texts_ties};
ghost use Rattle.std.specs.Cmp.Rules.{hashing};
ghost use Rattle.std.specs.Fmt.{debug_str};
ghost use Rattle.std.specs.Hash as fed;

use crate::error::Error;
use crate::error_kind::ErrorKind;
use crate::symbol::{Decimal, Infinity, MinusSign, Nan, PlusSign, Separator, Symbol};
use std::alloc::AllocError;
use std::cmp::Ordering;
use std::fmt;
use std::hash::{Hash, Hasher};
use std::marker::{Model, PhantomData};

/// The text of a symbol, borrowed. It has at most [`Symbol::CAPACITY`] bytes.
///
/// A contract sees it as the list of its bytes.
pub struct BoundedStr<'a, S: Symbol> {
    text: &'a str,
    symbol: PhantomData<S>,
}

/// A decimal mark of at most [`MAX_DEC_LEN`](crate::capacities::MAX_DEC_LEN) bytes.
pub type DecimalStr<'a> = BoundedStr<'a, Decimal>;

/// A text for infinity of at most [`MAX_INF_LEN`](crate::capacities::MAX_INF_LEN) bytes.
pub type InfinityStr<'a> = BoundedStr<'a, Infinity>;

/// A minus sign of at most [`MAX_MIN_LEN`](crate::capacities::MAX_MIN_LEN) bytes.
pub type MinusSignStr<'a> = BoundedStr<'a, MinusSign>;

/// A text for NaN of at most [`MAX_NAN_LEN`](crate::capacities::MAX_NAN_LEN) bytes.
pub type NanStr<'a> = BoundedStr<'a, Nan>;

/// A plus sign of at most [`MAX_PLUS_LEN`](crate::capacities::MAX_PLUS_LEN) bytes.
pub type PlusSignStr<'a> = BoundedStr<'a, PlusSign>;

/// A separator of at most [`MAX_SEP_LEN`](crate::capacities::MAX_SEP_LEN) bytes.
pub type SeparatorStr<'a> = BoundedStr<'a, Separator>;

impl<'a, S: Symbol> Model for BoundedStr<'a, S> {
    ghost use Rattle.std.specs.Prelude.{ℕ, ◌≤◌, List, length};

    ghost Value = { List ℕ };

    ghost view = { λ s. s.text.now };

    ghost invariant = { λ s. length s.text.now ≤ S.CAPACITY };
}

impl<'a, S: Symbol> BoundedStr<'a, S> {
    /// Returns `text` as the text of this symbol.
    ///
    /// The empty text and a text of exactly the capacity are accepted. A longer one is refused
    /// with [`ErrorKind::Capacity`], which has both lengths in bytes.
    ///
    /// ```rust
    /// SeparatorStr::new(",")            // Ok(",")
    /// SeparatorStr::new("123456789")    // Err(Error { kind: Capacity { len: 9, cap: 8 } })
    /// ```
    pub fn new(text: &'a str) -> Result<BoundedStr<'a, S>, Error>
        ensures accepted { IsOk result ↔ (length text.now ≤ S.CAPACITY) }
        ensures same { IfOk result (λ s. s ≡ text.now) }
        ensures refused { IfErr result (λ e. e ≡ ErrorKind.Capacity (length text.now) S.CAPACITY) }
    {
        let len = text.len();
        let cap = S::CAPACITY;
        if len > cap {
            return Err(Error::from(ErrorKind::Capacity { len, cap }));
        }
        Ok(BoundedStr::of(text))
    }

    /// Returns `text` as the text of this symbol, where the caller knows that it has at most
    /// [`Symbol::CAPACITY`] bytes. [`new`](BoundedStr::new) tests that.
    ///
    /// ```rust
    /// SeparatorStr::of(",")    // ","
    /// ```
    pub fn of(text: &'a str) -> BoundedStr<'a, S>
        requires { length text.now ≤ S.CAPACITY }
        ensures { result ≡ text.now }
    {
        BoundedStr {
            text,
            symbol: PhantomData,
        }
    }

    /// Returns the same text. Unlike a clone, it is not wrapped in a `Result`.
    ///
    /// The Rust crate has no such call.
    ///
    /// ```rust
    /// SeparatorStr::of(",").copied()    // ","
    /// ```
    pub fn copied(&self) -> BoundedStr<'a, S>
        ensures { result ≡ self.now }
    {
        BoundedStr::of(self.text)
    }

    /// Returns the text that [`new`](BoundedStr::new) was given. It has at most
    /// [`Symbol::CAPACITY`] bytes.
    ///
    /// ```rust
    /// SeparatorStr::of(",").into_str().len()    // 1
    /// ```
    pub fn into_str(self) -> &'a str
        ensures same { result.now ≡ self.entry }
        ensures fits { length result.now ≤ S.CAPACITY }
    {
        let BoundedStr { text, symbol: _ } = self;
        text
    }
}

impl<'a, S: Symbol> Clone for BoundedStr<'a, S> {
    ghost is_clone = { λ s copy. copy ≡ s };

    ghost is_infallible = { λ _. ⊤ };

    /// Returns the same text. This is never an error.
    fn clone(&self) -> Result<Self, AllocError> {
        Ok(self.copied())
    }
}

impl<'a, S: Symbol> PartialEq for BoundedStr<'a, S> {
    ghost eq = { pointwise nat_eq };

    ghost laws = { partial_equiv_from_equiv nat_list_eq_equiv };

    fn eq(&self, other: &Self) -> bool {
        self.text == other.text
    }
}

impl<'a, S: Symbol> Eq for BoundedStr<'a, S> {
    ghost laws = { nat_list_eq_equiv };
}

impl<'a, S: Symbol> PartialOrd for BoundedStr<'a, S> {
    ghost partial_cmp = { λ s t. Some (slice_cmp nat_cmp s t) };

    ghost laws = { texts_po };

    fn partial_cmp(&self, other: &Self) -> Option<Ordering> {
        Some(self.cmp(other))
    }
}

impl<'a, S: Symbol> Ord for BoundedStr<'a, S> {
    ghost cmp = { slice_cmp nat_cmp };

    ghost total = { nat_list_cmp_total };

    ghost matches_partial_cmp = { λ s t. refl };

    ghost matches_eq = { texts_ties };

    fn cmp(&self, other: &Self) -> Ordering {
        self.text.cmp(other.text)
    }
}

impl<'a, S: Symbol> Hash for BoundedStr<'a, S> {
    ghost hash_input = { fed.str };

    ghost respects_eq = { Prim.search (hashing, rules) };

    fn hash<H: Hasher>(&self, state: &mut H) {
        self.text.hash(state);
    }
}

impl<'a, S: Symbol> fmt::Display for BoundedStr<'a, S> {
    ghost output = { λ s. Some s };

    ghost styled_output = { λ s _. Some s };

    /// Writes the text alone, whatever width or fill is asked for.
    fn fmt<W: fmt::Write>(&self, f: &mut fmt::Formatter<W>) -> fmt::Result {
        f.write_str(self.text)
    }
}

impl<'a, S: Symbol> fmt::Debug for BoundedStr<'a, S> {
    ghost debug_output = { debug_str };

    /// Writes the debug form of the text, as `","`.
    fn fmt<W: fmt::Write>(&self, f: &mut fmt::Formatter<W>) -> fmt::Result {
        fmt::Debug::fmt(self.text, f)
    }
}

impl<'a, S: Symbol> Drop for BoundedStr<'a, S> {
    fn drop(self) {
        let BoundedStr { text: _, symbol: _ } = self;
    }
}
