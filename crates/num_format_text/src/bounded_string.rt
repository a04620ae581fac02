//! A text of bounded length, stored in place.
ghost use Rattle.std.specs.Prelude.{◌≡◌, ◌≤◌, ◌↔◌, ⊤, IfErr, IfOk, IsOk, length, nat_eq};
ghost use Rattle.std.specs.Cmp.{partial_equiv_from_equiv};
ghost use Rattle.std.specs.Cmp.Lexicographic.{nat_list_eq_equiv, pointwise};
ghost use Rattle.std.specs.Cmp.Rules.{hashing};
ghost use Rattle.std.specs.Hash as fed;
ghost use Rattle.std.proofs.Common.{rules};

use crate::error::Error;
use crate::error_kind::ErrorKind;
use crate::strings::BoundedStr;
use crate::symbol::Symbol;
use arrayvec::ArrayString;
use std::alloc::AllocError;
use std::hash::{Hash, Hasher};
use std::marker::Model;

/// A text of at most `CAP` bytes, stored in place. A contract sees its bytes.
///
/// [`BoundedStr`] is a borrowed text, of the capacity of its symbol. The Rust crate has no such
/// public type.
///
/// ```rust
/// BoundedString::<8>::new(",")?.as_str()     // ","
/// BoundedString::<8>::new("123456789")      // Err(Error { kind: Capacity { len: 9, cap: 8 } })
/// ```
#[derive(Debug, Drop)]
pub struct BoundedString<const CAP: usize> {
    text: ArrayString<CAP>,
}

impl<const CAP: usize> Model for BoundedString<CAP> {
    ghost use Rattle.std.specs.Prelude.{ℕ, List};

    ghost Value = { List ℕ };

    ghost view = { λ s. s.text.bytes };
}

impl<const CAP: usize> BoundedString<CAP> {
    /// Returns a copy of the text.
    ///
    /// ```rust
    /// BoundedString::<8>::new(",")?.as_str()     // ","
    /// BoundedString::<2>::new("abc").is_err()    // true
    /// ```
    ///
    /// # Errors
    ///
    /// A text of more than `CAP` bytes is refused with [`ErrorKind::Capacity`], which has both
    /// numbers of bytes.
    pub fn new(text: &str) -> Result<BoundedString<CAP>, Error>
        ensures accepted { IsOk result ↔ (length text.now ≤ CAP) }
        ensures same { IfOk result (λ s. s ≡ text.now) }
        ensures refused { IfErr result (λ e. e ≡ ErrorKind.Capacity (length text.now) CAP) }
    {
        let len = text.len();
        if len > CAP {
            return Err(Error::from(ErrorKind::Capacity { len, cap: CAP }));
        }
        Ok(BoundedString::of(text))
    }

    /// Returns a copy of a text that the caller knows to have at most `CAP` bytes.
    /// [`new`](BoundedString::new) tests that.
    ///
    /// ```rust
    /// BoundedString::<8>::of(",").as_str()    // ","
    /// ```
    pub fn of(text: &str) -> BoundedString<CAP>
        requires { length text.now ≤ CAP }
        ensures { result ≡ text.now }
    {
        let mut stored = ArrayString::new();
        stored.push_str(text);
        BoundedString { text: stored }
    }

    /// Returns the text.
    ///
    /// ```rust
    /// BoundedString::<8>::new("’")?.as_str()    // "’"
    /// ```
    pub fn as_str(&self) -> &str
        ensures same { result.now ≡ self.now }
        ensures fits { length result.now ≤ CAP }
    {
        self.text.as_str()
    }

    /// Returns the text as that of a symbol, whose capacity is at least `CAP`.
    ///
    /// ```rust
    /// let text = BoundedString::<8>::of(",");
    /// let separator: SeparatorStr<'_> = text.as_bounded();    // ","
    /// ```
    pub fn as_bounded<S: Symbol>(&self) -> BoundedStr<'_, S>
        requires { CAP ≤ S.CAPACITY }
        ensures { result ≡ self.now }
    {
        BoundedStr::of(self.as_str())
    }
}

// Not derived, since a derive needs each field from what a contract sees, and a contract does not see
// the unused bytes of the array.
impl<const CAP: usize> Clone for BoundedString<CAP> {
    ghost is_clone = { λ s t. t ≡ s };

    ghost is_infallible = { λ _. ⊤ };

    fn clone(&self) -> Result<BoundedString<CAP>, AllocError> {
        Ok(BoundedString { text: self.text })
    }
}

impl<const CAP: usize> PartialEq for BoundedString<CAP> {
    ghost eq = { pointwise nat_eq };

    ghost laws = { partial_equiv_from_equiv nat_list_eq_equiv };

    fn eq(&self, other: &Self) -> bool {
        self.text == other.text
    }
}

impl<const CAP: usize> Eq for BoundedString<CAP> {
    ghost laws = { nat_list_eq_equiv };
}

impl<const CAP: usize> Hash for BoundedString<CAP> {
    ghost hash_input = { fed.str };

    ghost respects_eq = { Prim.search (hashing, rules) };

    fn hash<H: Hasher>(&self, state: &mut H) {
        self.text.hash(state);
    }
}
