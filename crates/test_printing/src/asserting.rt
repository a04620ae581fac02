//! The assertion that the tests use.
//!
//! It is a function and not the macro, since each use of the macro takes about a second to prove.

use std::fmt::Debug;
use std::process::Abort;

/// Asserts that two values are equal, and shows both where they differ.
pub fn assert_equal<T: Copy + PartialEq + Debug>(rt: &impl Abort, left: T, right: T) {
    assert_eq!(rt; left, right);
}
