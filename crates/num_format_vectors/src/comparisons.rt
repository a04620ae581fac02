//! What `==`, `<`, `clone`, `hash` and `{}` of values of num_format mean, as a caller sees them.
//!
//! Each function makes one such call, and its contract says what the call returns. An `impl` chooses
//! itself what its `==` is to return. One that finds all values equal is proved where it stands, and
//! refused here.
ghost use Rattle.std.specs.Prelude.{◌≡◌, ◌<◌, ◌↔◌, IsTrue, IfOk, fold, string_bytes};
ghost use Rattle.std.specs.Cmp.Lexicographic.{slice_cmp};
ghost use Rattle.std.specs.Hash as fed;
ghost use Rattle.std.specs.Hash.DefaultHasher as sip;
ghost use Rattle.std.specs.Ordering.{is_lt, nat_cmp};
ghost use Rattle.num_format.specs.Refusal.{message_of, refusal_of};

use num_format::{
    Buffer, CustomFormat, CustomFormatBuilder, Error, ErrorKind, Grouping, Locale, laws,
};
use num_format_text::strings::BoundedStr;
use num_format_text::symbol::Symbol;
use std::alloc::{AllocError, Global};
use std::cmp::Ordering;
use std::hash::{DefaultHasher, Hash, Hasher};

/// Returns whether two errors are equal: whether they have the same kind, with the same lengths or
/// the same kept text.
pub fn equal_errors(a: &Error, b: &Error) -> bool
    ensures { IsTrue result ↔ (refusal_of a.now ≡ refusal_of b.now) }
{
    a == b
}

/// Returns whether two kinds are equal: whether they have the same lengths or the same kept text too.
pub fn equal_kinds(a: &ErrorKind, b: &ErrorKind) -> bool
    ensures { IsTrue result ↔ (refusal_of a.now ≡ refusal_of b.now) }
{
    a == b
}

/// Returns whether two groupings are equal.
pub fn equal_groupings(a: Grouping, b: Grouping) -> bool
    ensures { IsTrue result ↔ (a ≡ b) }
{
    a == b
}

/// Returns whether two texts of one symbol are equal.
pub fn equal_texts<S: Symbol>(a: &BoundedStr<'_, S>, b: &BoundedStr<'_, S>) -> bool
    ensures { IsTrue result ↔ (a.now ≡ b.now) }
{
    a == b
}

/// Compares two texts of one symbol, by their bytes.
pub fn compare_texts<S: Symbol>(a: &BoundedStr<'_, S>, b: &BoundedStr<'_, S>) -> Ordering
    ensures { result ≡ slice_cmp nat_cmp a.now b.now }
{
    a.cmp(b)
}

/// Returns whether a text is less than another one of its symbol.
pub fn is_before<S: Symbol>(a: &BoundedStr<'_, S>, b: &BoundedStr<'_, S>) -> bool
    ensures { result ≡ is_lt (slice_cmp nat_cmp a.now b.now) }
{
    a < b
}

/// Returns a clone of an error, which is never an error of its own.
pub fn cloned_error(error: &Error) -> Error
    ensures { result ≡ error.now }
{
    error.clone().unwrap()
}

/// Returns a clone of a kind.
pub fn cloned_kind(kind: &ErrorKind) -> ErrorKind
    ensures { result ≡ kind.now }
{
    kind.clone().unwrap()
}

/// Returns a clone of a text.
pub fn cloned_text<'a, S: Symbol>(text: &BoundedStr<'a, S>) -> BoundedStr<'a, S>
    ensures { result ≡ text.now }
{
    text.clone().unwrap()
}

/// Hashes a text, as its `str` is hashed.
pub fn hash_text<S: Symbol, H: Hasher>(text: &BoundedStr<'_, S>, state: &mut H)
    ensures { state.new ≡ fold H.write state.old (fed.str text.now) }
{
    text.hash(state);
}

/// Returns the hash of a value.
pub fn hash_of<T: Hash>(value: &T) -> u64
    ensures { result ≡ sip.finish (fold sip.write sip.initial (T.hash_input value.now)) }
{
    let mut state = DefaultHasher::new();
    value.hash(&mut state);
    state.finish()
}

/// Returns whether two values differ or have the same hash, which is always so.
pub fn hash_alike<T: Hash>(a: &T, b: &T) -> bool
    ensures { IsTrue result }
{
    *a != *b || hash_of(a) == hash_of(b)
}

/// Returns the message of an error, which no width changes.
pub fn message(alloc: Global, error: &Error) -> Result<String, AllocError>
    ensures { IfOk result (λ s. string_bytes s ≡ message_of (refusal_of error.now)) }
{
    format!(in alloc; "{error:*^300}")
}

/// Returns a text, which no width changes.
pub fn shown_text<S: Symbol>(alloc: Global, text: &BoundedStr<'_, S>) -> Result<String, AllocError>
    ensures { IfOk result (λ s. string_bytes s ≡ text.now) }
{
    format!(in alloc; "{text:*^300}")
}

/// Returns whether both formats have the same data.
pub fn same_format(a: &CustomFormat, b: &CustomFormat) -> bool
    ensures { IsTrue result ↔ (a.now ≡ b.now) }
{
    laws::equality();
    a == b
}

/// Returns a copy of the format.
pub fn copy_of_format(format: &CustomFormat) -> CustomFormat
    ensures { result ≡ format.now }
{
    format.clone().unwrap()
}

/// Writes a number under both formats, and returns whether they are equal. If so, both texts are the
/// same.
pub fn write_under_both(
    number: i128,
    a: &CustomFormat,
    b: &CustomFormat,
    first: &mut Buffer,
    second: &mut Buffer,
) -> bool
    ensures { IsTrue result → first.new ≡ second.new }
{
    first.write_formatted(&number, a);
    second.write_formatted(&number, b);
    same_format(a, b)
}

/// Returns whether both builders have the same in each field, errors included.
pub fn same_builder(a: &CustomFormatBuilder, b: &CustomFormatBuilder) -> bool
    ensures { IsTrue result ↔ (a.now ≡ b.now) }
{
    laws::equality();
    a == b
}

/// Returns a copy of the builder.
pub fn copy_of_builder(builder: &CustomFormatBuilder) -> CustomFormatBuilder
    ensures { result ≡ builder.now }
{
    builder.clone().unwrap()
}

/// Returns whether two locales are the same.
pub fn same_locale(a: Locale, b: Locale) -> bool
    ensures { IsTrue result ↔ (a ≡ b) }
{
    a == b
}

/// Returns whether a locale is before another.
pub fn is_before_locale(a: Locale, b: Locale) -> bool
    ensures { IsTrue result ↔ (a < b) }
{
    a < b
}

/// Returns a clone of a locale.
pub fn cloned_locale(locale: &Locale) -> Locale
    ensures { result ≡ locale.now }
{
    locale.clone().unwrap()
}

#[cfg(test)]
mod tests {
    use super::*;
    use crate::asserting::assert_equal;
    use num_format::utils::SeparatorStr;
    use std::test::Fail;

    /// Errors that keep the same prefix are equal.
    #[test]
    fn errors(rt: HostRuntime) -> Result<(), Fail> {
        let kept = "a".repeat(rt.alloc(), 255)?;
        let long = format!(in rt.alloc(); "{kept}é")?;
        let (error, same) = (Error::new(&long), Error::new(&kept));
        assert!(rt; hash_alike(&error, &same));
        assert!(rt; equal_errors(&cloned_error(&error), &same));
        assert!(rt; equal_kinds(&cloned_kind(error.kind()), same.kind()));
        assert!(rt; !equal_errors(&error, &Error::new(&kept[..254])));
        Ok(())
    }

    #[test]
    fn separators(rt: HostRuntime) -> Result<(), Fail> {
        let (a, b) = (SeparatorStr::new("a")?, SeparatorStr::new("b")?);
        assert_equal(&rt, compare_texts(&a, &b), Ordering::Less);
        assert!(rt; is_before(&a, &b));
        assert!(rt; !equal_texts(&a, &b));
        assert!(rt; equal_texts(&a, &cloned_text(&a)));
        assert!(rt; hash_alike(&a, &b));
        Ok(())
    }
}
