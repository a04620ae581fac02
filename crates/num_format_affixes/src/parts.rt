//! A text in three parts.
ghost use Rattle.std.specs.Prelude.{◌≡◌, ◌≤◌, ◌-◌, ◌++◌, drop, length, take};

/// A number's own text, with what stands around it. The three parts joined are the text that was split.
#[derive(Clone, Copy, Debug, PartialEq, Eq)]
pub struct Parts<'t> {
    /// What stands before the number, with the blanks between.
    pub before: &'t [u8],
    /// The number's own text.
    pub inner: &'t [u8],
    /// What stands after the number, with the blanks between.
    pub after: &'t [u8],
}

impl<'t> Parts<'t> {
    /// Returns the parts of a text by what is left of it without the first part, and without the last part too.
    pub(crate) fn around(text: &'t [u8], rest: &'t [u8], inner: &'t [u8]) -> Parts<'t>
        requires rest { rest.now ≡ drop (length text.now - length rest.now) text.now }
        requires rest_len { length rest.now ≤ length text.now }
        requires inner { inner.now ≡ take (length rest.now - (length rest.now - length inner.now)) rest.now }
        requires inner_len { length inner.now ≤ length rest.now }
        ensures joined { result.before.now ++ (result.inner.now ++ result.after.now) ≡ text.now }
        ensures rest { result.inner.now ++ result.after.now ≡ rest.now }
        ensures inner { result.inner.now ≡ inner.now }
    {
        Parts {
            before: &text[..text.len() - rest.len()],
            inner,
            after: &rest[inner.len()..],
        }
    }
}
