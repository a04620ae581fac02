//! How bytes are told apart into records and fields.
ghost use Rattle.std.specs.Prelude.{◌≡◌, ◌+◌, ◌<◌, ◌≤◌, ◌^◌};
ghost use Rattle.regroup_core.specs.Fields.{delimiter_of, is_field, number_of, quotes_of};

/// How the fields of a record are told apart.
#[derive(Clone, Copy, Debug, PartialEq, Eq)]
pub enum Separation {
    /// By this byte between two.
    Delimited(u8),
    /// By this byte between two, which is one like others in a field in quotes, as RFC 4180 has them. A field is in
    /// quotes if it begins with a quote: it may have line ends then, and two quotes for one.
    Quoted(u8),
    /// By runs of spaces. Those before the first field and after the last one count for nothing.
    Blanks,
}

/// How records and their fields are told apart.
///
/// ```text
/// Dialect { separation: Separation::Quoted(b','), line_end: b'\n' }    // CSV
/// ```
#[derive(Clone, Copy, Debug, PartialEq, Eq)]
pub struct Dialect {
    /// How the fields of a record are told apart.
    pub separation: Separation,
    /// The byte that ends a record, as a newline or NUL.
    pub line_end: u8,
}

impl Separation {
    /// Returns the byte that is between two fields.
    ///
    /// ```text
    /// Separation::Blanks.delimiter()    // b' '
    /// ```
    #[inline]
    pub fn delimiter(self) -> u8
        ensures { result ≡ delimiter_of self }
    {
        match self {
            Separation::Delimited(delimiter) | Separation::Quoted(delimiter) => delimiter,
            Separation::Blanks => b' ',
        }
    }

    /// Returns the delimiter of fields that may be in quotes, or `None` if none may.
    #[inline]
    pub(crate) fn quotes(self) -> Option<u8>
        ensures { result ≡ quotes_of self }
    {
        match self {
            Separation::Quoted(delimiter) => Some(delimiter),
            Separation::Delimited(_) | Separation::Blanks => None,
        }
    }

    /// Returns whether what is between two delimiters is a field: between two spaces of a run there is none.
    #[inline]
    pub(crate) fn has(self, part: &[u8]) -> bool
        ensures { result ≡ is_field self part.now }
    {
        match self {
            Separation::Delimited(_) | Separation::Quoted(_) => true,
            Separation::Blanks => !part.is_empty(),
        }
    }

    /// Returns the number of a part that so many fields are before, or theirs if it is no field.
    #[inline]
    pub(crate) fn number_after(self, before: u64, part: &[u8]) -> u64
        requires { before + 1 < 2 ^ 64 }
        ensures number { result ≡ number_of self before part.now }
        ensures most { result ≤ before + 1 }
    {
        if self.has(part) { before + 1 } else { before }
    }
}
