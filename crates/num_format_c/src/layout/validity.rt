//! Which rows of a column have a value.
ghost use Rattle.std.specs.Prelude.{◌≡◌, ◌+◌};
ghost use Rattle.num_format_c.specs.Layout.{covers, is_bit_set, is_valid};

/// Which rows of a column have a value. The others are null.
///
/// Where there are no bits, each row has one. Else there is a bit for each row, which is set if the row has a
/// value, as in a validity bitmap of Apache Arrow: the bits of a byte are counted from its lowest.
#[derive(Clone, Copy)]
pub struct Validity<'a> {
    pub bits: &'a [u8],
    /// The bit of the first row.
    pub bit_offset: usize,
}

impl<'a> Validity<'a> {
    /// Returns whether the row has a value.
    #[inline(always)]
    pub fn is_valid(&self, row: usize) -> bool
        ensures { result ≡ is_valid self.now row }
    {
        self.bits.is_empty() || self.has_bit(row)
    }

    /// Returns whether the bit of the row is set.
    ///
    /// The sum of the row and the offset of its bit may not fit a `usize`, but that of their bytes does.
    #[inline(always)]
    fn has_bit(&self, row: usize) -> bool
        ensures { result ≡ is_bit_set self.now.bits.now (self.now.bit_offset + row) }
    {
        let bit = self.bit_offset % 8 + row % 8;
        match self.bits.get(self.bit_offset / 8 + row / 8 + bit / 8) {
            Some(byte) => (byte >> (bit % 8)) % 2 == 1,
            None => false,
        }
    }

    /// Returns whether it says of so many rows whether they have a value.
    pub fn covers(&self, n: usize) -> bool
        ensures { result ≡ covers self.now n }
    {
        let bits = self.bit_offset % 8 + n % 8;
        self.bits.is_empty() || self.bit_offset / 8 + n / 8 + bits.div_ceil(8) <= self.bits.len()
    }
}
