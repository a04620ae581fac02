//! Where the texts of a column begin and end.
ghost use Rattle.std.specs.Prelude.{◌≡◌, ◌≢◌, ℕ, ◌+◌, ◌*◌, ◌≤◌, ◌↔◌, IsTrue, length};
ghost use Rattle.std.specs.Int.{byte_len};
ghost use Rattle.num_format_c.specs.Layout.{AreOffsets, IsEnough, largest_offset, offset_at, offset_type_of, width};

use super::value::{set_value, value_at};

/// The type of the offsets of a column, each the number of the column's bytes before a place in it.
///
/// Apache Arrow has signed offsets, of which none is negative. So the highest bit is never set.
#[derive(Clone, Copy, Debug, PartialEq, Eq)]
pub enum OffsetType {
    I32,
    I64,
}

impl OffsetType {
    /// Returns the type for which the number stands.
    pub fn from_code(code: u32) -> Option<OffsetType>
        ensures { result ≡ offset_type_of code }
    {
        match code {
            0x69 => Some(OffsetType::I32),
            0x6C => Some(OffsetType::I64),
            _ => None,
        }
    }

    /// Returns the largest offset.
    pub fn limit(self) -> usize
        ensures { result ≡ largest_offset self }
    {
        match self {
            OffsetType::I32 => 0x7FFF_FFFF,
            OffsetType::I64 => 0x7FFF_FFFF_FFFF_FFFF,
        }
    }

    /// Returns whether an array has as many offsets as so many rows need, which is one more.
    pub fn is_enough(self, rows: usize, offsets: &[u8]) -> bool
        ensures { IsTrue result ↔ IsEnough self rows (length offsets.now) }
    {
        let (count, rest) = match self {
            OffsetType::I32 => (offsets.len() / 4, offsets.len() % 4),
            OffsetType::I64 => (offsets.len() / 8, offsets.len() % 8),
        };
        rest == 0 && count > 0 && count - 1 == rows
    }

    /// Returns an offset.
    #[inline(always)]
    pub fn get(self, offsets: &[u8], k: usize) -> usize
        requires { (k + 1) * byte_len (width self) ≤ length offsets.now }
        ensures { result ≡ offset_at self offsets.now k }
    {
        match self {
            OffsetType::I32 => value_at::<u32>(offsets, k) as usize,
            OffsetType::I64 => value_at::<u64>(offsets, k) as usize,
        }
    }

    /// Writes an offset.
    #[inline(always)]
    pub fn set(self, offsets: &mut [u8], k: usize, place: usize)
        requires within { (k + 1) * byte_len (width self) ≤ length offsets.old }
        requires fits { place ≤ largest_offset self }
        ensures written { offset_at self offsets.new k ≡ place }
        ensures others { (j : ℕ) → j ≢ k → offset_at self offsets.new j ≡ offset_at self offsets.old j }
    {
        match self {
            OffsetType::I32 => set_value(offsets, k, place as u32),
            OffsetType::I64 => set_value(offsets, k, place as u64),
        }
    }

    /// Returns whether no offset of those for so many rows is below the one before it, or above the limit.
    pub fn are_offsets(self, rows: usize, limit: usize, offsets: &[u8]) -> bool
        requires { IsEnough self rows (length offsets.now) }
        ensures { IsTrue result ↔ AreOffsets rows limit (offset_at self offsets.now) }
    {
        if self.get(offsets, 0) > limit {
            return false;
        }
        for k in 0..rows {
            let end = self.get(offsets, k + 1);
            if end < self.get(offsets, k) || end > limit {
                return false;
            }
        }
        true
    }
}
