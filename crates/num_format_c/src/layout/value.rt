//! The values of a column, as the bytes of an array.
ghost use Rattle.std.specs.Prelude.{◌≡◌, ◌≢◌, ℕ, ◌+◌, ◌*◌, ◌<◌, ◌≤◌, length};
ghost use Rattle.std.specs.Int.{w8, w16, w32, w64, w128};
ghost use Rattle.num_format_c.specs.Layout.{Representation, number_at, row_bytes, row_count, signed, unsigned};
ghost use Rattle.num_format.specs.Kind.{I8, U8, I16, U16, I32, U32, I64, U64, I128, U128};

use super::validity::Validity;
use num_format_int::sealed::Sealed;

/// An integer that is read from bytes and written to bytes, in the machine's order and at any alignment.
pub trait Value: Sealed + Copy {
    ghost repr: { Representation };

    /// Returns the number of bytes of a value.
    fn size() -> usize
        ensures size { result ≡ repr.size }
        ensures positive { 0 < result };

    /// Returns the value that has the bytes.
    fn read(bytes: &[u8]) -> Self
        requires { length bytes.now ≡ repr.size }
        ensures { Self.value result ≡ repr.number bytes.now };

    /// Writes the bytes of the value.
    fn write(self, bytes: &mut [u8])
        requires { length bytes.old ≡ repr.size }
        ensures { repr.number bytes.new ≡ Self.value self };
}

/// Returns the bytes as an array.
#[inline(always)]
fn array<const N: usize>(bytes: &[u8]) -> [u8; N]
    requires { length bytes.now ≡ N }
    ensures { result ≡ bytes.now }
{
    match bytes.as_array() {
        Some(bytes) => *bytes,
        None => unreachable!(),
    }
}

/// Returns how many rows a column with these values has, or `None` if the last value is not whole, or
/// there are fewer bits.
pub fn row_count<N: Value>(values: &[u8], validity: &Validity) -> Option<usize>
    ensures { result ≡ row_count N.repr values.now validity.now }
{
    let size = N::size();
    let n = values.len() / size;
    (values.len() % size == 0 && validity.covers(n)).then_some(n)
}

/// Returns the value of a row.
#[inline(always)]
pub fn value_at<N: Value>(values: &[u8], row: usize) -> N
    requires { row * N.repr.size + N.repr.size ≤ length values.now }
    ensures { N.value result ≡ number_at N.repr values.now row }
{
    let start = row * N::size();
    N::read(&values[start..start + N::size()])
}

/// Writes the value of a row.
#[inline(always)]
pub fn set_value<N: Value>(values: &mut [u8], row: usize, value: N)
    requires { row * N.repr.size + N.repr.size ≤ length values.old }
    ensures written { number_at N.repr values.new row ≡ N.value value }
    ensures others { (k : ℕ) → k ≢ row → row_bytes N.repr.size values.new k ≡ row_bytes N.repr.size values.old k }
{
    let start = row * N::size();
    value.write(&mut values[start..start + N::size()]);
}

impl Value for i8 {
    ghost repr = { signed w8 I8 };

    fn size() -> usize {
        1
    }

    fn read(bytes: &[u8]) -> i8 {
        i8::from_ne_bytes(array(bytes))
    }

    fn write(self, bytes: &mut [u8]) {
        bytes.copy_from_slice(&self.to_ne_bytes());
    }
}

impl Value for u8 {
    ghost repr = { unsigned w8 U8 };

    fn size() -> usize {
        1
    }

    fn read(bytes: &[u8]) -> u8 {
        u8::from_ne_bytes(array(bytes))
    }

    fn write(self, bytes: &mut [u8]) {
        bytes.copy_from_slice(&self.to_ne_bytes());
    }
}

impl Value for i16 {
    ghost repr = { signed w16 I16 };

    fn size() -> usize {
        2
    }

    fn read(bytes: &[u8]) -> i16 {
        i16::from_ne_bytes(array(bytes))
    }

    fn write(self, bytes: &mut [u8]) {
        bytes.copy_from_slice(&self.to_ne_bytes());
    }
}

impl Value for u16 {
    ghost repr = { unsigned w16 U16 };

    fn size() -> usize {
        2
    }

    fn read(bytes: &[u8]) -> u16 {
        u16::from_ne_bytes(array(bytes))
    }

    fn write(self, bytes: &mut [u8]) {
        bytes.copy_from_slice(&self.to_ne_bytes());
    }
}

impl Value for i32 {
    ghost repr = { signed w32 I32 };

    fn size() -> usize {
        4
    }

    fn read(bytes: &[u8]) -> i32 {
        i32::from_ne_bytes(array(bytes))
    }

    fn write(self, bytes: &mut [u8]) {
        bytes.copy_from_slice(&self.to_ne_bytes());
    }
}

impl Value for u32 {
    ghost repr = { unsigned w32 U32 };

    fn size() -> usize {
        4
    }

    fn read(bytes: &[u8]) -> u32 {
        u32::from_ne_bytes(array(bytes))
    }

    fn write(self, bytes: &mut [u8]) {
        bytes.copy_from_slice(&self.to_ne_bytes());
    }
}

impl Value for i64 {
    ghost repr = { signed w64 I64 };

    fn size() -> usize {
        8
    }

    fn read(bytes: &[u8]) -> i64 {
        i64::from_ne_bytes(array(bytes))
    }

    fn write(self, bytes: &mut [u8]) {
        bytes.copy_from_slice(&self.to_ne_bytes());
    }
}

impl Value for u64 {
    ghost repr = { unsigned w64 U64 };

    fn size() -> usize {
        8
    }

    fn read(bytes: &[u8]) -> u64 {
        u64::from_ne_bytes(array(bytes))
    }

    fn write(self, bytes: &mut [u8]) {
        bytes.copy_from_slice(&self.to_ne_bytes());
    }
}

impl Value for i128 {
    ghost repr = { signed w128 I128 };

    fn size() -> usize {
        16
    }

    fn read(bytes: &[u8]) -> i128 {
        i128::from_ne_bytes(array(bytes))
    }

    fn write(self, bytes: &mut [u8]) {
        bytes.copy_from_slice(&self.to_ne_bytes());
    }
}

impl Value for u128 {
    ghost repr = { unsigned w128 U128 };

    fn size() -> usize {
        16
    }

    fn read(bytes: &[u8]) -> u128 {
        u128::from_ne_bytes(array(bytes))
    }

    fn write(self, bytes: &mut [u8]) {
        bytes.copy_from_slice(&self.to_ne_bytes());
    }
}
