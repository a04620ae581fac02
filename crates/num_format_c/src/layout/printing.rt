//! Printing a column.
ghost use Rattle.std.specs.Prelude.{◌≡◌, ℕ, List, ◌+◌, ◌^◌, ◌<◌, ◌≤◌, length, ◌++◌, MatchOption};
ghost use Rattle.num_format_c.specs.declared.layout.block.TheConstants.{BLOCK_LEN};
ghost use Rattle.num_format_c.specs.Layout.{AreAtStart, AreEnds, IsEnough, largest_offset, offset_at, texts_of};

use super::block::Block;
use super::offset::OffsetType;
use num_format_int::buffer::PutFront;

/// What prints the rows of a column.
pub trait Printer {
    ghost rows: { Self → ℕ };

    ghost text: { Self → ℕ → List ℕ };

    ghost MOST: { ℕ };

    /// Returns the most bytes of a text.
    fn most() -> usize
        ensures same { result ≡ MOST }
        ensures fits { MOST ≤ BLOCK_LEN };

    /// Returns the number of rows.
    fn len(&self) -> usize
        ensures { result ≡ rows self.now };

    /// Returns the length of the text of a row in bytes.
    fn text_len(&self, row: usize) -> usize
        requires { row < rows self.now }
        ensures { result ≡ length (text self.now row) };

    /// Prepends the text of a row to others.
    fn print<B: PutFront>(&self, row: usize, texts: &mut B)
        requires row { row < rows self.now }
        requires fits { length (B.held texts.old) + MOST ≤ B.CAPACITY }
        ensures { B.held texts.new ≡ text self.now row ++ B.held texts.old };
}

/// Returns how many bytes the texts of the rows have together, or `None` if a `usize` does not hold it.
pub fn texts_len<P: Printer>(printer: &P) -> Option<usize>
    ensures { let total = length (texts_of (P.text printer.now) (P.rows printer.now)) in
        MatchOption result (2 ^ 64 ≤ total) (λ len. len ≡ total) }
{
    let mut len: usize = 0;
    for row in 0..printer.len() {
        len = len.checked_add(printer.text_len(row))?;
    }
    Some(len)
}

/// Prints the rows one after another at the start of the bytes, where they have so many, and writes where each text
/// ends.
///
/// There is one offset more than rows, and the first is 0. Rows are printed from the last to the first, as digits are:
/// the texts of some of them at once are copied in less time than each.
pub fn print_texts<P: Printer>(
    printer: &P,
    total: usize,
    offset_type: OffsetType,
    offsets: &mut [u8],
    bytes: &mut [u8],
)
    requires total { total ≡ length (texts_of (P.text printer.now) (P.rows printer.now)) }
    requires offsets { IsEnough offset_type (P.rows printer.now) (length offsets.old) }
    requires fits { total ≤ length bytes.old }
    requires within { total ≤ largest_offset offset_type }
    ensures bytes { AreAtStart (P.text printer.now) (P.rows printer.now) bytes.old bytes.new }
    ensures ends { AreEnds (P.text printer.now) (P.rows printer.now) (offset_at offset_type offsets.new) }
{
    let mut block = Block::new();
    let mut end = total;
    let mut row = printer.len();
    while row > 0 {
        end = block.make_room(P::most(), end, bytes);
        offset_type.set(offsets, row, end - block.len());
        row -= 1;
        printer.print(row, &mut block);
    }
    block.move_into(end, bytes);
    offset_type.set(offsets, 0, 0);
}
