//! A law of records that come in pieces, for callers' proofs.
//!
//! The contract of the function is the law. There is nothing to compute, so its body is empty.
ghost use Rattle.regroup_core.specs.Laws.{PiecesLaw};

/// Bytes that are searched for the end of a record in two pieces give the same as both at once: an end in the first
/// piece is that of both, and otherwise [`record_end`](crate::record_end) goes on in the second piece, with the line
/// ends of the first one added.
pub fn pieces()
    ensures { PiecesLaw }
{}
