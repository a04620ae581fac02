//! Laws of what stands around a number, for callers' proofs.
//!
//! The contract of each function is a law. There is nothing to compute.
ghost use Rattle.num_format_affixes.specs.Laws.{NegativeOnceLaw, OwnTextLaw, SplitOnceLaw};

/// A text is split in one way.
pub fn split_once()
    ensures affixes { SplitOnceLaw }
    ensures negative { NegativeOnceLaw }
{}

/// A text that has characters of numbers alone is split by no affix.
pub fn numbers_kept()
    ensures { OwnTextLaw }
{}
