//! Laws of texts in a digit set, for callers' proofs.
//!
//! The contract of each function is a law. There is nothing to compute, so the bodies are empty.
ghost use Rattle.num_format_digits.specs.Laws.{OneSetLaw, ReadsBackLaw, ShownLaw, CanonicalLaw};

/// A text in a digit set has the digits of the set where the text has `0` to `9`, and otherwise the same characters.
pub fn shown_texts()
    ensures { ShownLaw }
{}

/// A text whose numerals are all `0` to `9`, as that of a number under a locale, is shown in a set as a text of that
/// set, which with `0` to `9` for its digits is the text again.
pub fn texts_read_back()
    ensures { ReadsBackLaw }
{}

/// A text that is accepted in a set is a text with `0` to `9`, shown in that set.
pub fn texts_of_one_set()
    ensures { OneSetLaw }
{}

/// A text is accepted in a set exactly if it is the text of the number, grouped or not, in the digits of the set. So
/// each number reads back from its text in each set, under any format that is not ambiguous.
pub fn canonical_texts()
    ensures { CanonicalLaw }
{}
