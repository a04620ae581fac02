//! Laws of faults and of inputs that are split, for callers' proofs.
//!
//! The contract of each function is a law. There is nothing to compute, so the bodies are empty.
ghost use Rattle.num_format.specs.Equality.{EqualityLaw};
ghost use Rattle.regroup_faults.specs.Fault.{fault_of};
ghost use Rattle.regroup_lines.specs.Laws.{SplitLaw};

use regroup_faults::RegroupFault;

/// Two faults are equal by `==` exactly if they are the same fault, of the same line and with an equal
/// error, and so are a fault and its clone, which needs no memory.
pub fn faults()
    ensures { EqualityLaw fault_of ⟦<RegroupFault as PartialEq>⟧.eq ⟦<RegroupFault as Clone>⟧.is_clone
        ⟦<RegroupFault as Clone>⟧.is_infallible }
{}

/// An input that is read to its end may be split after a byte that ends a line, with CSV outside quotes, and not before
/// a byte order mark, if it has no header and no line is at fault, or each such line is passed on: its output is that
/// of the first part and then that of the second, and so are its rejected lines. Its lines are as many as theirs
/// together, and messages name faults of it exactly if they name some of a part.
pub fn split()
    ensures { SplitLaw }
{}
