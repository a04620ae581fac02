//! Writers and readers that fail: what holds after an error.
//!
//! Any file may be changed. A script of steps says what fails, and when.
//!
//! [`Scripted`] is a writer that does what a list of steps says. Its contract states the bytes that it
//! received, the space that is left, and which step each call takes, so which writes fail or write
//! nothing. [`ScriptedReader`] is such a reader: its contract states the bytes that are left, and how
//! many each call gives.
//!
//! std's contract of `write` does not say when a write fails. So no contract of code that is generic
//! over a writer can say that it fails only after such a write, and these tests show it:
//!
//! | Module | What is tested |
//! |---|---|
//! | `bytes` | numbers into writers of bytes that make short writes, fail, or write nothing |
//! | `text` | numbers into writers of text that fail |
//! | `inputs` | blanks without end, a limit of lines, and what a fault displays |
//! | `kinds` | each kind of line from a reader that gives parts of it: how often the output is flushed and written to |
//! | `lines` | lines from readers that give them in pieces, are interrupted or fail |
//! | `rejects` | lines at fault that go to a writer of their own, where it or another one fails |
//! | `outputs` | lines from readers to writers that both do what a list says |
//! | `stream` | the program `regroup-lines` where its input, an output or a flush fails |
//! | `program` | commands of `regroup` whose outputs fail at each of their writes |
#![tactic(auto)]

#[cfg(test)]
mod bytes;
#[cfg(test)]
mod inputs;
#[cfg(test)]
mod kinds;
#[cfg(test)]
mod lines;
#[cfg(test)]
mod outputs;
#[cfg(test)]
mod program;
#[cfg(test)]
mod rejects;
#[cfg(test)]
mod rules;
mod scripted;
mod scripted_reader;
#[cfg(test)]
mod stream;
#[cfg(test)]
mod text;

pub use scripted::{Scripted, Step};
pub use scripted_reader::{ReadStep, ScriptedReader};
