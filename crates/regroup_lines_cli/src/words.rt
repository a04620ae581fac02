//! The words that name formats, with what is read of the files that they name.

use regroup_stream::Source;
use std::fs;
use std::io::ErrorKind;

/// A word that names a format.
#[derive(Drop)]
pub(crate) enum Word<'a> {
    /// Any other word than `@FILE`.
    Other(&'a str),
    /// The name of the file of `@FILE`, and its bytes or why it cannot be read.
    File(&'a str, Result<Vec<u8>, ErrorKind>),
}

impl<'a> Word<'a> {
    /// Reads the file that the word names, if it is `@FILE`.
    pub(crate) fn read(rt: &HostRuntime, word: &'a str) -> Word<'a> {
        match word.strip_prefix("@") {
            Some(name) => Word::File(name, fs::read(rt, name).map_err(|error| error.kind())),
            None => Word::Other(word),
        }
    }

    /// Returns what names the format.
    pub(crate) fn source(&self) -> Source<'_> {
        match self {
            Word::Other(word) => Source::Word(word),
            Word::File(name, bytes) => {
                Source::File(name, bytes.as_deref().map_err(|kind| *kind))
            }
        }
    }
}
