//! The output, which stays closed once it was.

use std::io;
use std::io::{ErrorKind, Write};

/// A writer of which no call succeeds after one that failed, so that a last flush has the cause of the failed write.
#[derive(Drop)]
pub(crate) struct Output<W> {
    writer: W,
    failure: Option<ErrorKind>,
}

impl<W: Write + Drop> Output<W> {
    /// Returns one of which no call failed.
    pub(crate) fn new(writer: W) -> Output<W> {
        Output {
            writer,
            failure: None,
        }
    }
}

impl<W: Write + Drop> Write for Output<W> {
    ghost contents = { λ output. W.contents output.writer };

    fn write(&mut self, buf: &[u8]) -> io::Result<usize> {
        if let Some(kind) = self.failure {
            return Err(io::Error::from(kind));
        }
        let result = self.writer.write(buf);
        if let Err(error) = &result {
            self.failure = Some(error.kind());
        }
        result
    }

    fn flush(&mut self) -> io::Result<()> {
        match self.failure {
            Some(kind) => Err(io::Error::from(kind)),
            None => self.writer.flush(),
        }
    }
}
