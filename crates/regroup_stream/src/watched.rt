//! A reader that keeps why it failed.
ghost use Rattle.std.specs.Prelude.{◌≡◌};

use std::io;
use std::io::{ErrorKind, Read};

/// A reader, and the kind of the error of its last read that failed.
#[derive(Drop)]
pub(crate) struct Watched<R> {
    reader: R,
    failure: Option<ErrorKind>,
}

impl<R: Read + Drop> Watched<R> {
    /// Returns a reader that did not fail.
    pub(crate) fn new(reader: R) -> Watched<R>
        ensures { R.remaining result.reader ≡ R.remaining reader }
    {
        Watched {
            reader,
            failure: None,
        }
    }

    /// Returns the kind of the error of the last read that failed, or `None` if none did.
    pub(crate) fn failure(&self) -> Option<ErrorKind>
        ensures { result ≡ self.now.failure }
    {
        self.failure
    }
}

impl<R: Read + Drop> Read for Watched<R> {
    ghost remaining = { λ watched. R.remaining watched.reader };

    fn read(&mut self, buf: &mut [u8]) -> io::Result<usize> {
        let result = self.reader.read(buf);
        if let Err(error) = &result {
            self.failure = Some(error.kind());
        }
        result
    }
}
