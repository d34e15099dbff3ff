//! Counting what passes over a stream.
ghost use Rattle.std.specs.Prelude.{◌≡◌};

use cv_commands::Tally;
use std::io::{self, Read, Write};

/// What counts the bytes of a stream, and takes note of what its callers hold. The reader and the writer of the stream
/// share it.
pub(crate) trait Counts: Tally {
    /// These bytes came.
    fn came(&self, bytes: &[u8]);

    /// These bytes went, and whether they were all that were to be written.
    fn went(&self, bytes: &[u8], is_all: bool);

    /// How many replies were written whole.
    fn replies(&self) -> u64;
}

/// A reader or a writer, whose bytes are counted.
#[derive(Drop)]
pub(crate) struct Metered<'a, C, T> {
    counts: &'a C,
    inner: T,
}

impl<'a, C, T> Metered<'a, C, T> {
    /// Counts what passes from now on.
    pub(crate) fn new(counts: &'a C, inner: T) -> Metered<'a, C, T>
        ensures { result.inner ≡ inner }
    {
        Metered { counts, inner }
    }
}

impl<'a, C: Counts, T: Read> Read for Metered<'a, C, T> {
    ghost remaining = { λ m. T.remaining m.inner };

    fn read(&mut self, buf: &mut [u8]) -> io::Result<usize> {
        let came = self.inner.read(buf);
        if let Ok(n) = &came {
            self.counts.came(&buf[..*n]);
        }
        came
    }
}

impl<'a, C: Counts, T: Write> Write for Metered<'a, C, T> {
    ghost contents = { λ m. T.contents m.inner };

    fn write(&mut self, bytes: &[u8]) -> io::Result<usize> {
        let taken = self.inner.write(bytes);
        if let Ok(n) = &taken {
            self.counts.went(&bytes[..*n], *n == bytes.len());
        }
        taken
    }

    fn flush(&mut self) -> io::Result<()> {
        self.inner.flush()
    }
}
