//! Readers and writers that have a deadline.
ghost use Rattle.std.specs.Prelude.{◌≡◌};

use crate::retrying::{Deadline, Waits, late};
use std::io::{self, Read, Write};
use std::time::{Clock, Duration};

/// A reader or a writer that waits for its peer until a deadline, however many calls there are. After the deadline each
/// call fails like that of a socket with a time limit (`WouldBlock`).
#[derive(Drop)]
pub(crate) struct Timed<'a, R, T> {
    rt: &'a R,
    inner: T,
    deadline: Deadline,
}

impl<'a, R, T> Timed<'a, R, T> {
    pub(crate) fn new(rt: &'a R, inner: T, deadline: Deadline) -> Self
        ensures { result.inner ≡ inner }
    {
        Timed {
            rt,
            inner,
            deadline,
        }
    }
}

impl<R: Clock, T: Waits> Timed<'_, R, T> {
    /// Limits the next call to the time that is left, and returns whether any is left.
    fn is_in_time(&self) -> bool {
        match self.deadline.left(self.rt) {
            Some(left) => {
                self.inner.limit_waits(Some(left));
                true
            }
            None => false,
        }
    }
}

impl<R, T: Waits> Waits for Timed<'_, R, T> {
    fn limit_waits(&self, limit: Option<Duration>) {
        self.inner.limit_waits(limit);
    }
}

impl<R: Clock, T: Read + Waits> Read for Timed<'_, R, T> {
    ghost remaining = { λ r. T.remaining r.inner };

    fn read(&mut self, buf: &mut [u8]) -> io::Result<usize> {
        if !self.is_in_time() {
            return Err(late());
        }
        self.inner.read(buf)
    }
}

impl<R: Clock, T: Write + Waits> Write for Timed<'_, R, T> {
    ghost contents = { λ w. T.contents w.inner };

    fn write(&mut self, bytes: &[u8]) -> io::Result<usize> {
        if !self.is_in_time() {
            return Err(late());
        }
        self.inner.write(bytes)
    }

    fn flush(&mut self) -> io::Result<()> {
        self.inner.flush()
    }
}
