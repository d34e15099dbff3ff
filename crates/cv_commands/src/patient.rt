//! Reads and writes file descriptors that may be non-blocking.

use libc::net::{POLLIN, POLLOUT, poll};
use libc::types::pollfd;
use std::io::{self, ErrorKind, Read, Write};

/// The file descriptor of the standard input.
const INPUT: i32 = 0;

/// The file descriptor of the standard output.
const OUTPUT: i32 = 1;

/// A reader or a writer of a file descriptor. If a call fails since a non-blocking descriptor would block, it waits
/// until the descriptor is ready, and makes the call again. It also makes a call again that a signal interrupted.
/// Stopping and continuing the process interrupts the calls of a socket with a timeout (signal(7)).
#[derive(Drop)]
pub(crate) struct Patient<T> {
    inner: T,
    descriptor: i32,
    events: i16,
}

impl<T> Patient<T> {
    /// Wraps a reader of the standard input.
    pub(crate) fn input(inner: T) -> Patient<T> {
        Patient {
            inner,
            descriptor: INPUT,
            events: POLLIN,
        }
    }

    /// Wraps a writer to the standard output.
    pub(crate) fn output(inner: T) -> Patient<T> {
        Patient {
            inner,
            descriptor: OUTPUT,
            events: POLLOUT,
        }
    }

    /// Waits until the descriptor is ready. Returns false if waiting failed.
    fn becomes_ready(&self) -> bool {
        let mut asked = [pollfd {
            fd: self.descriptor,
            events: self.events,
            revents: 0,
        }];
        poll(&mut asked, -1) > 0
    }

    /// Returns whether a call with this result is to be made again: a signal interrupted it, or it would have blocked.
    /// In the second case it waits first until the descriptor is ready.
    fn is_made_again(&self, done: &io::Result<usize>) -> bool {
        match done {
            Ok(_) => false,
            Err(failure) => match failure.kind() {
                ErrorKind::Interrupted => true,
                ErrorKind::WouldBlock => self.becomes_ready(),
                _ => false,
            },
        }
    }
}

impl<T: Read> Read for Patient<T> {
    fn read(&mut self, buf: &mut [u8]) -> io::Result<usize> {
        for _try in 0..u64::MAX {
            let done = self.inner.read(buf);
            if !self.is_made_again(&done) {
                return done;
            }
        }
        Err(io::Error::from(ErrorKind::WouldBlock))
    }
}

impl<T: Write> Write for Patient<T> {
    fn write(&mut self, bytes: &[u8]) -> io::Result<usize> {
        for _try in 0..u64::MAX {
            let done = self.inner.write(bytes);
            if !self.is_made_again(&done) {
                return done;
            }
        }
        Err(io::Error::from(ErrorKind::WouldBlock))
    }

    fn flush(&mut self) -> io::Result<()> {
        self.inner.flush()
    }
}
