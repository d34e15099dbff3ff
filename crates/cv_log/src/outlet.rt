//! The outlet of a log's lines.
ghost use Rattle.std.specs.Prelude.{◌≡◌};

use crate::cut::cut;
use libc::net::{POLLOUT, poll};
use libc::types::pollfd;
use std::fmt::Display;

/// How many bytes of a line are written. A cut line with its `…` and its newline has 4,096 bytes. A pipe takes that
/// many at once when `poll` says that it can be written to (pipe(7), `PIPE_BUF`).
pub(crate) const LONGEST: usize = 4_092;

/// Takes lines, one after the other. Only one thread at a time writes.
pub trait Outlet {
    /// Writes a line, unless it would have to wait, and returns whether it was written.
    fn put<D: Display + Drop>(&self, line: D) -> bool;
}

/// Standard error. A line of more than 4,092 bytes is cut and ends in `…`.
#[derive(Drop)]
pub struct StandardError<'a, R> {
    rt: &'a R,
}

impl<'a, R> StandardError<'a, R> {
    /// Returns the standard error of this runtime.
    pub fn new(rt: &'a R) -> StandardError<'a, R>
        ensures { result.rt ≡ rt.entry }
    {
        StandardError { rt }
    }
}

/// Whether standard error takes a line now. A regular file always does. A closed descriptor, or a pipe without a
/// reader, fails at once.
fn is_ready() -> bool {
    let mut asked = [pollfd {
        fd: libc::STDERR_FILENO,
        events: POLLOUT,
        revents: 0,
    }];
    poll(&mut asked, 0) > 0
}

impl<O: Outlet> Outlet for &O {
    fn put<D: Display + Drop>(&self, line: D) -> bool {
        (**self).put(line)
    }
}

impl<'a, R: Eprint> Outlet for StandardError<'a, R> {
    fn put<D: Display + Drop>(&self, line: D) -> bool {
        is_ready() && eprintln!(self.rt; "{}", cut(line, LONGEST)).is_ok()
    }
}
