//! Calls that are made again after a signal interrupted them.
ghost use Rattle.std.specs.Prelude.{◌≡◌, ◌≢◌, false, IfErr};
ghost use Rattle.std.specs.Io.{ReadsAtMost, WritesAtMost};
ghost use Rattle.std.specs.Io.KnownBytes.{ReadConsumes, WriteAppends};
ghost use Rattle.std.specs.IoError.{error_kind};

use std::io::{self, ErrorKind, Read, Write};
use std::time::{Clock, Duration, Instant};

/// What may wait at a read or a write.
pub(crate) trait Waits {
    /// Has each later call wait for at most so long. `None`: for ever. If the system refuses this, they wait as before.
    fn limit_waits(&self, limit: Option<Duration>);
}

/// When a call began, and for how long it may wait in all.
#[derive(Clone, Copy, Debug)]
pub(crate) struct Deadline {
    start: Instant,
    limit: Duration,
}

impl Deadline {
    /// The deadline of what begins now, if the clock can be read.
    pub(crate) fn new<R: Clock>(rt: &R, limit: Duration) -> Option<Deadline> {
        let start = Instant::now(rt).ok()?;
        Some(Deadline { start, limit })
    }

    /// How much of its time is left. `None`: none.
    pub(crate) fn left<R: Clock>(&self, rt: &R) -> Option<Duration> {
        let waited = self.start.elapsed(rt).ok()?;
        if waited < self.limit {
            Some(self.limit.saturating_sub(waited))
        } else {
            None
        }
    }
}

/// From when on the time of a call counts.
#[derive(Clone, Copy, Debug)]
pub(crate) enum TimeFrom {
    /// From when it is made: the clock is read before each call.
    Call,
    /// From when it is interrupted first: the clock is read for interrupted calls alone, and these wait for up to twice
    /// the limit.
    Interruption,
}

/// A reader or a writer whose interrupted calls are made again, with what is left of their time.
///
/// A call on a socket with a time limit is interrupted when its process is stopped and continued, or when a debugger
/// attaches (signal(7)).
#[derive(Drop)]
pub(crate) struct Retrying<'a, R, T> {
    rt: &'a R,
    inner: T,
    limit: Option<Duration>,
    from: TimeFrom,
    /// Whether calls wait for less than the limit now.
    is_shortened: bool,
}

impl<'a, R, T> Retrying<'a, R, T> {
    /// Each call on it waits for at most so long, which was set.
    pub(crate) fn new(rt: &'a R, inner: T, limit: Option<Duration>, from: TimeFrom) -> Self
        ensures { result.inner ≡ inner }
    {
        Retrying {
            rt,
            inner,
            limit,
            from,
            is_shortened: false,
        }
    }
}

/// Whether a signal ended a call.
pub(crate) fn is_interrupted(failure: &io::Error) -> bool
    ensures { result ≡ false → error_kind failure.now ≢ ErrorKind.Interrupted }
{
    failure.kind() == ErrorKind::Interrupted
}

/// What is said of a call whose time is over, as a socket with a limit says it.
pub(crate) fn late() -> io::Error
    ensures { error_kind result ≡ ErrorKind.WouldBlock }
{
    io::Error::from(ErrorKind::WouldBlock)
}

impl<R: Clock, T: Waits> Retrying<'_, R, T> {
    /// The deadline of a call that is made now, if its time counts from now on.
    fn deadline(&self) -> Option<Deadline> {
        match (self.from, self.limit) {
            (TimeFrom::Call, Some(limit)) => Deadline::new(self.rt, limit),
            _ => None,
        }
    }

    /// Whether an interrupted call is made again: not once its time is over. It waits for what is left of that.
    fn goes_on(&mut self, deadline: &mut Option<Deadline>) -> bool
        ensures { self.new.inner ≡ self.old.inner }
    {
        let Some(running) = deadline else {
            *deadline = match self.limit {
                Some(limit) => Deadline::new(self.rt, limit),
                None => None,
            };
            return true;
        };
        let Some(left) = running.left(self.rt) else {
            return false;
        };
        self.inner.limit_waits(Some(left));
        self.is_shortened = true;
        true
    }

    /// Has later calls wait for the whole limit again, where one was made again.
    fn restore(&mut self)
        ensures { self.new.inner ≡ self.old.inner }
    {
        if self.is_shortened {
            self.inner.limit_waits(self.limit);
            self.is_shortened = false;
        }
    }
}

impl<R: Clock, T: Read + Waits> Retrying<'_, R, T> {
    /// Makes a read again that a signal interrupted, as often as std makes one again.
    #[inline(never)]
    fn read_again(&mut self, buf: &mut [u8], mut deadline: Option<Deadline>) -> io::Result<usize>
        ensures bound { ReadsAtMost result buf.new }
        ensures bytes { ReadConsumes (T.remaining self.old.inner) (T.remaining self.new.inner) result buf.new }
        ensures retried { IfErr result (λ e. error_kind e ≢ ErrorKind.Interrupted) }
    {
        for _turn in 1..u64::MAX {
            if !self.goes_on(&mut deadline) {
                break;
            }
            match self.inner.read(buf) {
                Err(failure) if is_interrupted(&failure) => {}
                done => return done,
            }
        }
        Err(late())
    }
}

impl<R: Clock, T: Write + Waits> Retrying<'_, R, T> {
    /// Makes a write again that a signal interrupted, as often as std makes one again.
    #[inline(never)]
    fn write_again(&mut self, bytes: &[u8], mut deadline: Option<Deadline>) -> io::Result<usize>
        ensures bound { WritesAtMost result bytes.now }
        ensures bytes { WriteAppends (T.contents self.old.inner) (T.contents self.new.inner) result bytes.now }
        ensures retried { IfErr result (λ e. error_kind e ≢ ErrorKind.Interrupted) }
    {
        for _turn in 1..u64::MAX {
            if !self.goes_on(&mut deadline) {
                break;
            }
            match self.inner.write(bytes) {
                Err(failure) if is_interrupted(&failure) => {}
                done => return done,
            }
        }
        Err(late())
    }
}

impl<R: Clock, T: Read + Waits> Read for Retrying<'_, R, T> {
    ghost remaining = { λ r. T.remaining r.inner };

    fn read(&mut self, buf: &mut [u8]) -> io::Result<usize>
        ensures bound { ReadsAtMost result buf.new }
        ensures bytes { ReadConsumes (T.remaining self.old.inner) (T.remaining self.new.inner) result buf.new }
        ensures retried { IfErr result (λ e. error_kind e ≢ ErrorKind.Interrupted) }
    {
        let deadline = self.deadline();
        match self.inner.read(buf) {
            Err(failure) if is_interrupted(&failure) => {
                let came = self.read_again(buf, deadline);
                self.restore();
                came
            }
            done => done,
        }
    }
}

impl<R: Clock, T: Write + Waits> Write for Retrying<'_, R, T> {
    ghost contents = { λ w. T.contents w.inner };

    fn write(&mut self, bytes: &[u8]) -> io::Result<usize>
        ensures bound { WritesAtMost result bytes.now }
        ensures bytes { WriteAppends (T.contents self.old.inner) (T.contents self.new.inner) result bytes.now }
        ensures retried { IfErr result (λ e. error_kind e ≢ ErrorKind.Interrupted) }
    {
        let deadline = self.deadline();
        match self.inner.write(bytes) {
            Err(failure) if is_interrupted(&failure) => {
                let taken = self.write_again(bytes, deadline);
                self.restore();
                taken
            }
            done => done,
        }
    }

    fn flush(&mut self) -> io::Result<()> {
        self.inner.flush()
    }
}
