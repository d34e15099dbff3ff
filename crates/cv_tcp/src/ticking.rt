//! Calls on a stream that a drain may end.
ghost use Rattle.std.specs.Prelude.{◌≡◌, ◌≢◌, true, false, IfErr, IsErrAnd};
ghost use Rattle.std.specs.Io.{ReadsAtMost};
ghost use Rattle.std.specs.Io.KnownBytes.{ReadConsumes};
ghost use Rattle.std.specs.IoError.{error_kind};
ghost use Rattle.cv_tcp.specs.Ticks.{ReadsOn};

use crate::draining::Draining;
use crate::retrying::{TimeFrom, late};
use std::io::{self, ErrorKind, Read, Write};
use std::time::{Clock, Duration};

/// How many seconds a call on a stream waits before it checks whether a drain has begun. Limits are counted in ticks.
const TICK: u64 = 1;

/// Who ended a stream.
#[derive(Clone, Copy, Debug, PartialEq, Eq)]
pub(crate) enum EndedBy {
    /// Its client, or a fault.
    Client,
    /// A drain, when its client was silent for a tick.
    Drain,
    /// The end of a drain's time.
    Deadline,
}

/// How long the calls on a stream wait, and what ends them.
#[derive(Clone, Copy)]
pub(crate) struct Patience<'a> {
    /// How many seconds a call waits, if there is a limit.
    pub(crate) limit: Option<u32>,
    /// The drain that may end a call, if one is possible.
    pub(crate) draining: Option<&'a Draining>,
}

impl Patience<'_> {
    /// How long one system call waits: a tick if a drain is possible, else the whole limit.
    pub(crate) fn longest_call(&self) -> Option<Duration> {
        match self.draining {
            Some(_) => Some(Duration::from_secs(TICK)),
            None => self
                .limit
                .map(|seconds| Duration::from_secs(u64::from(seconds))),
        }
    }

    /// Says from when on the time of one system call counts. A tick is too short for two readings of the clock for each
    /// request.
    pub(crate) fn time_from(&self) -> TimeFrom {
        match self.draining {
            Some(_) => TimeFrom::Interruption,
            None => TimeFrom::Call,
        }
    }

    /// Whether a call that has waited `ticks` ticks gives up. If no drain is possible, the one system call waited for
    /// the whole limit.
    fn is_over(&self, ticks: u64) -> bool {
        match (self.draining, self.limit) {
            (Some(_), Some(limit)) => ticks >= u64::from(limit),
            (Some(_), None) => false,
            (None, _) => true,
        }
    }

    /// Whether a drain has begun.
    fn is_draining(&self) -> bool {
        match self.draining {
            Some(draining) => draining.started().is_some(),
            None => false,
        }
    }

    /// Whether a drain's time is over.
    fn is_cut<R: Clock>(&self, rt: &R) -> bool {
        match self.draining {
            Some(draining) => draining.is_over(rt),
            None => false,
        }
    }
}

/// A reader or a writer of a stream that a drain may end. If a drain is possible, each call of `inner` gives up after a
/// tick. It remembers how many bytes passed, and how its calls ended.
#[derive(Drop)]
pub(crate) struct Ticking<'a, R, T> {
    rt: &'a R,
    inner: T,
    patience: Patience<'a>,
    ended_by: EndedBy,
    bytes: u64,
    is_late: bool,
}

impl<'a, R, T> Ticking<'a, R, T> {
    /// No call was made yet.
    pub(crate) fn new(rt: &'a R, inner: T, patience: Patience<'a>) -> Self
        ensures inner { result.inner ≡ inner }
        ensures bytes { result.bytes ≡ 0 }
        ensures late { result.is_late ≡ false }
    {
        Ticking {
            rt,
            inner,
            patience,
            ended_by: EndedBy::Client,
            bytes: 0,
            is_late: false,
        }
    }

    /// Who ended it.
    pub(crate) fn ended_by(&self) -> EndedBy
        ensures { result ≡ self.now.ended_by }
    {
        self.ended_by
    }

    /// How many bytes passed.
    pub(crate) fn bytes(&self) -> u64
        ensures { result ≡ self.now.bytes }
    {
        self.bytes
    }

    /// Whether the last call of `inner` timed out.
    pub(crate) fn is_late(&self) -> bool
        ensures { result ≡ self.now.is_late }
    {
        self.is_late
    }

    /// Notes how a call of `inner` ended. A socket with a time limit that timed out gives the error of a non-blocking
    /// one.
    fn note(&mut self, done: &io::Result<usize>)
        ensures inner { self.new.inner ≡ self.old.inner }
        ensures by { self.new.ended_by ≡ self.old.ended_by }
        ensures late { self.new.is_late ≡ true → IsErrAnd done.now (λ e. error_kind e ≡ ErrorKind.WouldBlock) }
        ensures in_time { self.new.is_late ≡ false → IfErr done.now (λ e. error_kind e ≢ ErrorKind.WouldBlock) }
    {
        self.is_late = match done {
            Ok(n) => {
                self.bytes = self.bytes.saturating_add(*n as u64);
                false
            }
            Err(e) => e.kind() == ErrorKind::WouldBlock,
        };
    }
}

impl<R: Clock, T: Read> Read for Ticking<'_, R, T> {
    /// Reads, tick by tick. A drain ends a stream that is silent for a tick. The end of the drain's time ends every
    /// stream.
    fn read(&mut self, buf: &mut [u8]) -> io::Result<usize>
        ensures bound { ReadsAtMost result buf.new }
        // std is told of no byte that is left, since the end that a drain makes is not the end of the bytes.
        ensures bytes { ReadConsumes None None result buf.new }
        ensures ticks { ReadsOn (T.remaining self.old.inner) (T.remaining self.new.inner)
            result buf.new self.new.ended_by }
    {
        for ticks in 1..u64::MAX {
            if self.patience.is_cut(self.rt) {
                self.ended_by = EndedBy::Deadline;
                return Ok(0);
            }
            let came = self.inner.read(buf);
            self.note(&came);
            if !self.is_late {
                return came;
            }
            if self.patience.is_draining() {
                self.ended_by = EndedBy::Drain;
                return Ok(0);
            }
            if self.patience.is_over(ticks) {
                return came;
            }
        }
        Err(late())
    }
}

impl<R: Clock, T: Write> Write for Ticking<'_, R, T> {
    ghost contents = { λ w. T.contents w.inner };

    /// Writes, tick by tick, until a drain's time is over.
    fn write(&mut self, bytes: &[u8]) -> io::Result<usize> {
        for ticks in 1..u64::MAX {
            if self.patience.is_cut(self.rt) {
                self.ended_by = EndedBy::Deadline;
                return Err(late());
            }
            let taken = self.inner.write(bytes);
            self.note(&taken);
            if !self.is_late || self.patience.is_over(ticks) {
                return taken;
            }
        }
        Err(late())
    }

    fn flush(&mut self) -> io::Result<()> {
        self.inner.flush()
    }
}
