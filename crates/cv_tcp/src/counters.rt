//! The server's board, its clock, and how a stream's end is counted.
ghost use Rattle.std.specs.Prelude.{◌≡◌};
ghost use Rattle.cv_tcp.specs.Counting.{cause_of, fault_kind_of};

use crate::fault::StreamFault;
use cv_commands::RunFault;
use cv_loop::ServeFault;
use cv_metrics::{Board, EndCause, FaultKind, Peer, StreamSlot};
use jiff::Timestamp;
use std::alloc::{AllocError, Global};
use std::sync::Wait;
use std::time::Clock;

/// Why a stream ended.
fn cause_of(fault: Option<StreamFault>) -> EndCause
    ensures { result ≡ cause_of fault }
{
    match fault {
        None => EndCause::Client,
        Some(StreamFault::Idle) => EndCause::Idle,
        Some(StreamFault::Stalled) => EndCause::Stalled,
        Some(StreamFault::Drained) => EndCause::Drained,
        Some(StreamFault::Cut) => EndCause::Cut,
        Some(StreamFault::Run(_)) => EndCause::Fault,
    }
}

/// The kind of the fault that ended a run.
fn fault_kind_of(fault: RunFault) -> FaultKind
    ensures { result ≡ fault_kind_of fault }
{
    match fault {
        RunFault::Serve(ServeFault::BadLength { .. }) => FaultKind::BadLength,
        RunFault::Serve(ServeFault::TruncatedFrame) => FaultKind::TruncatedFrame,
        RunFault::Serve(ServeFault::Read) => FaultKind::Read,
        RunFault::Serve(ServeFault::Write { .. }) => FaultKind::Write,
        RunFault::Serve(ServeFault::Memory) | RunFault::Memory => FaultKind::Memory,
        RunFault::AcceptFailed => FaultKind::Accept,
        _ => FaultKind::Other,
    }
}

/// How many nanoseconds a second has.
const SECOND: u64 = 1_000_000_000;

/// What the monotonic clock says, in nanoseconds, if it can be read.
fn read_clock<R: Clock>(rt: &R) -> Option<u64> {
    let time = rt.monotonic().ok()?;
    let nanos = time.as_secs().saturating_mul(SECOND);
    Some(nanos.saturating_add(u64::from(time.subsec_nanos())))
}

/// The server's board, and when the server began: times are measured from there.
#[derive(Drop)]
pub(crate) struct Counters {
    board: Board,
    /// What the clock said when it began, in nanoseconds, if it could be read.
    start: Option<u64>,
    /// When it began, in seconds since 1970, or 0 if the clock cannot be read.
    start_time: u64,
    version: String,
}

impl Counters {
    /// Counters at 0, for a server of this version that begins now and serves with `threads` threads.
    pub(crate) fn new<R: Clock>(
        rt: &R,
        alloc: Global,
        threads: u32,
        version: &str,
    ) -> Result<Counters, AllocError> {
        let start = Timestamp::now(rt).map_or(0, |time| time.as_second());
        Ok(Counters {
            board: Board::new(alloc, threads)?,
            start: read_clock(rt),
            start_time: u64::try_from(start).unwrap_or(0),
            version: String::from_str(alloc, version)?,
        })
    }

    /// When the server began, in seconds since 1970, or 0 if the clock could not be read.
    pub(crate) fn start_time(&self) -> u64 {
        self.start_time
    }

    /// The version of the program.
    pub(crate) fn version(&self) -> &str {
        self.version.as_str()
    }

    /// The board.
    pub(crate) fn board(&self) -> &Board {
        &self.board
    }

    /// How many nanoseconds the server has run, or 0 if the clock cannot be read.
    pub(crate) fn now<R: Clock>(&self, rt: &R) -> u64 {
        match (self.start, read_clock(rt)) {
            (Some(start), Some(now)) => now.saturating_sub(start),
            _ => 0,
        }
    }

    /// Notes that a stream begins at a slot.
    pub(crate) fn begin<R: Clock + Wait>(&self, rt: &R, slot: &StreamSlot, peer: Peer) {
        let now = self.now(rt);
        self.board.begin(rt, slot, peer, now);
    }

    /// Notes that the stream at a slot has ended, and counts why.
    pub(crate) fn end<R: Wait>(&self, rt: &R, slot: &StreamSlot, fault: Option<StreamFault>) {
        let cause = cause_of(fault);
        let kind = match fault {
            Some(StreamFault::Run(fault)) => Some(fault_kind_of(fault)),
            _ => None,
        };
        self.board.end(rt, slot, cause, kind);
    }

    /// Counts a failed accept.
    pub(crate) fn note_failed_accept(&self) {
        self.board.note_fault(FaultKind::Accept);
    }

    /// Counts a client that was closed because all places were taken.
    pub(crate) fn note_refused(&self) {
        self.board.note_refused();
    }
}
