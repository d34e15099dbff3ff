//! Why a stream or a call ended.
ghost use Rattle.std.specs.Prelude.{◌≡◌};
ghost use Rattle.cv_tcp.specs.Ends.{end_of, stream_end, call_end_of, call_status_of};

use crate::ticking::EndedBy;
use cv_commands::{RunFault, status};
use cv_loop::ServeFault;
use thiserror::Error;

/// Why a stream ended before its client ended it. Its text is the log's message.
#[derive(Clone, Copy, Debug, PartialEq, Eq, Error)]
pub(crate) enum StreamFault {
    /// Nothing came for too long.
    #[error("idle client")]
    Idle,
    /// No reply was taken for too long.
    #[error("stalled client")]
    Stalled,
    /// A drain ended it, and everything that was sent has its reply.
    #[error("drained")]
    Drained,
    /// A drain ended it within a frame, or when the drain's time was over.
    #[error("cut by a drain")]
    Cut,
    /// Serving ended by this fault.
    #[error("{0}")]
    Run(RunFault),
}

/// Why a stream ended, if serving it ended by this fault. `late_read` and `late_write` say whether its last read and
/// its last write timed out.
pub(crate) fn end_of(fault: RunFault, late_read: bool, late_write: bool) -> StreamFault
    ensures { result ≡ end_of fault late_read late_write }
{
    match fault {
        RunFault::Serve(ServeFault::Read) if late_read => StreamFault::Idle,
        RunFault::Serve(ServeFault::Write { .. }) if late_write => StreamFault::Stalled,
        fault => StreamFault::Run(fault),
    }
}

/// Why a stream ended, if its client did not end it: from the fault of serving it, and who ended it.
pub(crate) fn stream_end(fault: Option<StreamFault>, by: EndedBy) -> Option<StreamFault>
    ensures { result ≡ stream_end fault by }
{
    match (by, fault) {
        (EndedBy::Client, fault) => fault,
        (EndedBy::Deadline, _) => Some(StreamFault::Cut),
        (EndedBy::Drain, None) => Some(StreamFault::Drained),
        (EndedBy::Drain, Some(StreamFault::Run(RunFault::Serve(ServeFault::TruncatedFrame)))) => {
            Some(StreamFault::Cut)
        }
        (EndedBy::Drain, fault) => fault,
    }
}

/// Why a call ended before each request had its reply. Its text is the program's message.
#[derive(Clone, Copy, Debug, PartialEq, Eq, Error)]
pub enum CallFault {
    /// The server gave no reply in time.
    #[error("no reply")]
    NoReply,
    /// Asking ended by this fault.
    #[error("{0}")]
    Run(RunFault),
}

/// Why a call ended, if asking ended by this fault. `late_read` and `late_write` say whether its last read and its last
/// write timed out.
pub(crate) fn call_end_of(fault: RunFault, late_read: bool, late_write: bool) -> CallFault
    ensures { result ≡ call_end_of fault late_read late_write }
{
    match fault {
        RunFault::Serve(ServeFault::Read) if late_read => CallFault::NoReply,
        RunFault::Serve(ServeFault::Write { .. }) if late_write => CallFault::NoReply,
        fault => CallFault::Run(fault),
    }
}

/// Returns the exit status of a call that ended by this fault.
pub fn call_status(fault: &CallFault) -> u8
    ensures { result ≡ call_status_of fault.now }
{
    match fault {
        CallFault::NoReply => 1,
        CallFault::Run(fault) => status(fault),
    }
}
