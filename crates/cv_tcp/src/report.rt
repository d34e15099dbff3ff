//! What the log says of a stream.
use crate::connection::Connection;
use crate::fault::StreamFault;
use cv_commands::{UNLIMITED, Usage};
use cv_metrics::Peer;
use log::{Level, Log, debug, info, log};
use std::fmt::{self, Display, Formatter};
use std::time::{Clock, Instant};

/// How a stream ended.
#[derive(Clone, Copy, Debug, PartialEq, Eq)]
pub(crate) struct Ended {
    /// Why it ended, unless its client ended it.
    pub(crate) fault: Option<StreamFault>,
    /// How many requests had their whole reply written.
    pub(crate) requests: u64,
    /// How many bytes were read.
    pub(crate) read: u64,
    /// How many bytes were written.
    pub(crate) written: u64,
}

/// The level at which the end of a stream by this fault is logged: info for an idle or a drained client, which is
/// usual, else error.
fn level_of(fault: StreamFault) -> Level {
    match fault {
        StreamFault::Idle | StreamFault::Drained => Level::Info,
        StreamFault::Stalled | StreamFault::Cut | StreamFault::Run(_) => Level::Error,
    }
}

/// Shows how many requests there were.
#[derive(Clone, Copy, Debug)]
struct Requests(u64);

impl Display for Requests {
    fn fmt<W: fmt::Write>(&self, f: &mut Formatter<W>) -> fmt::Result {
        let Requests(count) = *self;
        let word = if count == 1 { "request" } else { "requests" };
        write!(f, "{count} {word}")
    }
}

/// Shows how much is held, and how much may be held if there is a limit.
#[derive(Clone, Copy, Debug)]
struct Held {
    amount: u64,
    most: Option<u64>,
}

impl Display for Held {
    fn fmt<W: fmt::Write>(&self, f: &mut Formatter<W>) -> fmt::Result {
        match self.most {
            Some(most) => write!(f, "{} of {most}", self.amount),
            None => write!(f, "{}", self.amount),
        }
    }
}

/// The limit, unless it is the one that stands for no limit.
fn limit_of(most: u64, none: u64) -> Option<u64> {
    if most < none { Some(most) } else { None }
}

/// Logs that an allocation failed for a client, and what its callers hold: near a limit of the stream, it is this limit
/// that refused. It logs nothing of what the client sent.
#[inline(never)]
pub(crate) fn report_lack<G: Log>(log: &G, peer: Peer, usage: Usage) {
    let bytes = Held {
        amount: usage.bytes,
        most: limit_of(usage.budget.bytes, UNLIMITED.bytes),
    };
    let callers = Held {
        amount: u64::from(usage.callers),
        most: limit_of(
            u64::from(usage.budget.callers),
            u64::from(UNLIMITED.callers),
        ),
    };
    info!(log; peer:% = peer; "memory refused to {peer}; bytes held: {bytes}, callers: {callers}");
}

/// A stream that is being served, as the log sees it. It holds nothing of what its client sends.
#[derive(Drop)]
pub(crate) struct Report {
    peer: Peer,
    start: Option<Instant>,
}

impl Report {
    /// Notes when a stream begins, and logs it.
    pub(crate) fn begin<R: Clock, G: Log>(rt: &R, log: &G, stream: &Connection) -> Report {
        let report = Report {
            peer: stream.peer(),
            start: Instant::now(rt).ok(),
        };
        debug!(log; peer:% = report.peer; "client connected");
        report
    }

    /// How many seconds ago the stream began, if the clock can be read.
    fn seconds<R: Clock>(&self, rt: &R) -> Option<f64> {
        let lasted = self.start?.elapsed(rt).ok()?;
        Some(lasted.as_secs_f64())
    }

    /// Logs the end of the stream as one record, at the level of its fault; without a fault at level info.
    pub(crate) fn end<R: Clock, G: Log>(&self, rt: &R, log: &G, ended: Ended) {
        let seconds = self.seconds(rt);
        let Ended {
            fault,
            requests,
            read,
            written,
        } = ended;
        let peer = self.peer;
        match fault {
            None => info!(log; peer:% = peer, requests, read, written, seconds; "client ended"),
            Some(fault) => {
                log!(log; level_of(fault), peer:% = peer, requests, read, written, seconds;
                    "stream from {peer}: {fault}, after {}", Requests(requests));
            }
        }
    }
}
