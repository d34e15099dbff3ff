//! Serving one stream.
ghost use Rattle.std.specs.Prelude.{◌≤◌};

use crate::connection::Connection;
use crate::counted::Counted;
use crate::counters::Counters;
use crate::fault::{end_of, stream_end};
use crate::metered::{Counts, Metered};
use crate::reply_count::ReplyCount;
use crate::report::Ended;
use crate::retrying::Retrying;
use crate::ticking::{EndedBy, Patience, Ticking};
use cv_cache::Cached;
use cv_commands::{Budget, StreamTerms, serve_stream_within};
use cv_loop::{FromReader, ToWriter};
use cv_metrics::StreamSlot;
use log::Log;
use std::alloc::Global;
use std::sync::Wait;
use std::thread::Threads;
use std::time::Clock;

/// The limits of one stream.
#[derive(Clone, Copy)]
pub(crate) struct StreamLimits<'a> {
    /// How many workers it has.
    pub(crate) workers: u32,
    /// What its callers may hold.
    pub(crate) budget: Budget,
    /// For how long its calls wait, and what ends them.
    pub(crate) patience: Patience<'a>,
}

/// Serves one stream by a new pool of workers, and says what it came to.
pub(crate) fn serve_connection<R: Threads + Wait + Clock + Sync, G: Log>(
    rt: &R,
    alloc: Global,
    cached: &Cached,
    stream: &Connection,
    limits: StreamLimits<'_>,
    log: &G,
) -> Ended
    requires { (1 ≤ limits.workers) × (limits.workers ≤ 16) }
{
    let counts = ReplyCount::new(log, stream.peer());
    serve_by(rt, alloc, cached, stream, limits, &counts)
}

/// Where a stream is counted, and where it is logged that an allocation failed for it.
#[derive(Drop)]
pub(crate) struct Counting<'a, G> {
    pub(crate) log: &'a G,
    pub(crate) counters: &'a Counters,
    pub(crate) slot: &'a StreamSlot,
}

/// `serve_connection`, of a stream that is counted and that its slot shows meanwhile.
pub(crate) fn serve_counted<R: Threads + Wait + Clock + Sync, G: Log>(
    rt: &R,
    alloc: Global,
    cached: &Cached,
    stream: &Connection,
    limits: StreamLimits<'_>,
    counting: &Counting<'_, G>,
) -> Ended
    requires { (1 ≤ limits.workers) × (limits.workers ≤ 16) }
{
    let peer = stream.peer();
    counting.counters.begin(rt, counting.slot, peer);
    let counts = Counted::new(rt, alloc, counting, peer);
    let ended = serve_by(rt, alloc, cached, stream, limits, &counts);
    counting.counters.end(rt, counting.slot, ended.fault);
    ended
}

/// Serves one stream, whose bytes are counted so. The source and the sink share the stream.
fn serve_by<R: Threads + Wait + Clock + Sync, C: Counts>(
    rt: &R,
    alloc: Global,
    cached: &Cached,
    stream: &Connection,
    limits: StreamLimits<'_>,
    counts: &C,
) -> Ended
    requires { (1 ≤ limits.workers) × (limits.workers ≤ 16) }
{
    stream.send_at_once();
    let patience = limits.patience;
    // If the system refuses this, the stream has no limit.
    let (limit, from) = (patience.longest_call(), patience.time_from());
    let _ = stream.set_timeouts(limit);
    let reader = Metered::new(counts, Retrying::new(rt, stream, limit, from));
    let writer = Metered::new(counts, Retrying::new(rt, stream, limit, from));
    let mut source = FromReader::new(Ticking::new(rt, reader, patience));
    let mut sink = ToWriter::new(Ticking::new(rt, writer, patience));
    let terms = StreamTerms {
        workers: limits.workers,
        budget: limits.budget,
        tally: counts,
    };
    let served = serve_stream_within(rt, alloc, cached, &mut source, &mut sink, terms);
    let (reader, writer) = (source.into_inner(), sink.into_inner());
    let by = match writer.ended_by() {
        EndedBy::Client => reader.ended_by(),
        by => by,
    };
    let fault = match served {
        Ok(_) => None,
        Err(fault) => Some(end_of(fault, reader.is_late(), writer.is_late())),
    };
    Ended {
        fault: stream_end(fault, by),
        requests: counts.replies(),
        read: reader.bytes(),
        written: writer.bytes(),
    }
}
