//! Serves one stream.
ghost use Rattle.std.specs.Prelude.{◌≡◌, ◌≢◌, ◌≤◌, ℕ, List, Err, false};
ghost use Rattle.cv_world.specs.Requests.{turn};
ghost use Rattle.cv_world.specs.Worlds.{no_tables};
ghost use Rattle.cv_loop.specs.Serving.{Gave, Took, IsHeadline};
ghost use Rattle.cv_commands.specs.Limits.{most_reads};
ghost use Rattle.cv_commands.specs.Streams.{ServesNew, stream_ending};

use crate::fault::RunFault;
use crate::input::MAX_READS;
use crate::server::pool_within;
use cv_cache::{Cached, HashKeys};
use cv_loop::{Served, Sink, Source, serve};
use cv_pool::{Tallied, Tally, keep_memory};
use cv_world::{Budget, UNLIMITED};
use std::alloc::Global;
use std::random::RandomSource;
use std::sync::Wait;
use std::thread::Threads;

/// Serves the frames that a source gives by a new pool of 1 to 16 workers with a cache of its own, and writes the
/// replies to a sink. It makes at most 1,000,000 reads.
pub fn serve_stream<R: RandomSource + Threads + Wait + Sync, S: Source, W: Sink>(
    rt: &R,
    alloc: Global,
    source: &mut S,
    sink: &mut W,
    workers: u32,
) -> Result<Served, RunFault>
    requires workers { (1 ≤ workers) × (workers ≤ 16) }
    // The source and the sink are new: neither was called.
    requires pulls { S.pulls source.old ≡ 0 }
    requires fresh_source { (S.met_end source.old ≡ false) × (S.has_failed source.old ≡ false) }
    requires fresh_sink { W.has_failed sink.old ≡ false }

    // What was written answers what was given, and what was written for each caller answers its frames alone.
    ensures headline { (given written : List ℕ) → Gave (S.left source.old) (S.left source.new) given → Took
        (W.held sink.old) (W.held sink.new) written → IsHeadline turn (stream_ending result) no_tables given written }

    // `Memory` is returned if an allocation for the cache or the pool failed, before anything was read. Every other
    // result is that of serving.
    ensures serves { result ≢ Err RunFault.Memory
        → ServesNew result (S.left source.old) (S.left source.new) (W.held sink.old) (W.held sink.new)
        (S.pulls source.new) most_reads (S.met_end source.new) (S.has_failed source.new) (W.has_failed sink.new) }
    ensures unserved { result ≡ Err RunFault.Memory → (source.new ≡ source.old) × (sink.new ≡ sink.old) }

    ensures reads { S.pulls source.new ≤ most_reads }
{
    keep_memory(alloc);
    let Ok(cached) = Cached::with_keys(alloc, HashKeys::drawn(rt)) else {
        return Err(RunFault::Memory);
    };
    serve_stream_by(rt, alloc, &cached, source, sink, workers)
}

/// Serves a stream as `serve_stream` does, by a cache that other streams may use at the same time. No reply depends on
/// it.
pub fn serve_stream_by<R: Threads + Wait + Sync, S: Source, W: Sink>(
    rt: &R,
    alloc: Global,
    cached: &Cached,
    source: &mut S,
    sink: &mut W,
    workers: u32,
) -> Result<Served, RunFault>
    requires workers { (1 ≤ workers) × (workers ≤ 16) }
    // The source and the sink are new: neither was called.
    requires pulls { S.pulls source.old ≡ 0 }
    requires fresh_source { (S.met_end source.old ≡ false) × (S.has_failed source.old ≡ false) }
    requires fresh_sink { W.has_failed sink.old ≡ false }

    // What was written answers what was given, and what was written for each caller answers its frames alone.
    ensures headline { (given written : List ℕ) → Gave (S.left source.old) (S.left source.new) given → Took
        (W.held sink.old) (W.held sink.new) written → IsHeadline turn (stream_ending result) no_tables given written }

    // `Memory` is returned if an allocation for the pool failed, before anything was read. Every other result is that
    // of serving.
    ensures serves { result ≢ Err RunFault.Memory
        → ServesNew result (S.left source.old) (S.left source.new) (W.held sink.old) (W.held sink.new)
        (S.pulls source.new) most_reads (S.met_end source.new) (S.has_failed source.new) (W.has_failed sink.new) }
    ensures unserved { result ≡ Err RunFault.Memory → (source.new ≡ source.old) × (sink.new ≡ sink.old) }

    ensures reads { S.pulls source.new ≤ most_reads }
{
    let terms = StreamTerms {
        workers,
        budget: UNLIMITED,
        tally: &(),
    };
    serve_stream_within(rt, alloc, cached, source, sink, terms)
}

/// How a stream is served.
#[derive(Clone, Copy, Debug)]
pub struct StreamTerms<'a, T> {
    /// The number of workers, 1 to 16.
    pub workers: u32,
    /// What its callers may hold. Each worker has the same part of it for its callers.
    pub budget: Budget,
    /// Receives what its callers hold.
    pub tally: &'a T,
}

/// Serves a stream as `serve_stream_by` does, within a budget. A request that would pass the budget is refused as if an
/// allocation failed.
pub fn serve_stream_within<R: Threads + Wait + Sync, S: Source, W: Sink, T: Tally>(
    rt: &R,
    alloc: Global,
    cached: &Cached,
    source: &mut S,
    sink: &mut W,
    terms: StreamTerms<'_, T>,
) -> Result<Served, RunFault>
    requires workers { (1 ≤ terms.workers) × (terms.workers ≤ 16) }
    // The source and the sink are new: neither was called.
    requires pulls { S.pulls source.old ≡ 0 }
    requires fresh_source { (S.met_end source.old ≡ false) × (S.has_failed source.old ≡ false) }
    requires fresh_sink { W.has_failed sink.old ≡ false }

    // What was written answers what was given, and what was written for each caller answers its frames alone.
    ensures headline { (given written : List ℕ) → Gave (S.left source.old) (S.left source.new) given → Took
        (W.held sink.old) (W.held sink.new) written → IsHeadline turn (stream_ending result) no_tables given written }

    // `Memory` is returned if an allocation for the pool failed, before anything was read. Every other result is that
    // of serving.
    ensures serves { result ≢ Err RunFault.Memory
        → ServesNew result (S.left source.old) (S.left source.new) (W.held sink.old) (W.held sink.new)
        (S.pulls source.new) most_reads (S.met_end source.new) (S.has_failed source.new) (W.has_failed sink.new) }
    ensures unserved { result ≡ Err RunFault.Memory → (source.new ≡ source.old) × (sink.new ≡ sink.old) }

    ensures reads { S.pulls source.new ≤ most_reads }
{
    let Ok(pool) = pool_within(alloc, cached, terms.workers, terms.budget) else {
        return Err(RunFault::Memory);
    };
    let mut engine = Tallied::new(pool, terms.tally);
    match serve(&mut engine, rt, alloc, source, sink, MAX_READS) {
        Ok(served) => Ok(served),
        Err(fault) => Err(RunFault::Serve(fault)),
    }
}
