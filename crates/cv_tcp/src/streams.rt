//! Serves streams, many at once.
ghost use Rattle.std.specs.Prelude.{◌≡◌, ◌+◌, ◌≤◌, ◌⊎◌, IfOk, IfErr};
ghost use Rattle.std.specs.Thread.{IsSync};
ghost use Rattle.cv_tcp.specs.Listening.{IsEnd};

use crate::accepting::{Complaints, Next, next_client};
use crate::admin::serve_beside;
use crate::admin_inlet::AdminInlet;
use crate::connection::Connection;
use crate::fault::StreamFault;
use crate::inlet::Inlet;
use crate::listened::{Listened, ended};
use crate::one_stream::{Counting, StreamLimits, serve_connection, serve_counted};
use crate::operation::Operation;
use crate::report::{Ended, Report};
use crate::stream_quota::{Quota, Slot, StreamQuota, new_slots};
use crate::terms::Terms;
use crate::ticking::Patience;
use cv_cache::{Cached, HashKeys};
use cv_commands::RunFault;
use cv_pool::keep_memory;
use log::{Log, error};
use std::alloc::Global;
use std::marker::Brand;
use std::random::RandomSource;
use std::sync::ledger::Blank;
use std::sync::{Mutex, Wait};
use std::thread;
use std::thread::Threads;
use std::time::Clock;

/// What the threads that serve streams share.
#[derive(Drop)]
pub(crate) struct Service<'a, R, G, L> {
    pub(crate) rt: &'a R,
    pub(crate) alloc: Global,
    pub(crate) log: &'a G,
    pub(crate) inlet: &'a L,
    pub(crate) terms: Terms,
    pub(crate) operation: &'a Operation,
    /// The listener of the admin pages, if there are any.
    pub(crate) admin: &'a Option<AdminInlet>,
}

/// Serves a stream in the thread with this number, and counts it if the server counts.
fn serve_one<R, G, L>(
    service: &Service<'_, R, G, L>,
    cached: &Cached,
    stream: &Connection,
    number: usize,
) -> Ended
where
    R: Threads + Wait + Clock + Sync,
    G: Log,
    requires { (1 ≤ service.now.terms.workers) × (service.now.terms.workers ≤ 16) }
{
    let (rt, alloc, log) = (service.rt, service.alloc, service.log);
    let limits = StreamLimits {
        workers: service.terms.workers,
        budget: service.terms.budget(),
        patience: Patience {
            limit: service.terms.idle,
            draining: service.operation.draining.as_ref(),
        },
    };
    if let Some(counters) = &service.operation.counters
        && let Some(slot) = counters.board().slot(number)
    {
        let counting = Counting {
            log,
            counters,
            slot,
        };
        return serve_counted(rt, alloc, cached, stream, limits, &counting);
    }
    serve_connection(rt, alloc, cached, stream, limits, log)
}

/// Serves streams, one after the other, as long as any are left. It logs how each ended.
fn serve_streams<R, G, L, Q>(
    service: &Service<'_, R, G, L>,
    cached: &Cached,
    complaints: &Mutex<Complaints>,
    quota: &Mutex<StreamQuota<Q>>,
    slot: &Mutex<Slot<Q>>,
    number: usize,
)
where
    R: Threads + Wait + Clock + Sync,
    G: Log,
    L: Inlet,
    Q: Quota,
    requires { (1 ≤ service.now.terms.workers) × (service.now.terms.workers ≤ 16) }
{
    let rt = service.rt;
    let mut slot = slot.lock(rt);
    let slot = &mut *slot;
    for _stream in 0..service.terms.streams {
        if !quota.lock(rt).take(slot) {
            return;
        }
        let (stream, permit) = match next_client(service, complaints) {
            Ok(Next::Client(stream, permit)) => (stream, permit),
            Ok(Next::Drained(drain)) => {
                drain.close(&mut *quota.lock(rt), slot);
                return;
            }
            Err(failure) => {
                quota.lock(rt).close(slot, &failure);
                service.inlet.shut();
                return;
            }
        };
        let report = Report::begin(rt, service.log, &stream);
        let ended = serve_one(service, cached, &stream, number);
        if ended.fault == Some(StreamFault::Cut) {
            slot.note_cut();
        }
        report.end(rt, service.log, ended);
        // Before the stream is closed, so that a client that sees its end finds a free place.
        service.operation.places.free(rt, service.log, permit);
        drop(stream);
    }
}

/// Limits the places to what `threads` threads can fill, because no more can be started.
fn limit_places<R: Wait, G: Log, L>(service: &Service<'_, R, G, L>, threads: usize) {
    let most = service.terms.places_of(threads as u64);
    error!(service.log; "only {most} streams at once: cannot start more threads");
    service.operation.places.limit(service.rt, most);
}

/// Serves with a thread for each slot; the calling thread has the first. If a thread cannot be started, it goes on with
/// fewer.
pub(crate) fn serve_slots<R, G, L, Q>(
    service: &Service<'_, R, G, L>,
    cached: &Cached,
    quota: &Mutex<StreamQuota<Q>>,
    slots: &Vec<Mutex<Slot<Q>>>,
)
where
    R: Threads + Wait + Clock + Sync,
    G: Log + Sync,
    L: Inlet + Sync,
    Q: Quota + Send + Sync,
    requires { (1 ≤ service.now.terms.workers) × (service.now.terms.workers ≤ 16) }
{
    let complaints = Mutex::new(Complaints::new());
    let complaints = &complaints;
    thread::scope(
        thread::scope_env(),
        service.rt,
        |scope|
            requires { IsSync R.row × (1 ≤ service.now.terms.workers) × (service.now.terms.workers ≤ 16) }
        {
            for number in 1..slots.len() {
                let slot = &slots[number];
                let thread = scope.spawn(
                    move ||
                        requires { IsSync R.row × (1 ≤ service.now.terms.workers) × (service.now.terms.workers ≤ 16) }
                    { serve_streams(service, cached, complaints, quota, slot, number) },
                );
                if thread.is_err() {
                    limit_places(service, number);
                    break;
                }
            }
            if let Some(slot) = slots.first() {
                serve_streams(service, cached, complaints, quota, slot, 0);
            }
        },
    );
}

/// Serves the streams of one job with `threads` threads.
fn serve_quota<R, G, L, Q>(
    service: &Service<'_, R, G, L>,
    blank: Blank,
    threads: u64,
) -> Result<Listened, RunFault>
where
    R: Clock + RandomSource + Threads + Wait + Sync,
    G: Log + Sync,
    L: Inlet + Sync,
    Q: Quota + Send + Sync,
    requires name { blank.name ≡ Q.name }
    requires parts { blank.parts ≡ Q.parts }
    requires one_more { blank.parts ≡ threads + 1 }
    requires streams { service.now.terms.streams ≡ Q.streams }
    requires workers { (1 ≤ service.now.terms.workers) × (service.now.terms.workers ≤ 16) }
    ensures end { IfOk result (λ listened. IsEnd service.now.terms.streams listened) }
    ensures err { IfErr result (λ fault. (fault ≡ RunFault.AcceptFailed) ⊎ (fault ≡ RunFault.Memory)) }
{
    keep_memory(service.alloc);
    let keys = HashKeys::drawn(service.rt);
    let cached = Cached::with_keys(service.alloc, keys)?;
    let (taken, mut all) = blank.open::<Q>();
    let slots = new_slots(service.alloc, threads, &mut all)?;
    let quota = Mutex::new(StreamQuota::new(service.terms.streams, taken));
    serve_beside(&*service, &cached, &quota, &slots);
    let mut quota = quota.into_inner();
    let total = quota.total(slots, &mut all);
    match ended(
        total,
        service.terms.streams,
        service.operation.is_draining(),
    ) {
        Some(listened) => Ok(listened),
        None => Err(RunFault::AcceptFailed),
    }
}

/// Serves the streams that come in at a listener, until there were as many as the terms say or a drain has begun. It
/// logs how each ended.
pub(crate) fn serve_until_drained<R, G, L>(
    service: &Service<'_, R, G, L>,
) -> Result<Listened, RunFault>
where
    R: Clock + RandomSource + Threads + Wait + Sync,
    G: Log + Sync,
    L: Inlet + Sync,
    requires at_once { 1 ≤ service.now.terms.at_once }
    requires workers { (1 ≤ service.now.terms.workers) × (service.now.terms.workers ≤ 16) }

    // All threads together took as many streams as are wanted. Or a drain had begun, and they took at most as many.
    ensures end { IfOk result (λ listened. IsEnd service.now.terms.streams listened) }

    // The fault of a stream ends only that stream.
    ensures err { IfErr result (λ fault. (fault ≡ RunFault.AcceptFailed) ⊎ (fault ≡ RunFault.Memory)) }
{
    let threads = service.terms.threads();
    let blank = Blank::new(threads + 1);
    serve_quota::<R, G, L, Brand>(service, blank, threads)
}
