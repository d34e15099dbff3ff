//! Answers the clients of the admin pages, in threads of its own beside those that serve streams.
ghost use Rattle.std.specs.Prelude.{◌≤◌};
ghost use Rattle.std.specs.Thread.{IsSync};

use crate::accepting::{Complaints, next_admin_client};
use crate::connection::Connection;
use crate::inlet::{Bound, Inlet};
use crate::overview::Overview;
use crate::retrying::{Deadline, Retrying, TimeFrom};
use crate::stream_quota::{Quota, Slot, StreamQuota};
use crate::streams::{Service, serve_slots};
use crate::timed::Timed;
use cv_admin::{Operated, serve_client};
use cv_cache::Cached;
use log::{Log, error};
use std::alloc::Global;
use std::hash::RandomState;
use std::io::{self, Read};
use std::random::RandomSource;
use std::sync::{Mutex, Wait};
use std::thread;
use std::thread::Threads;
use std::time::{Clock, Duration};

/// How many clients are answered at the same time. Further clients wait.
const ADMIN_THREADS: u32 = 4;

/// How many seconds a client of the pages may take in all.
const ADMIN_SECONDS: u64 = 2;

/// How many bytes are read at a time of input that is dropped.
const SCRAP: usize = 4096;

/// Reads and drops what still comes. If a stream were closed with input unread, its client could lose what it was just
/// sent.
fn drain_rest<T: Read>(reader: &mut T) {
    let mut scrap = [0; SCRAP];
    for _read in 0..u64::MAX {
        match reader.read(&mut scrap) {
            Ok(0) | Err(_) => return,
            Ok(_) => {}
        }
    }
}

/// Answers one client. All that it sends and takes has `ADMIN_SECONDS` seconds. If it gets no answer, the reason is not
/// reported.
fn answer_client<R: Clock + RandomSource, O: Operated>(
    rt: &R,
    alloc: Global,
    client: &Connection,
    operated: &O,
) {
    let Ok(keys) = RandomState::new(rt) else {
        return;
    };
    let Some(deadline) = Deadline::new(rt, Duration::from_secs(ADMIN_SECONDS)) else {
        return;
    };
    client.send_at_once();
    let mut reader = Retrying::new(rt, Timed::new(rt, client, deadline), None, TimeFrom::Call);
    let mut writer = Retrying::new(rt, Timed::new(rt, client, deadline), None, TimeFrom::Call);
    if serve_client(alloc, keys, operated, &mut reader, &mut writer).is_ok() {
        client.end_writing();
        drain_rest(&mut reader);
    }
}

/// Answers clients, one after the other, until the listener is shut.
pub(crate) fn answer_clients<R, G, O>(
    rt: &R,
    alloc: Global,
    log: &G,
    inlet: &Bound,
    complaints: &Mutex<Complaints>,
    operated: &O,
)
where
    R: Clock + RandomSource + Wait,
    G: Log,
    O: Operated,
{
    for _client in rt.forever() {
        let Ok(client) = next_admin_client(rt, log, inlet, complaints) else {
            return;
        };
        answer_client(rt, alloc, &client, operated);
    }
}

/// Serves streams, until the last one has ended. If there are admin pages and the server counts, it answers their
/// clients meanwhile.
pub(crate) fn serve_beside<'a, R, G, L, Q>(
    service: &'a Service<'a, R, G, L>,
    cached: &'a Cached,
    quota: &Mutex<StreamQuota<Q>>,
    slots: &Vec<Mutex<Slot<Q>>>,
)
where
    R: Clock + RandomSource + Threads + Wait + Sync,
    G: Log + Sync,
    L: Inlet + Sync,
    Q: Quota + Send + Sync,
    requires { (1 ≤ service.now.terms.workers) × (service.now.terms.workers ≤ 16) }
{
    let (Some(admin), Some(counters)) = (service.admin, &service.operation.counters) else {
        serve_slots(service, cached, quota, slots);
        return;
    };
    let (rt, alloc, log, inlet) = (service.rt, service.alloc, service.log, admin.bound());
    let overview = Overview::new(service, cached, counters);
    let (overview, complaints) = (&overview, Mutex::new(Complaints::new()));
    let complaints = &complaints;
    thread::scope(
        thread::scope_env(),
        rt,
        |scope|
            requires { IsSync R.row × (1 ≤ service.now.terms.workers) × (service.now.terms.workers ≤ 16) }
        {
            for number in 0..ADMIN_THREADS {
                let thread = scope.spawn(move || {
                    answer_clients(rt, alloc, log, inlet, complaints, overview)
                });
                if thread.is_err() {
                    error!(log; "only {number} clients of the pages at once: cannot start more threads");
                    break;
                }
            }
            serve_slots(service, cached, quota, slots);
            inlet.shut();
        },
    );
}
