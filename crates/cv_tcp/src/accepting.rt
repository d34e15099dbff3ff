//! Accepts streams. Failures that pass by themselves do not end it.
ghost use Rattle.std.specs.Prelude.{◌≡◌, true, IfErr};
ghost use Rattle.std.specs.IoError.{raw_os_error};
ghost use Rattle.cv_tcp.specs.Accepting.{is_lasting, is_of_listener};

use crate::connection::Connection;
use crate::draining::StartedDrain;
use crate::inlet::Inlet;
use crate::operation::Operation;
use crate::places::Permit;
use crate::streams::Service;
use log::{Log, debug, error};
use std::io::{self, ErrorKind};
use std::sync::{Mutex, Wait};
use std::thread;
use std::time::{Clock, Duration, Instant};

/// How many milliseconds a thread sleeps after a failed accept.
const PAUSE: u64 = 50;

/// How many seconds must pass before another failed accept is reported.
const QUIET: u64 = 1;

/// When a failed accept was last reported, by any thread.
#[derive(Drop)]
pub(crate) struct Complaints {
    last: Option<Instant>,
}

impl Complaints {
    /// No failed accept was reported yet.
    pub(crate) fn new() -> Complaints {
        Complaints { last: None }
    }

    /// Whether a failure at this time has to be reported: at most one a second is. It notes the time if so.
    fn is_due(&mut self, now: Instant) -> bool {
        let is_due = match self.last {
            Some(last) => now.duration_since(last) >= Duration::from_secs(QUIET),
            None => true,
        };
        if is_due {
            self.last = Some(now);
        }
        is_due
    }
}

/// Whether an error number says that the descriptor is not a listener, or no longer one: EBADF, EINVAL, ENOTSOCK or
/// EOPNOTSUPP.
fn is_of_listener(number: u32) -> bool
    ensures { result ≡ is_of_listener number }
{
    number == 9 || number == 22 || number == 88 || number == 95
}

/// Whether every later accept will fail as this one did, because the listener is gone. All other failures pass, such as
/// too few descriptors or too little memory, or concern a single client that has left.
fn is_lasting(failure: &io::Error) -> bool
    ensures { result ≡ is_lasting (raw_os_error failure.now) }
{
    match failure.raw_os_error() {
        Some(code) => code >= 0 && is_of_listener(code.unsigned_abs()),
        None => false,
    }
}

/// Reports a failed accept, if none was reported within a second.
fn complain<R: Wait + Clock, G: Log>(
    rt: &R,
    log: &G,
    complaints: &Mutex<Complaints>,
    failure: &io::Error,
) {
    let is_due = match Instant::now(rt) {
        Ok(now) => complaints.lock(rt).is_due(now),
        Err(_) => true,
    };
    if is_due {
        error!(log; "cannot accept: {failure}");
    }
}

/// How many milliseconds a thread sleeps after an accept that gave up. Another process that has the listener too may
/// make it non-blocking.
const BREATH: u64 = 1;

/// What a thread gets after it has waited.
pub(crate) enum Next {
    /// A stream, and the right to serve it.
    Client(Connection, Permit),
    /// No stream: a drain has begun.
    Drained(StartedDrain),
}

/// Whether an accept gave up. At a listener that is shared with other processes it does so after a while.
fn gave_up(failure: &io::Error) -> bool {
    failure.kind() == ErrorKind::WouldBlock
}

/// The drain that has begun, if one has.
fn drain_of(operation: &Operation) -> Option<StartedDrain> {
    match &operation.draining {
        Some(draining) => draining.started(),
        None => None,
    }
}

/// Counts and logs a client that is closed because all places are taken.
fn note_refused<G: Log>(log: &G, operation: &Operation, stream: &Connection) {
    if let Some(counters) = &operation.counters {
        counters.note_refused();
    }
    debug!(log; peer:% = stream.peer(); "client refused");
}

/// Waits for a client and takes a place for it, or returns that a drain has begun. While all places are taken, clients
/// are closed at once. A failed accept is tried again, unless every later one will fail too.
pub(crate) fn next_client<R: Wait + Clock, G: Log, L: Inlet>(
    service: &Service<'_, R, G, L>,
    complaints: &Mutex<Complaints>,
) -> Result<Next, io::Error>
    ensures { IfErr result (λ failure. is_lasting (raw_os_error failure) ≡ true) }
{
    let (rt, log, operation) = (service.rt, service.log, service.operation);
    for _try in rt.forever() {
        if let Some(drain) = drain_of(operation) {
            return Ok(Next::Drained(drain));
        }
        match service.inlet.accept() {
            Ok(stream) => match operation.places.take(rt, log) {
                Some(permit) => return Ok(Next::Client(stream, permit)),
                None => note_refused(log, operation, &stream),
            },
            // The drain has shut the listener. The next round returns `Drained`.
            Err(_) if drain_of(operation).is_some() => {}
            Err(failure) if gave_up(&failure) => thread::sleep(rt, Duration::from_millis(BREATH)),
            Err(failure) if is_lasting(&failure) => return Err(failure),
            Err(failure) => {
                if let Some(counters) = &operation.counters {
                    counters.note_failed_accept();
                }
                complain(rt, log, complaints, &failure);
                thread::sleep(rt, Duration::from_millis(PAUSE));
            }
        }
    }
    unreachable!()
}

/// Waits for the next client of the admin pages. A failed accept is tried again, unless every later one will fail too.
pub(crate) fn next_admin_client<R: Wait + Clock, G: Log, L: Inlet>(
    rt: &R,
    log: &G,
    inlet: &L,
    complaints: &Mutex<Complaints>,
) -> Result<Connection, io::Error>
    ensures { IfErr result (λ failure. is_lasting (raw_os_error failure) ≡ true) }
{
    for _try in rt.forever() {
        match inlet.accept() {
            Ok(stream) => return Ok(stream),
            Err(failure) if is_lasting(&failure) => return Err(failure),
            Err(failure) => complain(rt, log, complaints, &failure),
        }
        thread::sleep(rt, Duration::from_millis(PAUSE));
    }
    unreachable!()
}
