//! The state of a running server, and how it is drained.
ghost use Rattle.std.specs.Prelude.{◌≡◌, None, IsSome, IfOk};

use crate::counters::Counters;
use crate::draining::Draining;
use crate::places::Places;
use crate::terms::{Terms, WhenFull};
use cv_admin::Health;
use std::alloc::{AllocError, Global};
use std::net::{Shutdown, TcpStream};
use std::sync::atomic::{AtomicU64, Ordering};
use std::sync::{Mutex, Wait};
use std::time::Clock;

/// The state of a running server. The threads that serve share it with those that read it or begin a drain.
#[derive(Drop)]
pub struct Operation {
    pub(crate) places: Places,
    pub(crate) draining: Option<Draining>,
    pub(crate) counters: Option<Counters>,
    /// How many lines the log has dropped. The log writes it.
    lost_lines: AtomicU64,
    /// A second descriptor of the listener, with which a drain ends the accepts that wait.
    door: Mutex<Option<TcpStream>>,
}

impl Operation {
    /// Returns the state of a server that cannot be drained and counts nothing.
    pub fn new(terms: &Terms) -> Operation
        ensures { result.draining ≡ None }
    {
        let is_logged = terms.at_once > 1 || terms.when_full == WhenFull::Close;
        Operation {
            places: Places::new(u64::from(terms.at_once), is_logged),
            draining: None,
            counters: None,
            lost_lines: AtomicU64::new(0),
            door: Mutex::new(None),
        }
    }

    /// Returns the state of a server that can be drained. It counts nothing.
    pub fn with_drain(terms: &Terms) -> Operation
        ensures { IsSome result.draining }
    {
        let mut operation = Operation::new(terms);
        operation.draining = Some(Draining::new(terms.drain));
        operation
    }

    /// Returns the state of a server that can be drained, and counts its streams from now on. The metrics show
    /// `version`. It fails if an allocation fails.
    pub fn counted<R: Clock>(
        rt: &R,
        alloc: Global,
        terms: &Terms,
        version: &str,
    ) -> Result<Operation, AllocError>
        ensures { IfOk result (λ operation. IsSome operation.draining) }
    {
        let threads = u32::try_from(terms.threads()).unwrap_or(u32::MAX);
        let counters = Counters::new(rt, alloc, threads, version)?;
        let mut operation = Operation::with_drain(terms);
        operation.counters = Some(counters);
        Ok(operation)
    }

    /// Returns the counter in which the log keeps how many lines it has dropped (`LogLines::telling`).
    pub fn lost_lines(&self) -> &AtomicU64 {
        &self.lost_lines
    }

    /// How many lines the log has dropped.
    pub(crate) fn lost(&self) -> u64 {
        self.lost_lines.load(Ordering::Relaxed)
    }

    /// Whether a drain has begun.
    pub(crate) fn is_draining(&self) -> bool {
        match &self.draining {
            Some(draining) => draining.started().is_some(),
            None => false,
        }
    }

    /// How many milliseconds ago a drain began; 0 without one.
    pub(crate) fn drained_for<R: Clock>(&self, rt: &R) -> u64 {
        match &self.draining {
            Some(draining) => draining.elapsed(rt),
            None => 0,
        }
    }

    /// Returns whether a client that connects now is served at once.
    pub fn health<R: Wait>(&self, rt: &R) -> Health {
        if self.is_draining() {
            Health::Draining
        } else if self.places.is_full(rt) {
            Health::Full
        } else {
            Health::Free
        }
    }

    /// Begins a drain, if the server can be drained: no new stream is served from now on. A stream that is being served
    /// ends when its client is silent for a second, or when the drain's time is over. If a drain has begun already,
    /// this changes nothing.
    pub fn drain<R: Wait + Clock>(&self, rt: &R) {
        let Some(draining) = &self.draining else {
            return;
        };
        draining.begin(rt);
        let door = self.door.lock(rt);
        if let Some(socket) = &*door {
            let _ = socket.shutdown(Shutdown::Both);
        }
    }

    /// Returns how many streams are being served.
    pub fn streams<R: Wait>(&self, rt: &R) -> u64 {
        self.places.taken(rt)
    }

    /// Sets the descriptor with which a drain shuts the listener.
    pub(crate) fn set_door<R: Wait>(&self, rt: &R, socket: TcpStream) {
        *self.door.lock(rt) = Some(socket);
    }
}
