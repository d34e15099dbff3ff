//! The places of a server: how many streams it serves at once.
ghost use Rattle.std.specs.Prelude.{◌≡◌, ◌+◌, ◌<◌, ◌≤◌, true, false};

use log::{Log, info};
use std::fmt::{self, Display, Formatter};
use std::sync::{Mutex, Wait};
use std::time::{Clock, Duration, Instant};

/// How many seconds must pass before it is logged again that all places are taken.
const QUIET: u64 = 1;

/// How many places there are, and how many are taken.
#[derive(Drop)]
struct Taken {
    most: u64,
    taken: u64,
    ghost few: { taken ≤ most },
}

impl Taken {
    /// Whether no place is free.
    fn is_full(&self) -> bool
        ensures yes { result ≡ true → self.now.taken ≡ self.now.most }
        ensures no { result ≡ false → self.now.taken < self.now.most }
    {
        self.taken == self.most
    }

    /// Takes a place, if one is free.
    fn take(&mut self) -> bool
        ensures most { self.new.most ≡ self.old.most }
        ensures yes { result ≡ true → self.new.taken ≡ self.old.taken + 1 }
        ensures no { result ≡ false → (self.new.taken ≡ self.old.taken) × (self.old.taken ≡ self.old.most) }
    {
        if self.is_full() {
            return false;
        }
        self.taken += 1;
        true
    }

    /// Frees a place.
    fn free(&mut self)
        ensures most { self.new.most ≡ self.old.most }
        ensures freed { 0 < self.old.taken → self.new.taken + 1 ≡ self.old.taken }
    {
        self.taken = self.taken.saturating_sub(1);
    }

    /// Sets the number of places to `most`, or to the number that is taken if that is more.
    fn limit(&mut self, most: u64)
        ensures taken { self.new.taken ≡ self.old.taken }
        ensures most { most ≤ self.new.most }
    {
        self.most = most.max(self.taken);
    }
}

/// What the log last said of the places.
#[derive(Drop)]
struct Said {
    /// Whether its last line says that all places are taken.
    is_full: bool,
    /// When it said so last.
    at: Option<Instant>,
}

impl Said {
    /// Whether the log says now that all places are taken: at most once a second, and not if its last line says so.
    fn says_full(&mut self, now: Option<Instant>) -> bool {
        let is_due = match (self.at, now) {
            (Some(at), Some(now)) => now.duration_since(at) >= Duration::from_secs(QUIET),
            _ => true,
        };
        let is_said = is_due && !self.is_full;
        if is_said {
            self.is_full = true;
            self.at = now;
        }
        is_said
    }

    /// Whether the log says now that a place is free again: if its last line says that all are taken.
    fn says_free(&mut self) -> bool {
        let was_full = self.is_full;
        self.is_full = false;
        was_full
    }
}

/// The right to serve a stream: a place that is taken.
#[derive(Drop)]
pub(crate) struct Permit {
    _is_taken: (),
}

/// The places of a server, for all its threads.
#[derive(Drop)]
pub(crate) struct Places {
    taken: Mutex<Taken>,
    said: Mutex<Said>,
    /// Whether the log says that all places are taken: not if there is a single place and further clients wait for it.
    is_logged: bool,
}

/// Shows how many places there are.
#[derive(Clone, Copy, Debug)]
struct All(u64);

impl Display for All {
    fn fmt<W: fmt::Write>(&self, f: &mut Formatter<W>) -> fmt::Result {
        let All(places) = *self;
        match places {
            1 => f.write_str("the place is"),
            places => write!(f, "all {places} places are"),
        }
    }
}

impl Places {
    /// The places of a server: `most` places, all free.
    pub(crate) fn new(most: u64, is_logged: bool) -> Places {
        Places {
            taken: Mutex::new(Taken { most, taken: 0 }),
            said: Mutex::new(Said {
                is_full: false,
                at: None,
            }),
            is_logged,
        }
    }

    /// Takes a place, if one is free.
    pub(crate) fn take<R: Wait + Clock, G: Log>(&self, rt: &R, log: &G) -> Option<Permit> {
        // Held until the line is written, so that the last line says what is true now.
        let mut said = self.said.lock(rt);
        let mut taken = self.taken.lock(rt);
        let is_taken = taken.take();
        let (is_full, most) = (taken.is_full(), taken.most);
        drop(taken);
        if self.is_logged && is_full {
            let now = Instant::now(rt).ok();
            if said.says_full(now) {
                info!(log; "{} taken", All(most));
            }
        }
        if is_taken {
            Some(Permit { _is_taken: () })
        } else {
            None
        }
    }

    /// Gives a place back.
    pub(crate) fn free<R: Wait, G: Log>(&self, rt: &R, log: &G, permit: Permit) {
        drop(permit);
        let mut said = self.said.lock(rt);
        self.taken.lock(rt).free();
        if self.is_logged && said.says_free() {
            info!(log; "a place is free again");
        }
    }

    /// Limits the places to `most`, because there are no threads for more.
    pub(crate) fn limit<R: Wait>(&self, rt: &R, most: u64) {
        self.taken.lock(rt).limit(most);
    }

    /// How many places there are.
    pub(crate) fn count<R: Wait>(&self, rt: &R) -> u64 {
        self.taken.lock(rt).most
    }

    /// Whether no place is free.
    pub(crate) fn is_full<R: Wait>(&self, rt: &R) -> bool {
        self.taken.lock(rt).is_full()
    }

    /// How many streams are served.
    pub(crate) fn taken<R: Wait>(&self, rt: &R) -> u64 {
        self.taken.lock(rt).taken
    }
}
