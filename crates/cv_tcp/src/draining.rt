//! When a drain began, and when its time is over.
ghost use Rattle.std.specs.Prelude.{◌≡◌, ◌+◌, ◌*◌, ◌<◌, ◌≤◌, true, false};

use std::sync::atomic::{AtomicU64, Ordering};
use std::time::Clock;

/// Milliseconds of a second.
const SECOND: u64 = 1_000;

/// Whether a drain has begun, and how long it waits for streams. The server's threads share it.
#[derive(Drop)]
pub(crate) struct Draining {
    /// How many milliseconds a drain waits for streams.
    limit: u64,
    /// When it began, in milliseconds of the clock and at least 1. 0: it has not begun.
    since: AtomicU64,
}

/// A drain that has begun, and when.
#[derive(Clone, Copy, Debug)]
pub(crate) struct StartedDrain {
    since: u64,
}

/// The clock's time in milliseconds, if it can be read.
fn milliseconds<R: Clock>(rt: &R) -> Option<u64> {
    let now = rt.monotonic().ok()?;
    Some(u64::try_from(now.as_millis()).unwrap_or(u64::MAX))
}

/// Whether `limit` has passed from `since` to `now`.
fn has_passed(limit: u64, since: u64, now: u64) -> bool
    ensures yes { result ≡ true → since + limit ≤ now }
    ensures no { result ≡ false → now < since + limit }
{
    since <= now && now - since >= limit
}

impl Draining {
    /// A drain that has not begun. Once it has, it waits `seconds` seconds.
    pub(crate) fn new(seconds: u32) -> Draining
        ensures { result.limit ≡ 1000 * seconds }
    {
        Draining {
            limit: SECOND * u64::from(seconds),
            since: AtomicU64::new(0),
        }
    }

    /// Begins it. If it has begun already, this changes nothing. If the clock cannot be read, its time counts as over
    /// at once.
    pub(crate) fn begin<R: Clock>(&self, rt: &R) {
        let now = milliseconds(rt).unwrap_or(1).max(1);
        let _ = self
            .since
            .compare_exchange(0, now, Ordering::SeqCst, Ordering::SeqCst);
    }

    /// The drain, if it has begun.
    pub(crate) fn started(&self) -> Option<StartedDrain> {
        match self.since.load(Ordering::SeqCst) {
            0 => None,
            since => Some(StartedDrain { since }),
        }
    }

    /// How many milliseconds ago it began; 0 if it has not begun or the clock cannot be read.
    pub(crate) fn elapsed<R: Clock>(&self, rt: &R) -> u64 {
        match (self.started(), milliseconds(rt)) {
            (Some(drain), Some(now)) => now.saturating_sub(drain.since),
            _ => 0,
        }
    }

    /// Whether it has begun, and its time is over or the clock cannot be read.
    pub(crate) fn is_over<R: Clock>(&self, rt: &R) -> bool {
        match self.started() {
            None => false,
            Some(drain) => match milliseconds(rt) {
                Some(now) => has_passed(self.limit, drain.since, now),
                None => true,
            },
        }
    }
}
