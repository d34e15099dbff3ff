//! The terms by which streams are served.
ghost use Rattle.std.specs.Prelude.{◌≡◌, ◌+◌, ◌≤◌, ◌^◌};
ghost use Rattle.cv_tcp.specs.declared.terms.WhenFull.TheVariants as WhenFull;

use cv_commands::Budget;

/// How many streams may be served at once. With the program's other descriptors they stay below 1,024, the usual limit
/// of a process.
pub const MOST_AT_ONCE: u32 = 1_000;

/// What happens to a client that connects while all places are taken.
#[derive(Clone, Copy, Debug, PartialEq, Eq)]
pub enum WhenFull {
    /// It waits until a place is free.
    Wait,
    /// Its stream is closed at once.
    Close,
}

/// The terms by which streams are served.
#[derive(Clone, Copy, Debug, PartialEq, Eq)]
pub struct Terms {
    /// How many streams are served in all.
    pub streams: u64,
    /// How many streams are served at the same time.
    pub at_once: u32,
    /// How many workers each stream has.
    pub workers: u32,
    /// How many seconds a stream waits for its client, if there is a limit.
    pub idle: Option<u32>,
    /// What happens to a client that connects while all places are taken.
    pub when_full: WhenFull,
    /// How many seconds a drain waits for streams.
    pub drain: u32,
    /// How many bytes the callers of a stream may hold, if there is a limit.
    pub stream_memory: Option<u64>,
    /// How many callers a stream may have, if there is a limit.
    pub callers: Option<u32>,
}

impl Terms {
    /// Returns the limits of what the callers of one stream may hold.
    pub fn budget(&self) -> Budget {
        Budget::of(self.stream_memory, self.callers)
    }

    /// How many threads accept and serve: one for each place. If clients are closed while all places are taken there is
    /// one more, so that one always accepts.
    pub(crate) fn threads(&self) -> u64
        ensures wait { self.now.when_full ≡ WhenFull.Wait → result ≡ self.now.at_once }
        ensures close { self.now.when_full ≡ WhenFull.Close → result ≡ self.now.at_once + 1 }
        ensures few { result ≤ 2 ^ 32 }
    {
        match self.when_full {
            WhenFull::Wait => u64::from(self.at_once),
            WhenFull::Close => u64::from(self.at_once) + 1,
        }
    }

    /// How many places `threads` threads can fill.
    pub(crate) fn places_of(&self, threads: u64) -> u64
        ensures wait { self.now.when_full ≡ WhenFull.Wait → result ≡ threads }
        ensures close { self.now.when_full ≡ WhenFull.Close → 2 ≤ threads → result + 1 ≡ threads }
    {
        match self.when_full {
            WhenFull::Close if threads > 1 => threads - 1,
            _ => threads,
        }
    }
}
