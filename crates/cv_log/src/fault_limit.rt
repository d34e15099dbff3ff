//! Limits how many faults of a second the log has.
ghost use Rattle.std.specs.Prelude.{◌≡◌, ◌+◌, ◌-◌, ◌<◌, ◌≤◌, true, false};

/// How many faults of a second are written. Further ones are only counted.
const MOST: u32 = 100;

/// How many nanoseconds a second has.
const SECOND: u64 = 1_000_000_000;

/// The faults of the current second, by a clock that counts nanoseconds. The next second begins with the first record
/// after it is over.
#[derive(Clone, Copy, Debug, PartialEq, Eq)]
pub(crate) struct FaultLimit {
    /// When the second began.
    start: u64,
    /// How many of its faults were written.
    written: u32,
    /// How many were only counted, and not reported yet.
    counted: u64,
    ghost few: { written ≤ 100 },
}

impl FaultLimit {
    /// A second without faults, which begins at time 0.
    pub(crate) fn new() -> FaultLimit
        ensures start { result.start ≡ 0 }
        ensures written { result.written ≡ 0 }
        ensures counted { result.counted ≡ 0 }
    {
        FaultLimit {
            start: 0,
            written: 0,
            counted: 0,
        }
    }

    /// Notes that a record comes at this time. If the second is over, the next one begins, and the result is how many
    /// faults were only counted. The count is 0 again, since the caller reports them now. Within the second the result
    /// is 0.
    pub(crate) fn pass(&mut self, now: u64) -> u64
        ensures over { 1000000000 ≤ now - self.old.start → result ≡ self.old.counted }
        ensures start { 1000000000 ≤ now - self.old.start → self.new.start ≡ now }
        ensures written { 1000000000 ≤ now - self.old.start → self.new.written ≡ 0 }
        ensures counted { 1000000000 ≤ now - self.old.start → self.new.counted ≡ 0 }
        ensures within { now - self.old.start < 1000000000 → result ≡ 0 }
        ensures same { now - self.old.start < 1000000000 → self.new ≡ self.old }
    {
        if now.saturating_sub(self.start) < SECOND {
            return 0;
        }
        self.start = now;
        self.written = 0;
        self.take_counted()
    }

    /// Whether a fault is written: the first 100 of a second are. Others are counted.
    pub(crate) fn admits(&mut self) -> bool
        ensures start { self.new.start ≡ self.old.start }
        ensures yes { self.old.written < 100 → result ≡ true }
        ensures written { self.old.written < 100 → self.new.written ≡ self.old.written + 1 }
        ensures not_counted { self.old.written < 100 → self.new.counted ≡ self.old.counted }
        ensures no { self.old.written ≡ 100 → result ≡ false }
        ensures not_written { self.old.written ≡ 100 → self.new.written ≡ 100 }
        ensures counted { self.old.written ≡ 100 → self.old.counted < u64.MAX
            → self.new.counted ≡ self.old.counted + 1 }
    {
        if self.written < MOST {
            self.written += 1;
            return true;
        }
        self.counted = self.counted.saturating_add(1);
        false
    }

    /// How many faults were only counted. The count is 0 again, since the caller reports them now.
    pub(crate) fn take_counted(&mut self) -> u64
        ensures taken { result ≡ self.old.counted }
        ensures counted { self.new.counted ≡ 0 }
        ensures start { self.new.start ≡ self.old.start }
        ensures written { self.new.written ≡ self.old.written }
    {
        let counted = self.counted;
        self.counted = 0;
        counted
    }
}
