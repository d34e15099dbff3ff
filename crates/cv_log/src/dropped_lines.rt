//! Lines of the log that were dropped.
ghost use Rattle.std.specs.Prelude.{◌≡◌, ◌+◌, ◌<◌};

/// How many lines were dropped.
#[derive(Clone, Copy, Debug, PartialEq, Eq)]
pub(crate) struct DroppedLines {
    /// How many since the log began.
    all: u64,
    /// How many of them no line has reported yet.
    unreported: u64,
}

impl DroppedLines {
    /// No line was dropped.
    pub(crate) fn new() -> DroppedLines
        ensures all { result.all ≡ 0 }
        ensures unreported { result.unreported ≡ 0 }
    {
        DroppedLines {
            all: 0,
            unreported: 0,
        }
    }

    /// How many lines were dropped since the log began.
    pub(crate) fn all(&self) -> u64
        ensures { result ≡ self.now.all }
    {
        self.all
    }

    /// How many of them no line has reported yet.
    pub(crate) fn unreported(&self) -> u64
        ensures { result ≡ self.now.unreported }
    {
        self.unreported
    }

    /// Counts one more dropped line.
    pub(crate) fn add(&mut self)
        ensures all { self.old.all < u64.MAX → self.new.all ≡ self.old.all + 1 }
        ensures unreported { self.old.unreported < u64.MAX → self.new.unreported ≡ self.old.unreported + 1 }
    {
        self.all = self.all.saturating_add(1);
        self.unreported = self.unreported.saturating_add(1);
    }

    /// Notes that a line has reported all of them.
    pub(crate) fn report(&mut self)
        ensures all { self.new.all ≡ self.old.all }
        ensures unreported { self.new.unreported ≡ 0 }
    {
        self.unreported = 0;
    }
}
