//! Why streams end, and the kinds of faults, as the metrics name them.
ghost use Rattle.std.specs.Prelude.{◌<◌};

/// Why a stream ended.
#[derive(Clone, Copy, Debug, PartialEq, Eq)]
pub enum EndCause {
    /// Its client ended it.
    Client,
    /// Its client was silent for too long.
    Idle,
    /// Its client took no reply for too long.
    Stalled,
    /// A fault ended it.
    Fault,
    /// A drain ended it after whole frames, when its client was silent.
    Drained,
    /// A drain ended it within a frame, or the drain's time was over.
    Cut,
}

impl EndCause {
    /// The number of variants.
    pub const COUNT: usize = 6;

    /// All variants, each at the index that `index` returns.
    pub const ALL: [EndCause; 6] = [
        EndCause::Client,
        EndCause::Idle,
        EndCause::Stalled,
        EndCause::Fault,
        EndCause::Drained,
        EndCause::Cut,
    ];

    /// Returns its index in `ALL`.
    pub fn index(self) -> usize
        ensures { result < 6 }
    {
        self as usize
    }

    /// Returns its label in the metrics.
    pub fn word(self) -> &'static str {
        match self {
            EndCause::Client => "client",
            EndCause::Idle => "idle",
            EndCause::Stalled => "stalled",
            EndCause::Fault => "fault",
            EndCause::Drained => "drained",
            EndCause::Cut => "cut",
        }
    }
}

/// The kind of a fault.
#[derive(Clone, Copy, Debug, PartialEq, Eq)]
pub enum FaultKind {
    /// A frame had an invalid length.
    BadLength,
    /// A stream ended within a frame.
    TruncatedFrame,
    /// A read failed.
    Read,
    /// A write failed.
    Write,
    /// An allocation failed, so a stream could not be served further.
    Memory,
    /// A connection could not be accepted.
    Accept,
    /// Any other fault.
    Other,
}

impl FaultKind {
    /// The number of variants.
    pub const COUNT: usize = 7;

    /// All variants, each at the index that `index` returns.
    pub const ALL: [FaultKind; 7] = [
        FaultKind::BadLength,
        FaultKind::TruncatedFrame,
        FaultKind::Read,
        FaultKind::Write,
        FaultKind::Memory,
        FaultKind::Accept,
        FaultKind::Other,
    ];

    /// Returns its index in `ALL`.
    pub fn index(self) -> usize
        ensures { result < 7 }
    {
        self as usize
    }

    /// Returns its label in the metrics.
    pub fn word(self) -> &'static str {
        match self {
            FaultKind::BadLength => "bad_length",
            FaultKind::TruncatedFrame => "truncated_frame",
            FaultKind::Read => "read",
            FaultKind::Write => "write",
            FaultKind::Memory => "memory",
            FaultKind::Accept => "accept",
            FaultKind::Other => "other",
        }
    }
}
