//! Sources of frames and sinks of replies.

ghost use Rattle.std.specs.Prelude.{◌≡◌, ◌≤◌, ◌<◌, ◌+◌, ◌-◌, ◌^◌, ◌||◌, ℕ, Bool, List, Option, IfOk, length, is_err};
ghost use Rattle.std.specs.Io.KnownBytes.{ReadConsumes, WriteAppends};
ghost use Rattle.cv_loop.specs.Ends.{gave_none, took_none};

/// A read or a write failed.
#[derive(Clone, Copy, Debug, PartialEq, Eq)]
pub struct Failed;

/// Where bytes come from.
pub trait Source {
    /// The bytes that pulls will still give, if they are known.
    ghost left: { Self → Option (List ℕ) };

    /// How many pulls were made.
    ghost pulls: { Self → ℕ };

    /// Whether a pull into a slice that is not empty returned 0 bytes.
    ghost met_end: { Self → Bool };

    /// Whether a pull failed.
    ghost has_failed: { Self → Bool };

    /// Reads once, into the start of `buf`, and returns the number of bytes read: 0 is the end, unless `buf` is empty.
    fn pull(&mut self, buf: &mut [u8]) -> Result<usize, Failed>
        requires { pulls self.old < 2 ^ 64 - 1 }
        ensures bound { IfOk result (λ n. n ≤ length buf.new) }
        ensures bytes { ReadConsumes (left self.old) (left self.new) result buf.new }
        ensures count { pulls self.new ≡ pulls self.old + 1 }
        ensures end { met_end self.new ≡ (met_end self.old || gave_none result (length buf.new)) }
        ensures failed { has_failed self.new ≡ (has_failed self.old || is_err result) };
}

/// Where bytes go.
pub trait Sink {
    /// The bytes that the sink had at first and those that it took after them, if they are known.
    ghost held: { Self → Option (List ℕ) };

    /// Whether a push failed, or took no byte of a slice that is not empty.
    ghost has_failed: { Self → Bool };

    /// Writes once, from the start of `bytes`, and returns the number of bytes taken.
    fn push(&mut self, bytes: &[u8]) -> Result<usize, Failed>
        ensures bound { IfOk result (λ n. n ≤ length bytes.now) }
        ensures bytes { WriteAppends (held self.old) (held self.new) result bytes.now }
        ensures failed { has_failed self.new ≡ (has_failed self.old || took_none result (length bytes.now)) };
}
