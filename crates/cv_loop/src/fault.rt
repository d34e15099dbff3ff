//! Why serving ended.

use cv_base::Memory;
use thiserror::Error;

/// Why serving ended before the stream did. Its text is the line that a user reads.
#[derive(Clone, Copy, Debug, PartialEq, Eq, Error)]
pub enum ServeFault {
    /// The stream ended within a frame.
    #[error("truncated frame")]
    TruncatedFrame,
    /// A frame began with a length that no frame has. The length counts the bytes after it: 9 to 1,048,576.
    #[error("bad length {length}")]
    BadLength { length: u32 },
    /// A read failed.
    #[error("read failed")]
    Read,
    /// A write failed or took no byte, after `written` bytes of replies.
    #[error("write failed after {written} bytes")]
    Write { written: u64 },
    /// The greatest number of reads was made, and the end was not reached.
    #[error("too many reads")]
    TooManyReads,
    /// An allocation failed for a buffer or a batch.
    #[error("out of memory")]
    Memory,
}

impl From<Memory> for ServeFault {
    ghost use Rattle.std.specs.Prelude.{◌≡◌};
    ghost use Rattle.cv_loop.specs.declared.fault.ServeFault.TheVariants as fault;

    ghost from_gives = { λ _ e. e ≡ fault.Memory };

    fn from(_e: Memory) -> ServeFault {
        ServeFault::Memory
    }
}
