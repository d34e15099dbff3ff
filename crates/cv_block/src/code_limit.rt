//! Which characters a run has, known at compile time, so that each loop over runs is written once.
ghost use Rattle.std.specs.Prelude.{◌≡◌, ◌≤◌, ◌<◌, ◌+◌, ℕ, length, slice_index, IsTrue};

use crate::ascii_bytes::is_ascii_block;

/// The characters below a limit.
pub(crate) trait CodeLimit {
    ghost limit: { ℕ };

    /// Returns the limit that they are below. It is at most 256.
    fn limit() -> u32
        ensures value { result ≡ limit }
        ensures few { limit ≤ 0x100 };

    /// Whether it is faster to test the bitwise OR of many units than each of them. It affects speed only.
    const JOINS: bool;

    /// Returns whether the sixteen bytes from index `at` on are characters of the run.
    fn are_bytes(bytes: &[u8], at: usize) -> bool
        requires { at + 16 ≤ length bytes.now }
        ensures { IsTrue result → (k : ℕ) → at ≤ k → k < at + 16 → slice_index bytes.now k < limit };
}

/// The characters of US-ASCII.
pub(crate) struct AsciiLimit;

impl CodeLimit for AsciiLimit {
    ghost limit = { 128 };

    // LLVM tests the bits of each in place, whatever the byte order.
    const JOINS: bool = false;

    #[inline(always)]
    fn limit() -> u32 {
        128
    }

    #[inline(always)]
    fn are_bytes(bytes: &[u8], at: usize) -> bool {
        is_ascii_block(bytes, at)
    }
}

/// The characters of ISO-8859-1, which are all bytes.
pub(crate) struct Latin1Limit;

impl CodeLimit for Latin1Limit {
    ghost limit = { 0x100 };

    const JOINS: bool = true;

    #[inline(always)]
    fn limit() -> u32 {
        0x100
    }

    #[inline(always)]
    fn are_bytes(_bytes: &[u8], _at: usize) -> bool {
        true
    }
}
