//! The end of a line.

ghost use Rattle.std.specs.Prelude.{◌≡◌, ◌≢◌, ◌≤◌, ◌<◌, ◌+◌, ℕ, length, slice_index};

use std::simd::prelude::*;

/// How many bytes are tested at once.
const LANES: usize = 32;

/// Returns how many of 32 bytes from an index on precede the first line feed, or 32 if none is among them.
#[inline(always)]
fn before_feed(text: &[u8], from: usize) -> usize
    requires { from + 32 ≤ length text.now }
    ensures within { result ≤ 32 }
    ensures none { (k : ℕ) → k < result → slice_index text.now (from + k) ≢ 10 }
    ensures feed { result < 32 → slice_index text.now (from + result) ≡ 10 }
{
    let feeds = u8x32::from_slice(&text[from..])
        .simd_eq(u8x32::splat(b'\n'))
        .to_bitmask();
    if feeds == 0 {
        LANES
    } else {
        feeds.trailing_zeros() as usize
    }
}

/// Returns the index of the first line feed, or the text's length if there is none. It tests bytes one by one, from an
/// index on before which there is none.
#[inline(always)]
fn feed_from(text: &[u8], from: usize) -> usize
    requires from { from ≤ length text.now }
    requires none { (k : ℕ) → k < from → slice_index text.now k ≢ 10 }
    ensures within { result ≤ length text.now }
    ensures none { (k : ℕ) → k < result → slice_index text.now k ≢ 10 }
    ensures feed { result < length text.now → slice_index text.now result ≡ 10 }
{
    let mut n = from;
    while n < text.len() && text[n] != b'\n' {
        n += 1;
    }
    n
}

/// Returns how many bytes precede the first line feed, or the text's length if there is none.
#[inline]
pub(crate) fn feed_at(text: &[u8]) -> usize
    ensures within { result ≤ length text.now }
    ensures none { (k : ℕ) → k < result → slice_index text.now k ≢ 10 }
    ensures feed { result < length text.now → slice_index text.now result ≡ 10 }
{
    let mut n = 0;
    while text.len() - n >= LANES {
        let run = before_feed(text, n);
        if run < LANES {
            return n + run;
        }
        n += LANES;
    }
    feed_from(text, n)
}
