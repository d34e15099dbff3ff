//! Finds where a line or a word ends.
ghost use Rattle.std.specs.Prelude.{◌≡◌, ◌≤◌, ◌<◌, ◌+◌, ◌==◌, ℕ, true, false, length, get_or, slice_index, take, drop};
ghost use Rattle.std.specs.List.{position_or_len};

use std::simd::prelude::*;

/// How many bytes are compared at once.
const BLOCK: usize = 16;

/// How many bytes of a long word or line are compared at once.
const LONG_BLOCK: usize = 64;

/// Returns how many bytes of the block at `at` precede the first `byte`, or 16 if it has none.
#[inline(always)]
fn before_in_block(byte: u8, text: &[u8], at: usize) -> usize
    requires { at + 16 ≤ length text.now }
    ensures { result ≡ position_or_len (λ b. b == byte) (take 16 (drop at text.now)) }
{
    let found = u8x16::from_slice(&text[at..])
        .simd_eq(u8x16::splat(byte))
        .to_bitmask();
    if found == 0 {
        BLOCK
    } else {
        found.trailing_zeros() as usize
    }
}

/// Returns whether the long block at `at` has no `byte`.
#[inline(always)]
fn is_without(byte: u8, text: &[u8], at: usize) -> bool
    requires { at + 64 ≤ length text.now }
    ensures { result ≡ true → (k : ℕ) → at ≤ k → k < at + 64 → (get_or text.now k 0 == byte) ≡ false }
{
    let found = u8x64::from_slice(&text[at..])
        .simd_eq(u8x64::splat(byte))
        .to_bitmask();
    found == 0
}

/// Returns where the long blocks without `byte` end that begin at `at`.
#[inline(never)]
fn past_long_blocks(byte: u8, text: &[u8], at: usize) -> usize
    requires { at ≤ length text.now }
    ensures from { at ≤ result }
    ensures within { result ≤ length text.now }
    ensures none { (k : ℕ) → at ≤ k → k < result → (get_or text.now k 0 == byte) ≡ false }
{
    let mut n = at;
    while text.len() - n >= LONG_BLOCK && is_without(byte, text, n) {
        n += LONG_BLOCK;
    }
    n
}

/// Returns how many bytes of a text precede the first `byte`, or the length of the text if it has none. Long blocks are
/// compared only after 64 bytes without it, by a function that is not inlined, so that short words and lines take
/// little longer. The last few bytes are compared one by one.
pub(crate) fn bytes_before(byte: u8, text: &[u8]) -> usize
    ensures value { result ≡ position_or_len (λ b. b == byte) text.now }
    ensures within { result ≤ length text.now }
{
    let mut n = 0;
    while text.len() - n >= BLOCK {
        let before = before_in_block(byte, text, n);
        n += before;
        if before < BLOCK {
            return n;
        }
        if n == LONG_BLOCK {
            n = past_long_blocks(byte, text, n);
        }
    }
    while n < text.len() && text[n] != byte {
        n += 1;
    }
    n
}
