//! Eight characters of one or two bytes, with no branch for each.
ghost use Rattle.std.specs.Prelude.{◌≡◌, ◌≤◌, ◌<◌, ◌+◌, ℕ, List, length, slice_index};
ghost use Rattle.cv_simd.specs.Splits.{start_of, AreSplit, AreMarked};

use crate::split_tables::{SPLIT_INDICES, SPLIT_PATTERNS, SPLIT_SIZES};
use std::simd::prelude::*;

/// How many bytes of a text `split_double_bytes` needs to look at. Eight characters have at most 16 of them.
pub const SPLIT_WINDOW: usize = 24;

/// How many characters one row of a table splits.
const FOUR: usize = 4;

/// The bytes of four or of eight characters.
#[derive(Clone, Copy, Debug)]
pub struct Split {
    /// The first and the second byte of each, with a 0 as the second if it has only one.
    pub pairs: [u8; 16],
    /// How many bytes of the text the characters have.
    pub used: usize,
}

/// Which of sixteen bytes may be the first of two, as bits, the lowest for the first byte.
#[inline(always)]
fn lead_mask(text: &[u8], at: usize) -> u64
    requires { at + 16 ≤ length text.now }
    ensures { AreMarked text.now at 16 result }
{
    u8x16::from_slice(&text[at..])
        .simd_ge(u8x16::splat(128))
        .to_bitmask()
}

/// Splits four characters from index `at` on, given which bytes may be the first of two. After their pairs are zeros.
#[inline(always)]
fn split_four(text: &[u8], at: usize, mask: u64) -> Split
    requires within { at + 16 ≤ length text.now }
    requires few { mask < 256 }
    requires marked { AreMarked text.now at 8 mask }
    ensures few { result.used ≤ 8 }
    ensures split { AreSplit text.now at 4 result.pairs }
    ensures used { at + result.used ≡ start_of text.now at 4 }
{
    let indices = u8x16::from_array(SPLIT_INDICES[SPLIT_PATTERNS[mask as usize] as usize]);
    let pairs = u8x16::from_slice(&text[at..]).swizzle_dyn_within::<16>(indices);
    Split {
        pairs: pairs.to_array(),
        used: SPLIT_SIZES[mask as usize] as usize,
    }
}

/// The bytes of four characters and of the four after them.
#[inline(always)]
fn both_fours(first: &[u8; 16], second: &[u8; 16]) -> [u8; 16]
    ensures first { (k : ℕ) → k < 8 → slice_index result k ≡ slice_index first.now k }
    ensures second { (k : ℕ) → k < 8 → slice_index result (8 + k) ≡ slice_index second.now k }
{
    let mut pairs = *first;
    for k in 0..2 * FOUR {
        pairs[2 * FOUR + k] = second[k];
    }
    pairs
}

/// Splits eight characters from index `at` on: a byte of 128 or above and the next byte are one character, and a byte
/// below 128 is one by itself. It looks up one row of a table for the first four characters, and another for the four
/// after them. It tests the high bits of sixteen bytes at once, because otherwise each look-up would wait for them.
#[inline(always)]
pub fn split_double_bytes(text: &[u8], at: usize) -> Split
    requires { at + 24 ≤ length text.now }
    ensures few { result.used ≤ 16 }
    ensures split { AreSplit text.now at 8 result.pairs }
    ensures used { at + result.used ≡ start_of text.now at 8 }
{
    let mask = lead_mask(text, at);
    let first = split_four(text, at, mask % 256);
    let second = split_four(text, at + first.used, (mask >> first.used) % 256);
    Split {
        pairs: both_fours(&first.pairs, &second.pairs),
        used: first.used + second.used,
    }
}
