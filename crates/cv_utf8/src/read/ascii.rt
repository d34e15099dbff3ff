//! Reading ASCII in UTF-8.
ghost use Rattle.std.specs.Prelude.{◌≡◌, ◌+◌, ◌++◌, ◌≤◌, ◌<◌, ℕ, length, take, drop, slice_index};
ghost use Rattle.cv_block.specs.StatelessForms.{IsReadForm};
ghost use Rattle.cv_utf8.specs.Utf8.{utf8_bytes};

use cv_base::Scalar;
use cv_block::{Converted, LANES};
use std::simd::prelude::*;

/// Writes sixteen bytes to a buffer, each as the character of its number. It loads all before it stores any, so that
/// all are stored at once.
#[inline(always)]
pub(crate) fn put_bytes(input: &[u8], at: usize, buffer: &mut [Scalar], n: usize)
    requires within { at + 16 ≤ length input.now }
    requires room { n + 16 ≤ length buffer.old }
    ensures stand { take (n + 16) buffer.new ≡ take n buffer.old ++ take 16 (drop at input.now) }
    ensures size { length buffer.new ≡ length buffer.old }
{
    let block = u8x16::from_slice(&input[at..]).to_array();
    for lane in 0..LANES {
        buffer[n + lane] = Scalar::known(block[lane] as u32);
    }
}

/// Reads sixteen characters of ASCII.
#[inline(always)]
pub(crate) fn read_ascii(input: &[u8], at: usize, buffer: &mut [Scalar], n: usize) -> Converted
    requires within { at + 16 ≤ length input.now }
    requires room { n + 16 ≤ length buffer.old }
    requires ascii { (k : ℕ) → at ≤ k → k < at + 16 → slice_index input.now k < 128 }
    ensures many { result.n ≤ 16 }
    ensures read { IsReadForm utf8_bytes input.now at buffer.old n result buffer.new }
{
    put_bytes(input, at, buffer, n);
    Converted {
        n: LANES,
        used: LANES,
    }
}
