//! Packing the numbers of a vector that are kept.
ghost use Rattle.std.specs.Prelude.{◌≡◌, ◌<◌, ℕ, take, get_or, count_ones};
ghost use Rattle.cv_simd.specs.Compressed.{kept, IsOneOf};

use crate::number_indices::NUMBER_INDICES;
use std::simd::prelude::*;

/// Returns those of eight numbers whose bit in `mask` is set, one after the other. The lowest bit is that of the first
/// number. All numbers of the result after these are the first of the eight.
#[inline(always)]
pub fn compress_u16(numbers: u16x8, mask: u64) -> u16x8
    requires { mask < 256 }
    ensures prefix { take (count_ones mask) result ≡ kept mask numbers }
    ensures all { (k : ℕ) → k < 8 → IsOneOf numbers (get_or result k 0) }
{
    let indices = u8x16::from_array(NUMBER_INDICES[mask as usize]);
    let bytes = numbers.to_le_bytes().swizzle_dyn_within::<16>(indices);
    u16x8::from_le_bytes(bytes)
}
