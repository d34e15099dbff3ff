//! Packing pairs of bytes.
ghost use Rattle.std.specs.Prelude.{◌≡◌, ◌+◌, ◌<◌, take, count_ones};
ghost use Rattle.cv_simd.specs.Compressed.{flags, from_pairs};

use crate::pair_indices::PAIR_INDICES;
use std::simd::prelude::*;

/// Packs eight pairs of bytes, one after the other. Of each pair it keeps the first byte, and the second if the pair's
/// bit in `two_byte_mask` is set. The lowest bit is that of the first pair. All bytes of the result after these are the
/// first byte of the first pair.
#[inline(always)]
pub fn compress_pairs(pairs: u8x16, two_byte_mask: u64) -> u8x16
    requires { two_byte_mask < 256 }
    ensures { take (8 + count_ones two_byte_mask) result ≡ from_pairs (flags 8 two_byte_mask) pairs }
{
    pairs.swizzle_dyn_within::<16>(u8x16::from_array(PAIR_INDICES[two_byte_mask as usize]))
}
