//! Packing groups of up to three bytes.
ghost use Rattle.std.specs.Prelude.{◌≡◌, ◌+◌, ◌/◌, ◌<◌, take, count_ones};
ghost use Rattle.cv_simd.specs.Compressed.{flags, from_triples};

use crate::triple_indices::TRIPLE_INDICES;
use std::simd::prelude::*;

/// Packs four groups of four bytes, one after the other. Of each group it keeps the first byte, the second if the
/// group's bit among the four lowest bits of `sizes` is set, and the third if its bit among the next four is set. All
/// bytes of the result after these are the first byte of the first group.
#[inline(always)]
pub fn compress_triples(groups: u8x16, sizes: u64) -> u8x16
    requires { sizes < 256 }
    ensures { take (4 + count_ones sizes) result
        ≡ from_triples (flags 4 sizes) (flags 4 (sizes / 16)) groups }
{
    groups.swizzle_dyn_within::<16>(u8x16::from_array(TRIPLE_INDICES[sizes as usize]))
}
