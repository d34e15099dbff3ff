//! Writing units of ASCII, sixteen at once.
ghost use Rattle.std.specs.Prelude.{◌≡◌, ◌+◌, ◌≤◌, ◌<◌, ℕ, length, get_or};
ghost use Rattle.std.specs.List.{flat_map};
ghost use Rattle.cv_block.specs.Slack.{IsPutWithSlack};
ghost use Rattle.cv_utf8.specs.Utf8.{utf8_bytes};

use cv_block::LANES;
use std::simd::prelude::*;

/// Writes sixteen units of ASCII into a slice from index `at` on, and returns how many bytes they have.
#[inline(always)]
pub fn write_one_byte(units: u16x16, out: &mut [u8], at: usize) -> usize
    requires room { at + 16 ≤ length out.old }
    requires ascii { (k : ℕ) → k < 16 → get_or units k 0 < 0x80 }
    ensures size { result ≡ 16 }
    ensures put { IsPutWithSlack (flat_map utf8_bytes units) out.old at result 16 out.new }
{
    units.cast::<u8>().copy_to_slice(&mut out[at..]);
    LANES
}
