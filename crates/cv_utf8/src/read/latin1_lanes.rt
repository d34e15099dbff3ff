//! Reading windows of UTF-8 whose characters are all below U+0100.
ghost use Rattle.std.specs.Prelude.{◌≡◌, ◌+◌, ◌≤◌, ◌<◌, ℕ, length, get_or, IfSome};
ghost use Rattle.cv_utf8.specs.Utf16Lanes.{AreRead, AreLatin1};
ghost use Rattle.cv_utf8.specs.Private.Utf8Short.{short_value};

use crate::read::masks::{is_continuation, lead_mask};
use crate::read::short::are_latin1;
use crate::read::utf16_lanes::{Utf16Lanes, starting_lanes};
use crate::read::windows::short_low;
use cv_block::LANES;
use std::simd::prelude::*;

/// Returns the numbers of the characters that begin at each of sixteen bytes, if they are below U+0100.
#[inline(always)]
fn latin1_values(input: &[u8], at: usize) -> [u16; LANES]
    requires within { at + 17 ≤ length input.now }
    requires low { (k : ℕ) → k < 16 → get_or input.now (at + k) 0 ≤ 0xc3 }
    ensures few { (k : ℕ) → k < 16 → get_or result k 0 < 256 }
    ensures values { (k : ℕ) → k < 16 → get_or result k 0 ≡ short_value input.now (at + k) }
{
    let first = u8x16::from_slice(&input[at..]);
    let second = u8x16::from_slice(&input[at + 1..]);
    short_low(first, second).cast::<u16>().to_array()
}

/// Reads the characters that begin among sixteen bytes, if all are below U+0100. The input has at least 18 bytes from
/// `at` on.
#[inline(always)]
pub fn read_latin1_lanes(input: &[u8], at: usize) -> Option<Utf16Lanes>
    requires { at + 18 ≤ length input.now }
    ensures read { IfSome result (λ units. AreRead input.now at units) }
    ensures bytes { IfSome result (λ units. AreLatin1 units) }
{
    if is_continuation(input[at]) || !are_latin1(input, at) {
        return None;
    }
    let used = LANES + is_continuation(input[at + LANES]) as usize;
    let values = latin1_values(input, at);
    Some(starting_lanes(&values, lead_mask(input, at), used))
}
