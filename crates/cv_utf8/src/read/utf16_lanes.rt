//! Reading windows of UTF-8 as units of sixteen bits.
ghost use Rattle.std.specs.Prelude.{◌≡◌, ◌+◌, ◌≤◌, ◌<◌, ℕ, List, length, get_or, IfSome, false};
ghost use Rattle.cv_utf8.specs.Utf16Lanes.{AreLatin1, AreRead};
ghost use Rattle.cv_utf8.specs.Private.Utf8Short.{is_continuation, IsShortAt};
ghost use Rattle.cv_base.specs.Scalars.{IsScalar};
ghost use Rattle.cv_utf8.specs.Private.Utf8Threes.{AreScalarLanes};
ghost use Rattle.cv_utf8.specs.Private.Utf8Windows.{AreStarting};

use crate::read::masks::{Prefix, complete_prefix, is_continuation, lead_mask};
use crate::read::short::are_short;
use crate::read::three_byte::{may_be_several, three_byte_lanes};
use crate::read::windows::{may_be_high, short_values, whole_values};
use cv_block::LANES;
use cv_simd::compress_u16;
use std::simd::prelude::*;

/// How many lanes a part has.
pub(crate) const EIGHT: usize = 8;

/// Up to sixteen characters of up to three bytes, as units of sixteen bits in two parts.
#[derive(Clone, Copy)]
pub struct Utf16Lanes {
    /// The first part. The lanes after its characters may be anything.
    pub first: u16x8,
    /// How many characters the first part has, at most 8.
    pub firsts: usize,
    /// The second part, whose characters follow those of the first. The lanes after them may be anything.
    pub second: u16x8,
    /// How many characters the second part has, at most 8.
    pub seconds: usize,
    /// How many bytes all the characters have in UTF-8.
    pub used: usize,
}

/// The characters that begin among sixteen bytes, those of eight bytes at once.
#[inline(always)]
pub(crate) fn starting_lanes(numbers: &[u16; LANES], starts_mask: u64, used: usize) -> Utf16Lanes
    requires long { length numbers.now ≡ 16 }
    requires few { starts_mask < 0x10000 }
    ensures read { (text : List ℕ) (at : ℕ) → AreStarting text at numbers.now starts_mask used
        → AreRead text at result }
    ensures scalars { ((k : ℕ) → k < 16 → IsScalar (get_or numbers.now k 0)) → AreScalarLanes result }
    ensures bytes { ((k : ℕ) → k < 16 → get_or numbers.now k 0 < 256) → AreLatin1 result }
{
    let low = u16x8::from_slice(numbers);
    let high = u16x8::from_slice(&numbers[EIGHT..]);
    let lows = starts_mask % 256;
    let highs = starts_mask / 256;
    Utf16Lanes {
        first: compress_u16(low, lows),
        firsts: lows.count_ones() as usize,
        second: compress_u16(high, highs),
        seconds: highs.count_ones() as usize,
        used,
    }
}

/// The characters that begin among sixteen bytes, if all have one or two bytes.
#[inline(always)]
pub(crate) fn short_lanes(input: &[u8], at: usize) -> Utf16Lanes
    requires within { at + 18 ≤ length input.now }
    requires short { (k : ℕ) → k < 16 → IsShortAt input.now (at + k) }
    requires begins { is_continuation (get_or input.now at 0) ≡ false }
    ensures read { AreRead input.now at result }
    ensures scalars { AreScalarLanes result }
{
    let used = LANES + is_continuation(input[at + LANES]) as usize;
    starting_lanes(&short_values(input, at), lead_mask(input, at), used)
}

/// The complete characters of up to three bytes at the start of sixteen bytes.
#[inline(always)]
pub(crate) fn complete_lanes(input: &[u8], at: usize) -> Utf16Lanes
    requires { at + 18 ≤ length input.now }
    ensures read { AreRead input.now at result }
    ensures scalars { AreScalarLanes result }
{
    let Prefix { used, starts_mask } = complete_prefix(input, at);
    starting_lanes(&whole_values(input, at), starts_mask, used)
}

/// Reads up to sixteen characters of three bytes from `at` on, if several follow each other. Otherwise it reads the
/// characters of up to three bytes that begin among the sixteen bytes from `at` on, up to the first that has four bytes
/// or is ill-formed. The input has at least 18 bytes from `at` on.
#[inline(always)]
pub fn read_utf16_lanes(input: &[u8], at: usize) -> Utf16Lanes
    requires { at + 18 ≤ length input.now }
    ensures { AreRead input.now at result }
{
    if !may_be_high(input, at) {
        if !is_continuation(input[at]) && are_short(input, at) {
            return short_lanes(input, at);
        }
    } else if may_be_several(input, at) {
        if let Some(units) = three_byte_lanes(input, at) {
            return units;
        }
    }
    complete_lanes(input, at)
}
