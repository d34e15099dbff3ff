//! Reading characters of UTF-8 that have three bytes each, sixteen at once.
ghost use Rattle.std.specs.Prelude.{◌≡◌, ◌+◌, ◌/◌, ◌%◌, ◌≤◌, ◌<◌, ℕ, length, get_or, IfSome, IsTrue};
ghost use Rattle.cv_utf8.specs.Utf16Lanes.{AreRead};
ghost use Rattle.cv_block.specs.StatelessForms.{IsReadForm};
ghost use Rattle.cv_utf8.specs.Utf8.{utf8_bytes};
ghost use Rattle.cv_utf8.specs.Private.Utf8Threes.{AreParts, AreScalarLanes, AreThrees, IsThreeOf};

use crate::read::put_lanes::put_lanes;
use crate::read::utf16_lanes::{EIGHT, Utf16Lanes};
use cv_base::Scalar;
use cv_block::Converted;
use std::simd::prelude::*;

/// How many bytes are loaded for sixteen characters, which have 48: the last four are read by a load of sixteen bytes.
pub(crate) const LOADED: usize = 52;

/// The least number of characters of three bytes that are read so. If they are fewer, a window of sixteen bytes has as
/// many.
const MIN_SEQUENCES: usize = 6;

/// The least first byte of a character of three bytes or more.
const THREE_BYTES: u8 = 0xe0;

/// The indices of four times three bytes, and after each three an index outside the vector, for which the lane becomes
/// 0.
const INDEXES: [u8; 16] = [0, 1, 2, 128, 3, 4, 5, 128, 6, 7, 8, 128, 9, 10, 11, 128];

/// Returns whether `LOADED` bytes are left from `at` on, and several characters of three bytes likely follow each other
/// there, by two of their first bytes. The latter affects speed only.
#[inline(always)]
pub(crate) fn may_be_several(text: &[u8], at: usize) -> bool
    requires { at ≤ length text.now }
    ensures { IsTrue result → at + 52 ≤ length text.now }
{
    text.len() - at >= LOADED && text[at] & text[at + 15] >= THREE_BYTES
}

/// What `may_be_several` returns, by three of the first bytes. So texts in which characters of two and of three bytes
/// alternate are not tried in vain.
#[inline(always)]
pub(crate) fn may_be_row(text: &[u8], at: usize) -> bool
    requires { at ≤ length text.now }
    ensures { IsTrue result → at + 52 ≤ length text.now }
{
    may_be_several(text, at) && text[at + 6] >= THREE_BYTES
}

/// The bytes of four characters of three bytes, as two numbers each: one has the first two bytes, the other the third.
#[inline(always)]
fn parts(text: &[u8], at: usize) -> u16x8
    requires { at + 16 ≤ length text.now }
    ensures { AreParts text.now at result }
{
    let bytes = u8x16::from_slice(&text[at..]);
    u16x8::from_le_bytes(bytes.swizzle_dyn_within::<16>(u8x16::from_array(INDEXES)))
}

/// The numbers of eight characters of three bytes, from their first two bytes and their third, or 0 for an ill-formed
/// one.
#[inline(always)]
#[tactic(auto, using(cv_block::proofs::Lanes::divisors))]
fn numbers_of(fronts: u16x8, lasts: u16x8) -> u16x8
    requires { (k : ℕ) → k < 8 → get_or lasts k 0 < 256 }
    ensures long { length result ≡ 8 }
    ensures numbers { (k : ℕ) → k < 8
        → IsThreeOf (get_or fronts k 0 % 256) (get_or fronts k 0 / 256) (get_or lasts k 0) (get_or result k 0) }
{
    let byte = u16x8::splat(0x100);
    let sixty_four = u16x8::splat(64);
    let first = fronts % byte;
    let second = fronts / byte;
    let high = first % u16x8::splat(16) * u16x8::splat(4096);
    let numbers = high + second % sixty_four * sixty_four + lasts % sixty_four;
    let zero = u16x8::splat(0);
    let after_first = (first / u16x8::splat(16))
        .simd_eq(u16x8::splat(14))
        .select(numbers, zero);
    let after_second = (second / sixty_four)
        .simd_eq(u16x8::splat(2))
        .select(after_first, zero);
    let after_third = (lasts / sixty_four)
        .simd_eq(u16x8::splat(2))
        .select(after_second, zero);
    let scalars = (numbers / u16x8::splat(0x800))
        .simd_eq(u16x8::splat(27))
        .select(zero, after_third);
    numbers.simd_lt(u16x8::splat(0x800)).select(zero, scalars)
}

/// The numbers of eight characters of three bytes each from `at` on, or 0 for an ill-formed one.
#[inline(always)]
fn eight_of(text: &[u8], at: usize) -> u16x8
    requires { at + 28 ≤ length text.now }
    ensures long { length result ≡ 8 }
    ensures numbers { AreThrees text.now at result 8 }
{
    let (fronts, lasts) = parts(text, at).deinterleave(parts(text, at + 12));
    numbers_of(fronts, lasts)
}

/// How many of eight numbers there are before the first 0.
#[inline(always)]
fn before_none(numbers: u16x8) -> usize
    ensures many { result ≤ 8 }
    ensures some { (k : ℕ) → k < result → 0 < get_or numbers k 0 }
{
    let none = numbers.simd_lt(u16x8::splat(1)).to_bitmask();
    EIGHT.min(none.trailing_zeros() as usize)
}

/// Returns up to sixteen characters of three bytes each, or `None` if fewer than `MIN_SEQUENCES` follow each other.
#[inline(always)]
pub(crate) fn three_byte_lanes(text: &[u8], at: usize) -> Option<Utf16Lanes>
    requires { at + 52 ≤ length text.now }
    ensures read { IfSome result (λ units. AreRead text.now at units) }
    ensures scalars { IfSome result AreScalarLanes }
    ensures some { IfSome result (λ units. 0 < units.firsts) }
{
    let first = eight_of(text, at);
    let second = eight_of(text, at + 24);
    let firsts = before_none(first);
    if firsts < MIN_SEQUENCES {
        return None;
    }
    let seconds = if firsts == EIGHT {
        before_none(second)
    } else {
        0
    };
    Some(Utf16Lanes {
        first,
        firsts,
        second,
        seconds,
        used: 3 * (firsts + seconds),
    })
}

/// Reads up to sixteen characters of three bytes each into a buffer, after its first `n`, or none if fewer than
/// `MIN_SEQUENCES` follow each other. Kept out of line to save registers in the callers' loops.
#[inline(never)]
pub(crate) fn read_three_byte(text: &[u8], at: usize, buffer: &mut [Scalar], n: usize) -> Converted
    requires within { at + 52 ≤ length text.now }
    requires room { n + 16 ≤ length buffer.old }
    ensures many { result.n ≤ 16 }
    ensures none { result.n ≡ 0 → buffer.new ≡ buffer.old }
    ensures read { IsReadForm utf8_bytes text.now at buffer.old n result buffer.new }
{
    let Some(units) = three_byte_lanes(text, at) else {
        return Converted { n: 0, used: 0 };
    };
    put_lanes(&units, buffer, n)
}
