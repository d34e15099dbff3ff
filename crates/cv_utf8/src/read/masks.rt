//! Masks of sixteen bytes of UTF-8: which of them are of a kind, and how many are complete characters.
ghost use Rattle.std.specs.Prelude.{◌≡◌, ◌+◌, ◌-◌, ◌*◌, ◌/◌, ◌%◌, ◌≤◌, ◌<◌, ℕ, length, get_or, cond, nat_lt, map};
ghost use Rattle.std.specs.Prelude.{false};
ghost use Rattle.std.specs.Int.{bit_at};
ghost use Rattle.std.specs.Simd.Lanes.{mask_l};
ghost use Rattle.cv_utf8.specs.Private.Utf8Short.{is_among, is_continuation};
ghost use Rattle.cv_utf8.specs.Private.Utf8Windows.{AreComplete, AreMarks, IsTwoAt, IsThreeAt, three_high};

use cv_block::LANES;
use std::simd::prelude::*;

/// Returns a mask of those of sixteen bytes that are among the `many` values from `least` on. The lowest bit is the
/// first byte's.
#[inline(always)]
pub(crate) fn among(bytes: u8x16, least: u8, many: u8) -> u64
    ensures { result ≡ mask_l (map (is_among least many) bytes) }
{
    (bytes - u8x16::splat(least))
        .simd_lt(u8x16::splat(many))
        .to_bitmask()
}

/// Returns a mask of those of sixteen bytes that are no continuation bytes.
#[inline(always)]
pub(crate) fn lead_mask(input: &[u8], at: usize) -> u64
    requires { at + 16 ≤ length input.now }
    ensures few { result < 0x10000 }
    ensures bits { (k : ℕ) → k < 16 → bit_at result k
        ≡ cond (is_continuation (get_or input.now (at + k) 0)) 0 1 }
{
    among(u8x16::from_slice(&input[at..]), 0xc0, 0xc0)
}

/// Returns whether the byte is a continuation byte, 80 to BF.
#[inline(always)]
pub(crate) fn is_continuation(byte: u8) -> bool
    ensures { result ≡ is_continuation byte }
{
    byte / 64 == 2
}

/// A mask of those of sixteen bytes that begin a character of two bytes.
#[inline(always)]
fn two_byte_mask(input: &[u8], at: usize) -> u64
    requires { at + 18 ≤ length input.now }
    ensures { AreMarks (IsTwoAt input.now) at result }
{
    let firsts = among(u8x16::from_slice(&input[at..]), 0xc2, 0x1e);
    firsts & among(u8x16::from_slice(&input[at + 1..]), 0x80, 0x40)
}

/// Returns the high bytes of the numbers of characters of three bytes, from their first and second bytes. A surrogate
/// has 0 instead.
#[inline(always)]
#[tactic(auto, using(cv_block::proofs::Lanes::divisors))]
pub(crate) fn three_high(first: u8x16, second: u8x16) -> u8x16
    ensures long { length result ≡ 16 }
    ensures bytes { (k : ℕ) → k < 16 → get_or result k 0
        ≡ three_high (get_or first k 0) (get_or second k 0) }
{
    let high = first * u8x16::splat(16) + second % u8x16::splat(64) / u8x16::splat(4);
    let are_surrogates = (high / u8x16::splat(8)).simd_eq(u8x16::splat(27));
    are_surrogates.select(u8x16::splat(0), high)
}

/// A mask of those of sixteen bytes that begin a character of three bytes. The high byte of its number is at least 8:
/// an overlong sequence has a lower one, and a surrogate has 0 instead.
#[inline(always)]
fn three_byte_mask(input: &[u8], at: usize) -> u64
    requires { at + 18 ≤ length input.now }
    ensures { AreMarks (IsThreeAt input.now) at result }
{
    let bytes = u8x16::from_slice(&input[at..]);
    let behind = u8x16::from_slice(&input[at + 1..]);
    let firsts = among(bytes, 0xe0, 0x10) & among(behind, 0x80, 0x40);
    let high = among(three_high(bytes, behind), 0x08, 0xf8);
    firsts & high & among(u8x16::from_slice(&input[at + 2..]), 0x80, 0x40)
}

/// The complete characters of up to three bytes at the start of sixteen bytes: how many bytes they have together, which
/// may be up to two more than sixteen, and a mask of the bytes that begin one.
pub(crate) struct Prefix {
    pub(crate) used: usize,
    pub(crate) starts_mask: u64,
}

/// Returns the complete characters of up to three bytes at the start of sixteen bytes.
#[inline(always)]
pub(crate) fn complete_prefix(input: &[u8], at: usize) -> Prefix
    requires { at + 18 ≤ length input.now }
    ensures complete_prefix { AreComplete input.now at result.used }
    ensures few { result.starts_mask < 0x10000 }
    ensures bits { (k : ℕ) → k < 16 → bit_at result.starts_mask k
        ≡ cond (is_continuation (get_or input.now (at + k) 0)) 0 (cond (nat_lt k result.used) 1 0) }
{
    let one = among(u8x16::from_slice(&input[at..]), 0, 0x80);
    let two = two_byte_mask(input, at);
    let three = three_byte_mask(input, at);
    let firsts = one | two | three;
    let covered = firsts | (two | three) << 1 | three << 2;
    let used = covered.trailing_ones() as usize;
    let starts_mask = firsts & ((1 << used) - 1);
    Prefix { used, starts_mask }
}
