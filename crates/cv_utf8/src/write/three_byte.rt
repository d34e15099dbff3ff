//! Writing units that have up to three bytes in UTF-8, sixteen at once.
ghost use Rattle.std.specs.Prelude.{◌≡◌, ◌+◌, ◌≤◌, ◌<◌, ℕ, List, length, get_or, map};
ghost use Rattle.std.specs.List.{flat_map};
ghost use Rattle.std.specs.Simd.Lanes.{mask_l};
ghost use Rattle.cv_block.specs.Slack.{IsPutWithSlack};
ghost use Rattle.cv_utf8.specs.Utf8.{utf8_bytes};
ghost use Rattle.cv_utf8.specs.Private.TwoByte.{has_two};
ghost use Rattle.cv_utf8.specs.Private.ThreeByte.{has_three, quad_of, first_two_of, third_of, size_bits};
ghost use Rattle.cv_utf8.specs.Private.ThreeByte.{AreSplit, AreThreeByte};

use crate::write::size_masks::{three_byte_mask, two_byte_mask};
use crate::write::units::{first_eight, last_eight};
use cv_simd::compress_triples;
use std::simd::prelude::*;

/// How many units are packed at once.
const FOUR: usize = 4;

/// The first two bytes of each unit, the first as the low byte. If it has a single byte, the second is 0.
#[inline(always)]
#[tactic(auto, using(cv_block::proofs::Lanes::divisors))]
fn first_bytes(units: u16x16) -> u16x16
    requires { (k : ℕ) → k < 16 → get_or units k 0 < 0x10000 }
    ensures { result ≡ map first_two_of units }
{
    let sixty_four = u16x16::splat(64);
    let byte = u16x16::splat(0x100);
    let sixes = units / sixty_four;
    let two = sixes + units % sixty_four * byte + u16x16::splat(0x80c0);
    let second = sixes % sixty_four * byte;
    let three = units / u16x16::splat(4096) + second + u16x16::splat(0x80e0);
    let up_to_two = units.simd_ge(u16x16::splat(0x80)).select(two, units);
    units.simd_ge(u16x16::splat(0x800)).select(three, up_to_two)
}

/// The third byte of each unit, or 0 if it has none.
#[inline(always)]
#[tactic(auto, using(cv_block::proofs::Lanes::divisors))]
fn third_bytes(units: u16x16) -> u16x16
    ensures { result ≡ map third_of units }
{
    let last = units % u16x16::splat(64) + u16x16::splat(0x80);
    let have_three = units.simd_ge(u16x16::splat(0x800));
    have_three.select(last, u16x16::splat(0))
}

/// Writes four units of up to three bytes, given four bytes for each and bits for their sizes, and returns how many
/// bytes they have.
#[inline(always)]
fn put_quads(quads: u8x16, sizes: u64, out: &mut [u8], at: usize) -> usize
    requires room { at + 16 ≤ length out.old }
    requires sizes { sizes < 256 }
    ensures some { 4 ≤ result }
    ensures few { result ≤ 12 }
    ensures put { (units : List ℕ) → length units ≡ 4 → AreThreeByte units
        → quads ≡ flat_map quad_of units → sizes ≡ size_bits units
        → IsPutWithSlack (flat_map utf8_bytes units) out.old at result 16 out.new }
{
    let bytes = compress_triples(quads, sizes);
    bytes.copy_to_slice(&mut out[at..]);
    FOUR + sizes.count_ones() as usize
}

/// Writes eight units, given their first two bytes and their third, and masks of those of two bytes or more and of
/// three. Returns how many bytes they have.
#[inline(always)]
fn write_quads(
    parts: (u16x8, u16x8),
    two_or_more: u64,
    three: u64,
    out: &mut [u8],
    at: usize,
) -> usize
    requires room { at + 32 ≤ length out.old }
    requires two_or_more { two_or_more < 256 }
    requires three { three < 256 }
    ensures some { 8 ≤ result }
    ensures few { result ≤ 24 }
    ensures put { (units : List ℕ) → AreSplit parts.0 parts.1 units → two_or_more ≡ mask_l (map has_two units)
        → three ≡ mask_l (map has_three units)
        → IsPutWithSlack (flat_map utf8_bytes units) out.old at result 16 out.new }
{
    let (first, second) = parts.0.interleave(parts.1);
    let n = put_quads(
        first.to_le_bytes(),
        two_or_more % 16 + 16 * (three % 16),
        out,
        at,
    );
    let high = two_or_more / 16 + 16 * (three / 16);
    n + put_quads(second.to_le_bytes(), high, out, at + n)
}

/// Writes sixteen units of up to three bytes into a slice from index `at` on, and returns how many bytes they have. It
/// may also change up to sixteen bytes after them.
#[inline(always)]
pub fn write_three_byte(units: u16x16, out: &mut [u8], at: usize) -> usize
    requires room { at + 64 ≤ length out.old }
    requires middle { (k : ℕ) → k < 16 → get_or units k 0 < 0x10000 }
    ensures some { 16 ≤ result }
    ensures few { result ≤ 48 }
    ensures put { IsPutWithSlack (flat_map utf8_bytes units) out.old at result 16 out.new }
{
    let two_or_more = two_byte_mask(units);
    let three = three_byte_mask(units);
    let first_two = first_bytes(units);
    let third = third_bytes(units);
    let first = (first_eight(first_two), first_eight(third));
    let n = write_quads(first, two_or_more % 256, three % 256, out, at);
    let second = (last_eight(first_two), last_eight(third));
    n + write_quads(second, two_or_more / 256, three / 256, out, at + n)
}
