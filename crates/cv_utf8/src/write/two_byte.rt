//! Writing units that have up to two bytes in UTF-8, sixteen at once.
ghost use Rattle.std.specs.Prelude.{◌≡◌, ◌+◌, ◌≤◌, ◌<◌, ℕ, List, length, get_or, map, take, drop};
ghost use Rattle.std.specs.List.{flat_map};
ghost use Rattle.std.specs.Simd.Lanes.{mask_l};
ghost use Rattle.cv_block.specs.Slack.{IsPutWithSlack};
ghost use Rattle.cv_utf8.specs.Utf8.{utf8_bytes};
ghost use Rattle.cv_utf8.specs.Private.TwoByte.{has_two, ArePairs};

use cv_simd::compress_pairs;
use std::simd::prelude::*;

/// How many pairs are packed at once.
const EIGHT: usize = 8;

/// Pairs of bytes for each of sixteen characters below U+0100: for the first eight, and for the others. The second byte
/// of a pair counts only if the character has two bytes.
#[inline(always)]
#[tactic(auto, using(cv_block::proofs::Lanes::divisors))]
fn latin1_pairs(characters: u8x16) -> (u8x16, u8x16)
    ensures first { ArePairs result.0 (take 8 characters) }
    ensures second { ArePairs result.1 (drop 8 characters) }
{
    let sixty_four = u8x16::splat(64);
    let two = characters / sixty_four + u8x16::splat(0xc0);
    let has_two = characters.simd_ge(u8x16::splat(0x80));
    let second = characters % sixty_four + u8x16::splat(0x80);
    has_two.select(two, characters).interleave(second)
}

/// Writes sixteen units, given a pair of bytes for each and a mask of those of two bytes, and returns how many bytes
/// they have.
#[inline(always)]
fn put_pairs(first: u8x16, second: u8x16, mask: u64, out: &mut [u8], at: usize) -> usize
    requires room { at + 32 ≤ length out.old }
    requires mask { mask < 65536 }
    ensures some { 16 ≤ result }
    ensures few { result ≤ 32 }
    ensures put { (units : List ℕ) → length units ≡ 16 → mask ≡ mask_l (map has_two units)
        → ArePairs first (take 8 units) → ArePairs second (drop 8 units)
        → IsPutWithSlack (flat_map utf8_bytes units) out.old at result 16 out.new }
{
    let low = mask % 256;
    compress_pairs(first, low).copy_to_slice(&mut out[at..]);
    let n = EIGHT + low.count_ones() as usize;
    let high = mask / 256;
    compress_pairs(second, high).copy_to_slice(&mut out[at + n..]);
    n + (EIGHT + high.count_ones() as usize)
}

/// Writes sixteen units of up to two bytes into a slice from index `at` on, and returns how many bytes they have. It
/// may also change up to sixteen bytes after them.
#[inline(always)]
#[tactic(auto, using(cv_block::proofs::Lanes::divisors))]
pub fn write_two_byte(units: u16x16, out: &mut [u8], at: usize) -> usize
    requires room { at + 32 ≤ length out.old }
    requires short { (k : ℕ) → k < 16 → get_or units k 0 < 0x800 }
    ensures some { 16 ≤ result }
    ensures few { result ≤ 32 }
    ensures put { IsPutWithSlack (flat_map utf8_bytes units) out.old at result 16 out.new }
{
    let sixty_four = u16x16::splat(64);
    let second = units % sixty_four * u16x16::splat(0x100);
    let two = units / sixty_four + second + u16x16::splat(0x80c0);
    let mask = units.simd_ge(u16x16::splat(0x80)).to_bitmask();
    let low = units.extract::<0, 8>();
    let high = units.extract::<8, 8>();
    let limit = u16x8::splat(0x80);
    let first = low.simd_ge(limit).select(two.extract::<0, 8>(), low);
    let second = high.simd_ge(limit).select(two.extract::<8, 8>(), high);
    put_pairs(first.to_le_bytes(), second.to_le_bytes(), mask, out, at)
}

/// Writes sixteen characters below U+0100 as `write_two_byte` does, in half the time.
#[inline(always)]
pub fn write_latin1(characters: u8x16, out: &mut [u8], at: usize) -> usize
    requires room { at + 32 ≤ length out.old }
    ensures some { 16 ≤ result }
    ensures few { result ≤ 32 }
    ensures put { IsPutWithSlack (flat_map utf8_bytes characters) out.old at result 16 out.new }
{
    let (first, second) = latin1_pairs(characters);
    let mask = characters.simd_ge(u8x16::splat(0x80)).to_bitmask();
    put_pairs(first, second, mask, out, at)
}
