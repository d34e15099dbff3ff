//! Sets of bytes. Sixteen bytes are tested at once: each is looked up by its two halves of four bits.
ghost use Rattle.std.specs.Prelude.{◌≡◌, ◌≤◌, ◌<◌, ◌+◌, ◌/◌, ℕ, true, false, cond, map, length, get_or, bit_and};
ghost use Rattle.std.specs.Int.{bit_at};
ghost use Rattle.cv_simd.specs.ByteClasses.{half_bits, is_in};

use std::simd::prelude::*;

/// How many bytes are tested against a set at once.
pub const SIXTEEN: usize = 16;

/// A set of bytes. It has an entry for each lower half of a byte, from 0 to 15, and an entry has a bit for each higher
/// half from 0 to 7: the byte `16*h+l` is in the set if entry `l` has bit `h`. No byte from 0x80 on is in a set.
pub type ByteClass = [u8; 16];

// The bit of each higher half of a byte. A half of 8 or more has none.
#[rattlefmt::skip]
const HALF_BITS: [u8; 16] = [
    0x01, 0x02, 0x04, 0x08, 0x10, 0x20, 0x40, 0x80, 0x00, 0x00, 0x00, 0x00, 0x00, 0x00, 0x00, 0x00,
];

/// Returns for each of sixteen bytes the set's entry for its lower half.
#[inline(always)]
fn by_lower_half(class: ByteClass, bytes: u8x16) -> u8x16
    ensures { result ≡ map (λ b. get_or class (bit_and b 15) 0) bytes }
{
    u8x16::from_array(class).swizzle_dyn_within::<16>(bytes & u8x16::splat(15))
}

/// Returns for each of sixteen bytes the bit of its higher half.
#[inline(always)]
fn by_higher_half(bytes: u8x16) -> u8x16
    ensures { result ≡ map (λ b. get_or half_bits (b / 16) 0) bytes }
{
    u8x16::from_array(HALF_BITS).swizzle_dyn_within::<16>(bytes >> u8x16::splat(4))
}

/// Returns a mask whose bit `i` is set if the `i`th of sixteen bytes is not in a set. Bit 16 is set.
#[inline(always)]
fn sixteen_outside(class: ByteClass, bytes: u8x16) -> u64
    ensures outside { (i : ℕ) → i < 16 → bit_at result i ≡ cond (is_in class (get_or bytes i 0)) 0 1 }
    ensures end { bit_at result 16 ≡ 1 }
{
    let found = by_lower_half(class, bytes) & by_higher_half(bytes);
    found.simd_eq(u8x16::splat(0)).to_bitmask() | 1 << SIXTEEN
}

/// Returns how many bits from `index` on are clear before the first that is set. Bit 16 is set.
#[inline(always)]
fn run_at(stops: u64, index: usize) -> usize
    requires index { index ≤ 16 }
    requires end { bit_at stops 16 ≡ 1 }
    ensures within { index + result ≤ 16 }
    ensures clear { (i : ℕ) → i < result → bit_at stops (index + i) ≡ 0 }
    ensures set { bit_at stops (index + result) ≡ 1 }
{
    (stops >> index).trailing_zeros() as usize
}

/// Returns how many bytes from an index on are in a set, before the first that is not: at most sixteen.
#[inline(always)]
pub fn run_in(class: ByteClass, bytes: &[u8], from: usize) -> usize
    requires many { 16 ≤ length bytes.now }
    requires from { from ≤ length bytes.now }
    ensures within { from + result ≤ length bytes.now }
    ensures few { result ≤ 16 }
    ensures members { (i : ℕ) → i < result → is_in class (get_or bytes.now (from + i) 0) ≡ true }
    ensures stop { (result < 16) → from + result < length bytes.now
        → is_in class (get_or bytes.now (from + result) 0) ≡ false }
{
    // Near the end of the text, the last sixteen bytes are tested.
    let base = from.min(bytes.len() - SIXTEEN);
    let stops = sixteen_outside(class, u8x16::from_slice(&bytes[base..]));
    run_at(stops, from - base)
}

/// Returns how many bytes at the start are in a set, before the first that is not. It tests sixteen at once, and ends
/// when fewer than sixteen are left, which are not tested.
#[inline(always)]
pub fn prefix_in(class: ByteClass, bytes: &[u8]) -> usize
    ensures within { result ≤ length bytes.now }
    ensures members { (i : ℕ) → i < result → is_in class (get_or bytes.now i 0) ≡ true }
    ensures stop { result + 16 ≤ length bytes.now → is_in class (get_or bytes.now result 0) ≡ false }
{
    let mut n = 0;
    while bytes.len() - n >= SIXTEEN {
        let run = run_in(class, bytes, n);
        if run < SIXTEEN {
            return n + run;
        }
        n += SIXTEEN;
    }
    n
}
