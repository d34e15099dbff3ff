//! Digits as vectors: sixteen at once.
ghost use Rattle.std.specs.Prelude.{◌≡◌, ◌+◌, ◌≤◌, ◌<◌, ℕ, true, length, get_or};
ghost use Rattle.cv_utf7.specs.Sets.{is_digit, value_of};

use cv_simd::{SIXTEEN, run_in};
use std::simd::prelude::*;

// The digits, as a set of bytes: it has an entry for each lower half of a byte, and an entry has a bit for each higher
// half.
#[rattlefmt::skip]
const DIGIT_SET: [u8; 16] = [
    0xA8, 0xF8, 0xF8, 0xF8, 0xF8, 0xF8, 0xF8, 0xF8, 0xF8, 0xF8, 0xF0, 0x54, 0x50, 0x50, 0x50, 0x54,
];

// What is added to a digit, modulo 256, to get its value, for each higher half of a digit. For `/` it is entry 1.
#[rattlefmt::skip]
const ADDED: [u8; 16] = [0, 16, 19, 4, 191, 191, 185, 185, 0, 0, 0, 0, 0, 0, 0, 0];

// Sixteen bytes with each bit set, and then sixteen with none.
#[rattlefmt::skip]
static KEPT: [u8; 32] = [
    255, 255, 255, 255, 255, 255, 255, 255, 255, 255, 255, 255, 255, 255, 255, 255,
    0, 0, 0, 0, 0, 0, 0, 0, 0, 0, 0, 0, 0, 0, 0, 0,
];

// The indexes of sixteen bytes, and then the last of them again.
#[rattlefmt::skip]
static INDEXES: [u8; 32] = [
    0, 1, 2, 3, 4, 5, 6, 7, 8, 9, 10, 11, 12, 13, 14, 15,
    15, 15, 15, 15, 15, 15, 15, 15, 15, 15, 15, 15, 15, 15, 15, 15,
];

/// The sixteen bytes from index `at` on. In place of those that are missing at the end of the text it has any bytes.
#[inline(always)]
pub(crate) fn bytes_from(input: &[u8], at: usize) -> u8x16
    requires many { 16 ≤ length input.now }
    requires from { at ≤ length input.now }
    ensures { (i : ℕ) → i < 16 → at + i < length input.now
        → get_or result i 0 ≡ get_or input.now (at + i) 0 }
{
    let base = at.min(input.len() - SIXTEEN);
    let indexes = u8x16::from_slice(&INDEXES[at - base..]);
    u8x16::from_slice(&input[base..]).swizzle_dyn_within::<16>(indexes)
}

/// How many bytes from index `at` on are digits, before the first that is not: at most sixteen.
#[inline(always)]
pub(crate) fn digit_run(input: &[u8], at: usize) -> usize
    requires many { 16 ≤ length input.now }
    requires from { at ≤ length input.now }
    ensures within { at + result ≤ length input.now }
    ensures few { result ≤ 16 }
    ensures digits { (i : ℕ) → i < result → is_digit (get_or input.now (at + i) 0) ≡ true }
{
    run_in(DIGIT_SET, input, at)
}

/// The values of sixteen digits. For a byte that is no digit it has any value.
#[inline(always)]
#[tactic(auto, using(cv_block::proofs::Lanes::divisors))]
pub(crate) fn digit_values(bytes: u8x16) -> u8x16
    ensures { (i : ℕ) → i < 16 → is_digit (get_or bytes i 0) ≡ true
        → get_or result i 0 ≡ value_of (get_or bytes i 0) }
{
    let half = bytes / u8x16::splat(16);
    let entry = bytes
        .simd_eq(u8x16::splat(b'/'))
        .select(u8x16::splat(1), half);
    bytes + u8x16::from_array(ADDED).swizzle_dyn_within::<16>(entry)
}

/// The first `n` of sixteen values, and zeros in place of the others.
#[inline(always)]
pub(crate) fn first_values(values: u8x16, n: usize) -> u8x16
    requires { n ≤ 16 }
    ensures first { (i : ℕ) → i < n → get_or result i 0 ≡ get_or values i 0 }
    ensures others { (i : ℕ) → n ≤ i → i < 16 → get_or result i 0 ≡ 0 }
{
    values & u8x16::from_slice(&KEPT[SIXTEEN - n..])
}
