//! Code units in sixteen digits, which are read at once.
ghost use Rattle.std.specs.Prelude.{◌≡◌, ◌+◌, ◌*◌, ◌≤◌, ◌<◌, ◌++◌, ℕ, IsTrue, MatchOption, true, false, length};
ghost use Rattle.std.specs.Prelude.{get_or, take};
ghost use Rattle.cv_block.specs.Surrogates.{IsSurrogate};
ghost use Rattle.cv_utf7.specs.Sets.{is_digit};
ghost use Rattle.cv_utf7.specs.Private.SixteenDigits.{AreQuads, AreUnits, Holds};
ghost use Rattle.cv_utf7.specs.Private.ReadSteps.{read_to, ReadsOn};

use crate::read::digit_bytes::{bytes_from, digit_run, digit_values, first_values};
use crate::sets::ends_sequence;
use cv_base::{Bits, ReadBlock, ReadState, Scalar};
use std::simd::prelude::*;

/// How many digits are read at once.
const DIGITS: usize = 16;

/// How many places of the buffer reading them needs.
pub(crate) const PLACES: usize = 8;

/// How many code units they hold.
const UNITS: usize = 6;

// For each smaller number of digits how many code units they hold, or 0 if fewer digits hold as many.
const UNITS_IN: [u8; 16] = [0, 0, 0, 1, 0, 0, 2, 0, 3, 0, 0, 4, 0, 0, 5, 0];

/// How many code units so many digits hold, or 0 if fewer digits hold as many.
#[inline(always)]
fn units_in(digits: usize) -> usize
    requires { digits < 16 }
    ensures { 0 < result → Holds digits result }
{
    UNITS_IN[digits] as usize
}

/// The four numbers of 24 bits that sixteen values spell.
#[inline(always)]
fn quads_of(values: u8x16) -> u32x4
    ensures { AreQuads values result }
{
    let digits = u16x8::from_le_bytes(values);
    let pairs = digits % u16x8::splat(256) * u16x8::splat(64) + digits / u16x8::splat(256);
    let halves = u32x4::from_le_bytes(pairs.to_le_bytes());
    halves % u32x4::splat(0x1_0000) * u32x4::splat(4096) + halves / u32x4::splat(0x1_0000)
}

/// The six code units that sixteen values spell, and two zeros.
#[inline(always)]
fn units_of(values: u8x16) -> u16x8
    requires { (i : ℕ) → i < 16 → get_or values i 0 < 64 }
    ensures { AreUnits values result }
{
    let bytes = quads_of(values).to_le_bytes();
    u16x8::from_le_bytes(bytes.swizzle::<16>([1, 2, 6, 0, 4, 5, 9, 10, 14, 8, 12, 13, 3, 3, 3, 3]))
}

/// Puts eight characters of one code unit each into the buffer, unless one is a surrogate. Returns whether it did.
#[inline(always)]
#[tactic(auto, using(cv_block::proofs::Lanes::divisors))]
fn put_units(units: u16x8, buffer: &mut [Scalar], n: usize) -> bool
    requires room { n + 8 ≤ length buffer.old }
    ensures put { IsTrue result → take (n + 8) buffer.new ≡ take n buffer.old ++ units }
    ensures scalars { IsTrue result → (i : ℕ) → i < 8 → IsSurrogate (get_or units i 0) → ⊥ }
    ensures not { result ≡ false → buffer.new ≡ buffer.old }
{
    let parts = units / u16x8::splat(0x800);
    if parts.simd_eq(u16x8::splat(27)).to_bitmask() != 0 {
        return false;
    }
    let units = units.to_array();
    for i in 0..PLACES {
        buffer[n + i] = Scalar::known(units[i] as u32);
    }
    true
}

/// Reads six characters of one code unit each from sixteen digits, unless a code unit is a surrogate: then it returns
/// `None`. It may change places of the buffer after those of the characters.
#[inline(always)]
fn read_six(
    pending: Bits,
    input: &[u8],
    at: usize,
    buffer: &mut [Scalar],
    n: usize,
) -> Option<ReadBlock>
    requires nothing { pending.count ≡ 0 }
    requires within { at + 16 ≤ length input.now }
    requires digits { (i : ℕ) → i < 16 → is_digit (get_or input.now (at + i) 0) ≡ true }
    requires room { n + 8 ≤ length buffer.old }
    ensures { MatchOption result (take n buffer.new ≡ take n buffer.old)
        (λ to. ReadsOn input.now (read_to (ReadState.Shifted pending) at n) buffer.old to buffer.new
        × (at < to.used)) }
{
    let values = digit_values(u8x16::from_slice(&input[at..]));
    if !put_units(units_of(values), buffer, n) {
        return None;
    }
    Some(ReadBlock {
        n: n + UNITS,
        used: at + DIGITS,
        next: ReadState::Shifted(pending),
    })
}

/// Reads the characters of one code unit each that up to sixteen digits hold, if no bits are pending before them, and
/// either sixteen are there or a byte that ends the sequence comes after the fewest that hold as many. Otherwise
/// returns `None`. It may change places of the buffer after those of the characters.
#[inline(always)]
pub(crate) fn read_sixteen(
    pending: Bits,
    input: &[u8],
    at: usize,
    buffer: &mut [Scalar],
    n: usize,
) -> Option<ReadBlock>
    requires within { at ≤ length input.now }
    requires room { n ≤ length buffer.old }
    ensures { MatchOption result (take n buffer.new ≡ take n buffer.old)
        (λ to. ReadsOn input.now (read_to (ReadState.Shifted pending) at n) buffer.old to buffer.new
        × (at < to.used)) }
{
    if pending.count != 0 || buffer.len() - n < PLACES {
        return None;
    }
    // Surrogates begin with these digits.
    if input.len() < DIGITS || at == input.len() || matches!(input[at], b'2' | b'3') {
        return None;
    }
    let digits = digit_run(input, at);
    if digits == DIGITS {
        return read_six(pending, input, at, buffer, n);
    }
    let units = units_in(digits);
    if units == 0 {
        return None;
    }
    let values = first_values(digit_values(bytes_from(input, at)), digits);
    if !put_units(units_of(values), buffer, n) {
        return None;
    }
    // The bits left over are those of one more code unit.
    if at + digits == input.len() || buffer[n + units].value() != 0 {
        return None;
    }
    let last = input[at + digits];
    if !ends_sequence(last) {
        return None;
    }
    buffer[n + units] = Scalar::known(last as u32);
    Some(ReadBlock {
        n: n + units + (last != b'-') as usize,
        used: at + digits + 1,
        next: ReadState::Start,
    })
}
