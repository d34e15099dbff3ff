//! Sixteen digits at once.
ghost use Rattle.std.specs.Prelude.{◌≡◌, ◌<◌, ℕ, take, get_or, length, map};
ghost use Rattle.std.specs.List.{flat_map};
ghost use Rattle.cv_utf7.specs.BitLists.{bits, digits};
ghost use Rattle.cv_utf7.specs.Private.Groups.{pairs_in, values_in, offset_index};
ghost use Rattle.cv_utf7.specs.Sets.{digit_of};

use std::simd::prelude::*;

/// Which bytes of six units, two for each, give the pairs of digits: twelve bits of each, the highest or the lowest of
/// sixteen.
const PAIRS: [u8; 16] = [0, 1, 3, 0, 5, 2, 4, 5, 6, 7, 9, 6, 11, 8, 10, 11];

/// What the first digit of a pair is divided by.
const FIRST: [u16; 8] = [1024, 64, 1024, 64, 1024, 64, 1024, 64];

/// What the second digit of a pair is divided by.
const SECOND: [u16; 8] = [16, 1, 16, 1, 16, 1, 16, 1];

/// What is added to a value to make the digit.
const OFFSETS: [u8; 16] = [
    71, 252, 252, 252, 252, 252, 252, 252, 252, 252, 252, 237, 240, 65, 0, 0,
];

/// The pairs of digits of six units.
#[inline(always)]
fn pairs_of(units: u16x8) -> u16x8
    ensures { result ≡ pairs_in units }
{
    let bytes = units
        .to_le_bytes()
        .swizzle_dyn_within::<16>(u8x16::from_array(PAIRS));
    u16x8::from_le_bytes(bytes)
}

/// The values of the digits of eight pairs.
#[inline(always)]
#[tactic(auto, using(cv_block::proofs::Lanes::divisors))]
fn values_of(pairs: u16x8) -> u8x16
    ensures { result ≡ values_in pairs }
{
    let sixty_four = u16x8::splat(64);
    let first = pairs / u16x8::from_array(FIRST) % sixty_four;
    let second = pairs / u16x8::from_array(SECOND) % sixty_four;
    (first + second * u16x8::splat(256)).to_le_bytes()
}

/// Where the offsets of values are.
#[inline(always)]
fn indexes_of(values: u8x16) -> u8x16
    ensures { result ≡ map offset_index values }
{
    let above = values.saturating_sub(u8x16::splat(51));
    values
        .simd_lt(u8x16::splat(26))
        .select(u8x16::splat(13), above)
}

/// The digits of sixteen values.
#[inline(always)]
fn digits_for(values: u8x16) -> u8x16
    requires { (k : ℕ) → k < 16 → get_or values k 0 < 64 }
    ensures { result ≡ map digit_of values }
{
    values + u8x16::from_array(OFFSETS).swizzle_dyn_within::<16>(indexes_of(values))
}

/// The sixteen digits of the first six of eight units.
#[inline(always)]
pub(crate) fn sixteen_digits(units: u16x8) -> u8x16
    ensures { result ≡ digits (flat_map (bits 16) (take 6 units)) }
{
    digits_for(values_of(pairs_of(units)))
}
