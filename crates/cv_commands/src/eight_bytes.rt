//! Reads eight bytes in hexadecimal at once.
ghost use Rattle.std.specs.Prelude.{◌≡◌, ◌+◌, ◌*◌, ◌%◌, ◌<◌, ℕ, length, get_or, Some, None, MatchBool};
ghost use Rattle.cv_commands.specs.Words.{bytes_by_digits};
ghost use Rattle.cv_commands.specs.Private.Digits.{IsValue};

use std::simd::prelude::*;

/// How many bytes are read at once.
pub(crate) const EIGHT: usize = 8;

/// Returns the values of sixteen hexadecimal digits of either case, and 255 for a byte that is no digit.
#[inline(always)]
fn values_of(digits: u8x16) -> u8x16
    ensures { (k : ℕ) → k < 16 → IsValue (get_or digits k 0) (get_or result k 0) }
{
    let numbers = digits - u8x16::splat(b'0');
    let letters = (digits | u8x16::splat(0x20)) - u8x16::splat(b'a');
    let others = letters
        .simd_lt(u8x16::splat(6))
        .select(letters + u8x16::splat(10), u8x16::splat(255));
    numbers.simd_lt(u8x16::splat(10)).select(numbers, others)
}

/// Returns eight bytes, each made of the low halves of two values. The first value gives the high half of the byte.
#[inline(always)]
fn pack_digits(values: u8x16) -> u8x8
    ensures { (k : ℕ) → k < 8
        → get_or result k 0 ≡ 16 * (get_or values (2 * k) 0 % 16) + get_or values (2 * k + 1) 0 % 16 }
{
    let pairs = u16x8::from_le_bytes(values);
    let sixteen = u16x8::splat(16);
    let high = pairs % sixteen * sixteen;
    let low = pairs / u16x8::splat(256) % sixteen;
    (high + low).cast::<u8>()
}

/// Reads sixteen digits, two for each byte, and returns whether all are hexadecimal digits.
#[inline(always)]
pub(crate) fn read_eight(digits: &[u8], bytes: &mut [u8]) -> bool
    requires from { length digits.now ≡ 16 }
    requires to { length bytes.old ≡ 8 }
    ensures { MatchBool result (bytes_by_digits digits.now ≡ Some bytes.new) (bytes_by_digits digits.now ≡ None) }
{
    let values = values_of(u8x16::from_slice(digits));
    pack_digits(values).copy_to_slice(bytes);
    values.simd_ge(u8x16::splat(16)).to_bitmask() == 0
}
