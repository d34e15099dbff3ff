//! UTF-8 as a stateless form.
ghost use Rattle.std.specs.Prelude.{◌≡◌, ◌+◌, ◌≤◌, ◌<◌, ℕ, length, take, drop, get_or};
ghost use Rattle.std.specs.Int.{to_le_bytes, w32};
ghost use Rattle.cv_base.specs.Scalars.{IsScalar};
ghost use Rattle.cv_base.specs.Items.{Begins};
ghost use Rattle.cv_block.specs.Units.{AreScalarsBelow};
ghost use Rattle.cv_block.specs.PackedWords.{AreWords, AreSizes};
ghost use Rattle.cv_utf8.specs.Utf8.{utf8_bytes};

use crate::read::character::{inner_at, last_at};
use crate::read::windows::read_many;
use crate::write::one_byte::write_one_byte;
use crate::write::three_byte::write_three_byte;
use crate::write::two_byte::write_two_byte;
use crate::write::units::units_of;
use cv_base::Scalar;
use cv_block::{Converted, LANES, PackedWords, StatelessForm, write_words};
use std::simd::prelude::*;

/// The stateless form of characters in UTF-8 (Unicode Standard, section 3.9, Table 3-6).
pub(crate) struct StatelessUtf8;

/// The bytes of a character, as a number whose lowest byte is the first. The bytes after those of the character may be
/// anything. The bits are spread to four bytes once, and a shorter character has the last of these.
#[inline(always)]
fn word(value: u32) -> u32
    requires { IsScalar value }
    ensures { Begins (utf8_bytes value) (to_le_bytes w32 result) }
{
    let low = (value / 64 % 64) * 0x1_0000 + (value % 64) * 0x100_0000;
    let bits = value / 262144 + (value / 4096 % 64) * 0x100 + low;
    let two = bits / 0x1_0000 + 0x80c0;
    let three = bits / 0x100 + 0x80_80e0;
    let four = bits + 0x8080_80f0;
    if value < 0x80 {
        value
    } else if value < 0x800 {
        two
    } else if value < 0x1_0000 {
        three
    } else {
        four
    }
}

/// The bytes of sixteen characters, each as `word` computes them.
#[inline(always)]
#[tactic(auto, using(cv_block::proofs::Lanes::divisors))]
fn words(values: u32x16) -> u32x16
    requires { AreScalarsBelow values 16 }
    ensures { AreWords utf8_bytes values result 16 }
{
    let sixty_four = u32x16::splat(64);
    let last = values % sixty_four * u32x16::splat(0x100_0000);
    let third = values / sixty_four % sixty_four * u32x16::splat(0x1_0000);
    let second = values / u32x16::splat(4096) % sixty_four * u32x16::splat(0x100);
    let bits = values / u32x16::splat(262144) + second + third + last;
    let two = bits / u32x16::splat(0x1_0000) + u32x16::splat(0x80c0);
    let three = bits / u32x16::splat(0x100) + u32x16::splat(0x80_80e0);
    let four = bits + u32x16::splat(0x8080_80f0);
    let up_to_two = values.simd_lt(u32x16::splat(0x80)).select(values, two);
    let up_to_three = values
        .simd_lt(u32x16::splat(0x800))
        .select(up_to_two, three);
    values
        .simd_lt(u32x16::splat(0x1_0000))
        .select(up_to_three, four)
}

/// How many bytes each of sixteen characters has.
#[inline(always)]
fn sizes(values: u32x16) -> u32x16
    ensures { AreSizes utf8_bytes values result 16 }
{
    let one = u32x16::splat(1);
    let none = u32x16::splat(0);
    let second = values.simd_ge(u32x16::splat(0x80)).select(one, none);
    let third = values.simd_ge(u32x16::splat(0x800)).select(one, none);
    let fourth = values.simd_ge(u32x16::splat(0x1_0000)).select(one, none);
    one + second + third + fourth
}

impl PackedWords for StatelessUtf8 {
    ghost bytes_of = { utf8_bytes };

    #[inline(always)]
    fn words(values: &[u32; LANES]) -> [u32; LANES] {
        words(u32x16::from_array(*values)).to_array()
    }

    #[inline(always)]
    fn sizes(values: &[u32; LANES]) -> [u32; LANES] {
        sizes(u32x16::from_array(*values)).to_array()
    }
}

impl StatelessForm for StatelessUtf8 {
    ghost bytes_of = { utf8_bytes };

    ghost ZERO_SIZE = { 1 };

    const RESUME_SIZE: usize = 1;

    const ZERO_SIZE: usize = 1;

    const MIN_AT_ONCE: usize = 8;

    #[inline(always)]
    fn assert_short() {}

    #[inline(always)]
    fn read_at(input: &[u8], at: usize) -> Option<(Scalar, usize)> {
        if input.len() - at >= 4 {
            return inner_at(input, at);
        }
        // `?` tests the result here alone, so that the result of `inner_at` is not tested twice.
        let read = last_at(input, at)?;
        Some(read)
    }

    #[inline(always)]
    fn read_many(input: &[u8], at: usize, buffer: &mut [Scalar], n: usize) -> Converted {
        read_many(input, at, buffer, n)
    }

    #[inline(always)]
    fn write_at(c: Scalar, out: &mut [u8], at: usize) -> usize {
        let value = c.value();
        out[at..at + 4].copy_from_slice(&word(value).to_le_bytes());

        // How many bytes the character has, without a branch.
        1 + (value >= 0x80) as usize + (value >= 0x800) as usize + (value >= 0x1_0000) as usize
    }

    /// No character is above the bitwise OR of all. The loop for it has no early exit, so that LLVM vectorizes it.
    #[inline(always)]
    fn write_many(characters: &[Scalar], n: usize, out: &mut [u8], at: usize) -> Converted {
        let mut any_bits = 0;
        for lane in 0..LANES {
            any_bits |= characters[n + lane].value();
        }
        if any_bits >= 0x1_0000 {
            return write_words::<StatelessUtf8>(characters, n, out, at);
        }
        let used = if any_bits >= 0x800 {
            write_three_byte(units_of(characters, n), out, at)
        } else if any_bits >= 0x80 {
            write_two_byte(units_of(characters, n), out, at)
        } else {
            write_one_byte(units_of(characters, n), out, at)
        };
        Converted { n: LANES, used }
    }
}
