//! UTF-16 as a stateless form, in each byte order.
ghost use Rattle.std.specs.Prelude.{◌≡◌, ◌<◌, length};
ghost use Rattle.cv_base.specs.Items.{Begins};
ghost use Rattle.cv_base.specs.declared.endian.Endian.{Endian};
ghost use Rattle.cv_block.specs.Units.{AreScalarsBelow};
ghost use Rattle.cv_block.specs.PackedWords.{AreWords, AreSizes};
ghost use Rattle.cv_utf16.specs.Utf16.{utf16};

use crate::surrogate_pairs::read_paired;
use cv_base::{Endian, Scalar};
use cv_block::{
    ByteOrder, Converted, LANES, PackedWords, StatelessForm, Two, from_surrogates, is_high, is_low,
    lead_surrogate, read_units, trail_surrogate, write_units, write_words,
};
use std::marker::PhantomData;
use std::simd::prelude::*;

/// How many bytes a character has.
#[inline(always)]
#[tactic(auto, using(crate::proofs::Utf16Units::size_one, crate::proofs::Utf16Units::size_two))]
fn size_of(value: u32) -> usize
    ensures { (endian : Endian) → result ≡ length (utf16 endian value) }
{
    2 + 2 * (value >= 0x1_0000) as usize
}

/// The bytes of a character. After a single unit, the last two bytes may be anything.
#[inline(always)]
fn bytes_of(endian: Endian, value: u32) -> [u8; 4]
    requires { value < 0x110000 }
    ensures { Begins (utf16 endian value) result }
{
    let first = lead_surrogate(value);
    let second = trail_surrogate(value);
    match endian {
        Endian::Big => (first * 0x1_0000 + second).to_be_bytes(),
        Endian::Little => (first + second * 0x1_0000).to_le_bytes(),
    }
}

/// The words of sixteen characters, as `bytes_of` computes them.
#[inline(always)]
#[tactic(auto, using(cv_block::proofs::Lanes::divisors))]
fn words(endian: Endian, values: u32x16) -> u32x16
    requires { AreScalarsBelow values 16 }
    ensures { AreWords (utf16 endian) values result 16 }
{
    let high = values / u32x16::splat(0x400) + u32x16::splat(0xd7c0);
    let first = values.simd_lt(u32x16::splat(0x1_0000)).select(values, high);
    let second = values % u32x16::splat(0x400) + u32x16::splat(0xdc00);
    match endian {
        Endian::Big => {
            let byte = u32x16::splat(0x100);
            let lead = first / byte + first % byte * byte;
            lead + (second / byte + second % byte * byte) * u32x16::splat(0x1_0000)
        }
        Endian::Little => first + second * u32x16::splat(0x1_0000),
    }
}

/// How many bytes each of sixteen characters has.
#[inline(always)]
fn sizes(values: u32x16) -> u32x16
    ensures { (endian : Endian) → AreSizes (utf16 endian) values result 16 }
{
    let more = values
        .simd_lt(u32x16::splat(0x1_0000))
        .select(u32x16::splat(0), u32x16::splat(2));
    u32x16::splat(2) + more
}

/// UTF-16 in a byte order.
pub struct StatelessUtf16<O> {
    order: PhantomData<O>,
}

impl<O: ByteOrder> PackedWords for StatelessUtf16<O> {
    ghost bytes_of = { utf16 O.endian };

    #[inline(always)]
    fn words(values: &[u32; LANES]) -> [u32; LANES] {
        words(O::order(), u32x16::from_array(*values)).to_array()
    }

    #[inline(always)]
    fn sizes(values: &[u32; LANES]) -> [u32; LANES] {
        sizes(u32x16::from_array(*values)).to_array()
    }
}

impl<O: ByteOrder> StatelessForm for StatelessUtf16<O> {
    ghost bytes_of = { utf16 O.endian };

    ghost ZERO_SIZE = { 2 };

    const RESUME_SIZE: usize = 0;

    const ZERO_SIZE: usize = 2;

    const MIN_AT_ONCE: usize = 10;

    #[inline(always)]
    #[tactic(auto, using(crate::proofs::Utf16Units::four_at_most))]
    fn assert_short() {}

    #[inline(always)]
    #[tactic(auto, using(crate::proofs::Utf16Units::spelled))]
    fn read_at(input: &[u8], at: usize) -> Option<(Scalar, usize)> {
        let left = input.len() - at;
        if left < 2 {
            return None;
        }
        let first = O::two(input, at);
        if is_low(first) {
            return None;
        }
        if !is_high(first) {
            return Some((Scalar::known(first), 2));
        }
        if left < 4 {
            return None;
        }
        let second = O::two(input, at + 2);
        if !is_low(second) {
            return None;
        }
        Some((Scalar::known(from_surrogates(first, second)), 4))
    }

    #[inline(always)]
    fn read_many(input: &[u8], at: usize, buffer: &mut [Scalar], n: usize) -> Converted {
        let single = read_units::<Two<O>>(input, at, buffer, n);
        if single.n > 0 {
            return single;
        }
        read_paired::<O>(input, at, buffer, n)
    }

    #[inline(always)]
    fn write_at(c: Scalar, out: &mut [u8], at: usize) -> usize {
        let value = c.value();
        out[at..at + 4].copy_from_slice(&bytes_of(O::order(), value));
        size_of(value)
    }

    #[inline(always)]
    fn write_many(characters: &[Scalar], n: usize, out: &mut [u8], at: usize) -> Converted {
        let units = write_units::<Two<O>>(characters, n, out, at);
        if units.n > 0 {
            return units;
        }
        write_words::<StatelessUtf16<O>>(characters, n, out, at)
    }
}
