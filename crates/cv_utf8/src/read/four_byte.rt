//! Characters of UTF-8 that all have four bytes, sixteen at once.
ghost use Rattle.std.specs.Prelude.{◌≡◌, ◌+◌, ◌*◌, ◌≤◌, ◌<◌, ℕ, length, get_or};
ghost use Rattle.cv_block.specs.StatelessForms.{IsReadForm};
ghost use Rattle.cv_utf8.specs.Utf8.{utf8_bytes};
ghost use Rattle.cv_utf8.specs.Private.Utf8Long.{AreWordsOf, IsNumberOf, AreNumbersOf};

use cv_base::Scalar;
use cv_block::{ByteOrder, Converted, LANES, LittleEndian, put_characters};
use std::simd::prelude::*;

/// How many bytes each character has.
const SIZE: usize = 4;

/// Sixteen words of four bytes, the lowest byte first. No early exit, so that all are loaded at once.
#[inline(always)]
fn words_of(text: &[u8]) -> [u32; LANES]
    requires { 64 ≤ length text.now }
    ensures long { length result ≡ 16 }
    ensures words { AreWordsOf 4 text.now result 16 }
{
    let mut words = [0; LANES];
    for k in 0..LANES {
        words[k] = LittleEndian::four(text, SIZE * k);
    }
    words
}

/// The number of the character whose four bytes a word has, or 0 if it has none. Computed without a branch.
#[inline(always)]
fn four_of(word: u32) -> u32
    ensures { IsNumberOf 4 word result }
{
    let first = word % 0x100;
    let second = word / 0x100 % 0x100;
    let third = word / 0x1_0000 % 0x100;
    let fourth = word / 0x100_0000;
    let high = first % 8 * 262144 + second % 64 * 4096;
    let number = high + third % 64 * 64 + fourth % 64;
    let are_bytes = (first / 8 == 30) & (second / 64 == 2) & (third / 64 == 2) & (fourth / 64 == 2);
    let is_scalar = (number >= 0x1_0000) & (number < 0x11_0000);
    if are_bytes & is_scalar { number } else { 0 }
}

/// The numbers of the characters whose bytes words have, and 0 for the others. LLVM vectorizes the loop.
#[inline(always)]
fn numbers_of(words: &[u32; LANES]) -> [u32; LANES]
    requires { length words.now ≡ 16 }
    ensures long { length result ≡ 16 }
    ensures numbers { AreNumbersOf 4 words.now result 16 }
{
    let mut numbers = [0; LANES];
    for k in 0..LANES {
        numbers[k] = four_of(words[k]);
    }
    numbers
}

/// How many numbers there are before the first 0.
#[inline(always)]
fn before_none(numbers: &[u32; LANES]) -> usize
    requires { length numbers.now ≡ 16 }
    ensures many { result ≤ 16 }
    ensures some { (k : ℕ) → k < result → 0 < get_or numbers.now k 0 }
{
    let none = u32x16::from_array(*numbers)
        .simd_lt(u32x16::splat(1))
        .to_bitmask();
    LANES.min(none.trailing_zeros() as usize)
}

/// Reads up to sixteen characters of four bytes each that follow each other from `at` on. It reads none if the input
/// has fewer than 64 bytes from there on.
#[inline(never)]
pub(crate) fn read_four_byte(input: &[u8], at: usize, buffer: &mut [Scalar], n: usize) -> Converted
    requires within { at ≤ length input.now }
    requires room { n + 16 ≤ length buffer.old }
    ensures many { result.n ≤ 16 }
    ensures read { IsReadForm utf8_bytes input.now at buffer.old n result buffer.new }
{
    let text = &input[at..];
    if text.len() < SIZE * LANES {
        return Converted { n: 0, used: 0 };
    }
    let numbers = numbers_of(&words_of(text));
    put_characters(&numbers, buffer, n);
    let more = before_none(&numbers);
    Converted {
        n: more,
        used: SIZE * more,
    }
}
