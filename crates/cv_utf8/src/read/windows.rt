//! Reading UTF-8 in windows of sixteen bytes, without a branch for each character.
ghost use Rattle.std.specs.Prelude.{◌≡◌, ◌+◌, ◌*◌, ◌/◌, ◌%◌, ◌≤◌, ◌<◌, ℕ, length, get_or, IsTrue, false};
ghost use Rattle.cv_block.specs.StatelessForms.{IsReadForm};
ghost use Rattle.cv_utf8.specs.Utf8.{utf8_bytes};
ghost use Rattle.cv_utf8.specs.Private.Utf8Short.{is_continuation, IsShortAt, short_of, short_value};
ghost use Rattle.cv_utf8.specs.Private.Utf8Windows.{whole_of, whole_value};

use crate::read::ascii::{put_bytes, read_ascii};
use crate::read::four_byte::read_four_byte;
use crate::read::masks::{among, is_continuation, three_high};
use crate::read::put_lanes::put_lanes;
use crate::read::short::are_short;
use crate::read::three_byte::{may_be_row, read_three_byte};
use crate::read::utf16_lanes::{complete_lanes, short_lanes};
use cv_base::Scalar;
use cv_block::{Converted, LANES, is_ascii_block};
use std::simd::prelude::*;

/// The numbers of sixteen bits that have these low and high bytes.
#[inline(always)]
fn numbers_of(low: u8x16, high: u8x16) -> [u16; LANES]
    ensures { (k : ℕ) → k < 16 → get_or result k 0 ≡ get_or low k 0 + 256 * get_or high k 0 }
{
    (low.cast::<u16>() + high.cast::<u16>() * u16x16::splat(256)).to_array()
}

/// The low bytes of the numbers of characters of one or two bytes, from their first and second bytes.
#[inline(always)]
#[tactic(auto, using(cv_block::proofs::Lanes::divisors))]
pub(crate) fn short_low(first: u8x16, second: u8x16) -> u8x16
    ensures { (k : ℕ) → k < 16 → get_or result k 0
        ≡ short_of (get_or first k 0) (get_or second k 0) % 256 }
{
    let two = first * u8x16::splat(64) + second % u8x16::splat(64);
    first.simd_lt(u8x16::splat(0xc0)).select(first, two)
}

/// The high bytes of the numbers of characters of one or two bytes, from their first bytes: 0 if the byte is below C0.
#[inline(always)]
#[tactic(auto, using(cv_block::proofs::Lanes::divisors))]
fn short_high(first: u8x16) -> u8x16
    ensures long { length result ≡ 16 }
    ensures bytes { (k : ℕ) → k < 16 → get_or result k 0 ≡ short_of (get_or first k 0) 0 / 256 }
{
    first.saturating_sub(u8x16::splat(0xc0)) / u8x16::splat(4)
}

/// Returns the numbers of the characters that begin at each of sixteen bytes, if they have one or two bytes. It
/// computes their low and high bytes, because a vector has twice as many lanes of bytes as of numbers.
#[inline(always)]
pub(crate) fn short_values(input: &[u8], at: usize) -> [u16; LANES]
    requires { at + 17 ≤ length input.now }
    ensures { (k : ℕ) → k < 16 → get_or result k 0 ≡ short_value input.now (at + k) }
{
    let first = u8x16::from_slice(&input[at..]);
    let second = u8x16::from_slice(&input[at + 1..]);
    numbers_of(short_low(first, second), short_high(first))
}

/// Reads the characters that begin among sixteen bytes, if all have one or two bytes.
#[inline(always)]
fn read_short(input: &[u8], at: usize, buffer: &mut [Scalar], n: usize) -> Converted
    requires within { at + 18 ≤ length input.now }
    requires room { n + 16 ≤ length buffer.old }
    requires short { (k : ℕ) → k < 16 → IsShortAt input.now (at + k) }
    requires begins { is_continuation (get_or input.now at 0) ≡ false }
    ensures many { result.n ≤ 16 }
    ensures read { IsReadForm utf8_bytes input.now at buffer.old n result buffer.new }
{
    put_lanes(&short_lanes(input, at), buffer, n)
}

/// The low bytes of the numbers of characters of up to three bytes, from their first, second and third bytes.
#[inline(always)]
#[tactic(auto, using(cv_block::proofs::Lanes::divisors))]
fn low_bytes(first: u8x16, second: u8x16, third: u8x16) -> u8x16
    ensures { (k : ℕ) → k < 16 → get_or result k 0
        ≡ whole_of (get_or first k 0) (get_or second k 0) (get_or third k 0) % 256 }
{
    let are_three = (first - u8x16::splat(0xe0)).simd_lt(u8x16::splat(0x10));
    let last = are_three.select(third, second);
    let before = are_three.select(second, first);
    let many = before * u8x16::splat(64) + last % u8x16::splat(64);
    first.simd_lt(u8x16::splat(0x80)).select(first, many)
}

/// The high bytes of the numbers of characters of up to three bytes, from their first and second bytes.
#[inline(always)]
fn high_bytes(first: u8x16, second: u8x16) -> u8x16
    ensures { (k : ℕ) → k < 16 → get_or result k 0
        ≡ whole_of (get_or first k 0) (get_or second k 0) 0 / 256 }
{
    let are_three = (first - u8x16::splat(0xe0)).simd_lt(u8x16::splat(0x10));
    are_three.select(three_high(first, second), short_high(first))
}

/// Returns the numbers of the characters that begin at each of sixteen bytes, if they have up to three bytes. All are
/// scalar values, whatever the bytes are.
#[inline(always)]
pub(crate) fn whole_values(input: &[u8], at: usize) -> [u16; LANES]
    requires { at + 18 ≤ length input.now }
    ensures { (k : ℕ) → k < 16 → get_or result k 0 ≡ whole_value input.now (at + k) }
{
    let first = u8x16::from_slice(&input[at..]);
    let second = u8x16::from_slice(&input[at + 1..]);
    let third = u8x16::from_slice(&input[at + 2..]);
    numbers_of(low_bytes(first, second, third), high_bytes(first, second))
}

/// Reads the complete characters of up to three bytes at the start of sixteen bytes. Kept out of line to save registers
/// in the callers' loops.
#[inline(never)]
fn read_complete(input: &[u8], at: usize, buffer: &mut [Scalar], n: usize) -> Converted
    requires within { at + 18 ≤ length input.now }
    requires room { n + 16 ≤ length buffer.old }
    ensures many { result.n ≤ 16 }
    ensures read { IsReadForm utf8_bytes input.now at buffer.old n result buffer.new }
{
    put_lanes(&complete_lanes(input, at), buffer, n)
}

/// Returns whether a character of three or four bytes may begin among sixteen bytes. It affects speed only. In a text
/// of one script the branch on it is mostly the same, and so well predicted.
#[inline(always)]
pub(crate) fn may_be_high(input: &[u8], at: usize) -> bool
    requires { at + 16 ≤ length input.now }
{
    among(u8x16::from_slice(&input[at..]), 0xe0, 0x20) != 0
}

/// Reads characters among which some may have three or four bytes: those of four bytes if one is at the start, or those
/// of three if many likely follow each other. It reads none if one of four bytes may begin at the second byte.
/// Otherwise it reads the characters that begin among sixteen bytes, up to one of four bytes.
#[inline(always)]
fn read_high(input: &[u8], at: usize, buffer: &mut [Scalar], n: usize) -> Converted
    requires within { at + 18 ≤ length input.now }
    requires room { n + 16 ≤ length buffer.old }
    ensures many { result.n ≤ 16 }
    ensures read { IsReadForm utf8_bytes input.now at buffer.old n result buffer.new }
{
    if input[at] >= 0xf0 {
        return read_four_byte(input, at, buffer, n);
    }
    if input[at + 1] >= 0xf0 {
        return Converted { n: 0, used: 0 };
    }
    if may_be_row(input, at) {
        let many = read_three_byte(input, at, buffer, n);
        if many.n > 0 {
            return many;
        }
    }
    read_complete(input, at, buffer, n)
}

/// How many bytes a window takes: sixteen, and the last two of a character that begins with the last of these.
const WINDOW: usize = LANES + 2;

/// Fewer bytes at the end of a text are read faster one by one.
const FEW_BYTES: usize = 8;

/// A byte that no character has.
const NO_BYTE: u8 = 0xff;

/// Reads the characters at the start of the last bytes of a text, which are fewer than a window: all of them if they
/// are ASCII, or else the complete ones of up to three bytes. It may read none.
#[inline(always)]
fn read_last(input: &[u8], at: usize, buffer: &mut [Scalar], n: usize) -> Converted
    requires within { at ≤ length input.now }
    requires few { length input.now < at + 18 }
    requires room { n + 16 ≤ length buffer.old }
    ensures many { result.n ≤ 16 }
    ensures read { IsReadForm utf8_bytes input.now at buffer.old n result buffer.new }
{
    let left = input.len() - at;
    if left < FEW_BYTES || input[at] >= 0xf0 {
        return Converted { n: 0, used: 0 };
    }
    let mut window = [0; WINDOW];
    window[..left].copy_from_slice(&input[at..]);
    if is_ascii_block(&window, 0) {
        put_bytes(&window, 0, buffer, n);
        let run = left.min(LANES);
        return Converted { n: run, used: run };
    }
    window[left] = NO_BYTE;
    let last = read_complete(&window, 0, buffer, n);
    if last.used > left {
        return Converted { n: 0, used: 0 };
    }
    last
}

/// Reads the characters of up to three bytes that begin among sixteen bytes, up to one that has four. If one of four
/// bytes is at the start, or one of three and likely many more after it, it reads those with as many bytes. It may read
/// none.
#[inline(always)]
pub(crate) fn read_many(input: &[u8], at: usize, buffer: &mut [Scalar], n: usize) -> Converted
    requires within { at ≤ length input.now }
    requires room { n + 16 ≤ length buffer.old }
    ensures many { result.n ≤ 16 }
    ensures read { IsReadForm utf8_bytes input.now at buffer.old n result buffer.new }
{
    if input.len() - at < WINDOW {
        return read_last(input, at, buffer, n);
    }
    if may_be_high(input, at) {
        return read_high(input, at, buffer, n);
    }
    if is_ascii_block(input, at) {
        return read_ascii(input, at, buffer, n);
    }
    if !is_continuation(input[at]) && are_short(input, at) {
        return read_short(input, at, buffer, n);
    }
    read_complete(input, at, buffer, n)
}
