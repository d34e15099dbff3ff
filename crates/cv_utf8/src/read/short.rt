//! Tests whether bytes of UTF-8 are characters of one or two bytes. The vectors are combined by OR before the result
//! becomes bits.
ghost use Rattle.std.specs.Prelude.{◌≡◌, ◌+◌, ◌≤◌, ◌<◌, ℕ, length, get_or, IsTrue};
ghost use Rattle.cv_utf8.specs.Private.Utf8Short.{IsShortAt};

use std::simd::prelude::*;

/// By how many first bytes of two DF, the last of them, is above C2.
const FIRSTS: u8 = 0x1d;

/// By how many C3, the last first byte of a character below U+0100, is.
const LATIN1_FIRSTS: u8 = 1;

/// By how much each of sixteen bytes exceeds the range that it may be in if each character has one or two bytes, or 0
/// if it is in the range. The range is C2 and the `firsts` values after it before a continuation byte, and 00 to BF
/// before any other. The range's least byte is subtracted first, so a smaller byte wraps and exceeds the range too.
#[inline(always)]
fn excess(input: &[u8], at: usize, firsts: u8) -> u8x16
    requires within { at + 17 ≤ length input.now }
    requires few { firsts ≤ 0x1d }
    ensures long { length result ≡ 16 }
    ensures lanes { (k : ℕ) → k < 16 → get_or result k 0 ≡ 0 → IsShortAt input.now (at + k) }
    ensures most { (k : ℕ) → k < 16 → get_or result k 0 ≡ 0 → get_or input.now (at + k) 0 ≤ 0xc2 + firsts }
{
    let bytes = u8x16::from_slice(&input[at..]);
    let behind = u8x16::from_slice(&input[at + 1..]);
    let seconds = (behind - u8x16::splat(0x80)).simd_lt(u8x16::splat(0x40));
    let least = seconds.select(u8x16::splat(0xc2), u8x16::splat(0));
    let most = seconds.select(u8x16::splat(firsts), u8x16::splat(0xbf));
    (bytes - least).saturating_sub(most)
}

/// Returns whether sixteen bytes are those of characters of one or two bytes. The last may be the first byte of two.
#[inline(always)]
pub(crate) fn are_short(input: &[u8], at: usize) -> bool
    requires { at + 17 ≤ length input.now }
    ensures { IsTrue result → (k : ℕ) → k < 16 → IsShortAt input.now (at + k) }
{
    let above = excess(input, at, FIRSTS);
    above.simd_ne(u8x16::splat(0)).to_bitmask() == 0
}

/// Returns whether sixteen bytes are those of characters below U+0100. The last may be the first byte of two.
#[inline(always)]
pub(crate) fn are_latin1(input: &[u8], at: usize) -> bool
    requires { at + 17 ≤ length input.now }
    ensures short { IsTrue result → (k : ℕ) → k < 16 → IsShortAt input.now (at + k) }
    ensures low { IsTrue result → (k : ℕ) → k < 16 → get_or input.now (at + k) 0 ≤ 0xc3 }
{
    let above = excess(input, at, LATIN1_FIRSTS);
    above.simd_ne(u8x16::splat(0)).to_bitmask() == 0
}

/// Returns whether 64 bytes are those of characters of one or two bytes. The last may be the first byte of two.
#[inline(always)]
pub(crate) fn are_short_block(input: &[u8], at: usize) -> bool
    requires { at + 65 ≤ length input.now }
    ensures { IsTrue result → (k : ℕ) → k < 64 → IsShortAt input.now (at + k) }
{
    let first = excess(input, at, FIRSTS) | excess(input, at + 16, FIRSTS);
    let rest = excess(input, at + 32, FIRSTS) | excess(input, at + 48, FIRSTS);
    let above = first | rest;
    above.simd_ne(u8x16::splat(0)).to_bitmask() == 0
}
