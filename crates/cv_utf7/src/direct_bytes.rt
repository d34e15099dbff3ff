//! The bytes that are direct, as sets against which many bytes are tested at once.
ghost use Rattle.std.specs.Prelude.{◌≡◌, ◌+◌, ◌≤◌, ◌<◌, ℕ, true, length, get_or};
ghost use Rattle.cv_utf7.specs.Sets.{may_be_direct, is_direct};

use cv_simd::{prefix_in, run_in};

// A set has sixteen entries, one for each lower half of a byte, and an entry has a bit for each higher half. For
// example, entry 9 of `MAY_STAND`, 0xFD, has the tab (09), `)` (29), `9`, `I`, `Y`, `i` and `y`, but not 19, a control.
// Entry 11, 0xF8, has `;`, `K`, `[`, `k` and `{`, but not `+` (2B).

// What may be direct in a text that is read.
#[rattlefmt::skip]
const MAY_STAND: [u8; 16] = [
    0xFC, 0xFC, 0xFC, 0xFC, 0xFC, 0xFC, 0xFC, 0xFC, 0xFC, 0xFD, 0xFD, 0xF8, 0xDC, 0xFD, 0x7C, 0x7C,
];

// What is written as itself.
#[rattlefmt::skip]
const STANDS: [u8; 16] = [
    0xAC, 0xF8, 0xF8, 0xF8, 0xF8, 0xF8, 0xF8, 0xFC, 0xFC, 0xFD, 0xF9, 0x50, 0x54, 0x55, 0x54, 0x5C,
];

/// How many bytes of a text that is read may be direct from index `from` on, at most sixteen.
#[inline(always)]
pub(crate) fn direct_run(input: &[u8], from: usize) -> usize
    requires many { 16 ≤ length input.now }
    requires from { from ≤ length input.now }
    ensures within { from + result ≤ length input.now }
    ensures few { result ≤ 16 }
    ensures direct { (i : ℕ) → i < result → may_be_direct (get_or input.now (from + i) 0) ≡ true }
{
    run_in(MAY_STAND, input, from)
}

/// How many bytes at the start are written as themselves, at most sixteen.
#[inline(always)]
pub(crate) fn written_run(bytes: &[u8]) -> usize
    requires many { 16 ≤ length bytes.now }
    ensures few { result ≤ 16 }
    ensures direct { (i : ℕ) → i < result → is_direct (get_or bytes.now i 0) ≡ true }
{
    run_in(STANDS, bytes, 0)
}

/// How many bytes at the start are written as themselves, in whole blocks of sixteen.
#[inline(always)]
pub(crate) fn written_direct(bytes: &[u8]) -> usize
    ensures within { result ≤ length bytes.now }
    ensures direct { (i : ℕ) → i < result → is_direct (get_or bytes.now i 0) ≡ true }
{
    prefix_in(STANDS, bytes)
}
