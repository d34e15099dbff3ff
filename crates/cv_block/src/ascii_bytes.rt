//! Runs of ASCII, and of all bytes, in which each character is one byte.
ghost use Rattle.std.specs.Prelude.{◌≡◌, ◌≤◌, ◌<◌, ◌+◌, ◌-◌, ◌*◌, ◌/◌, ◌++◌, ℕ, length, take, drop, slice_index};
ghost use Rattle.std.specs.Prelude.{IsTrue};
ghost use Rattle.cv_base.specs.declared.ascii_form.AsciiForm.{AsciiForm};
ghost use Rattle.cv_block.specs.AsciiRuns.{IsRunBelow};

use std::simd::prelude::*;

/// How many bytes are tested at once.
const BLOCK: usize = 16;

/// How many bytes are tested and copied at once while a run has that many left: four blocks with one branch.
const LONG_BLOCK: usize = 64;

/// Whether the `BYTES` bytes from index `at` on are below 128. `BYTES` is a multiple of sixteen and known at compile
/// time. All are tested, so that one branch decides for all.
#[inline(always)]
fn are_ascii<const BYTES: usize>(bytes: &[u8], at: usize) -> bool
    requires { at + BYTES ≤ length bytes.now }
    ensures { IsTrue result → (k : ℕ) → at ≤ k → k < at + BYTES / 16 * 16
        → slice_index bytes.now k < 128 }
{
    let mut all = true;
    for block in 0..BYTES / BLOCK {
        let lanes = u8x16::from_slice(&bytes[at + block * BLOCK..]);
        all &= lanes.simd_ge(u8x16::splat(128)).to_bitmask() == 0;
    }
    all
}

/// Returns whether the sixteen bytes from index `at` on are below 128.
#[inline(always)]
pub fn is_ascii_block(bytes: &[u8], at: usize) -> bool
    requires { at + 16 ≤ length bytes.now }
    ensures { IsTrue result → (k : ℕ) → at ≤ k → k < at + 16 → slice_index bytes.now k < 128 }
{
    are_ascii::<BLOCK>(bytes, at)
}

/// Copies sixteen bytes.
#[inline(always)]
fn copy_sixteen(rest: &[u8], from: usize, out: &mut [u8], at: usize)
    requires stand { from + 16 ≤ length rest.now }
    requires fit { at + 16 ≤ length out.old }
    ensures { out.new ≡ take at out.old ++ take 16 (drop from rest.now) ++ drop (at + 16) out.old }
{
    let lanes = u8x16::from_slice(&rest[from..]);
    lanes.copy_to_slice(&mut out[at..]);
}

/// Copies as many bytes as `are_ascii` tests. Sixteen are loaded before they are stored: LLVM does not know that the
/// slices are disjoint.
#[inline(always)]
fn copy_block<const BYTES: usize>(rest: &[u8], from: usize, out: &mut [u8], at: usize)
    requires stand { from + BYTES ≤ length rest.now }
    requires fit { at + BYTES ≤ length out.old }
    ensures { out.new ≡ take at out.old ++ take (BYTES / 16 * 16) (drop from rest.now)
        ++ drop (at + BYTES / 16 * 16) out.old }
{
    for block in 0..BYTES / BLOCK {
        let n = block * BLOCK;
        copy_sixteen(rest, from + n, out, at + n);
    }
}

/// Copies blocks of `BYTES` bytes at the start of a text while they are ASCII, `most` bytes at most, and returns how
/// many bytes it copied.
#[inline(always)]
fn copy_blocks<const BYTES: usize>(rest: &[u8], most: usize, out: &mut [u8], at: usize) -> usize
    requires some { 0 < BYTES }
    requires whole { BYTES / 16 * 16 ≡ BYTES }
    requires stand { most ≤ length rest.now }
    requires fit { at + most ≤ length out.old }
    ensures within { result ≤ most }
    ensures ascii { (k : ℕ) → k < result → slice_index rest.now k < 128 }
    ensures out { out.new ≡ take at out.old ++ take result rest.now ++ drop (at + result) out.old }
{
    let mut n = 0;
    while most - n >= BYTES && are_ascii::<BYTES>(rest, n) {
        copy_block::<BYTES>(rest, n, out, at + n);
        n += BYTES;
    }
    n
}

/// Copies the ASCII bytes at the start of a text, as far as there is room, and returns how many it copied: blocks, the
/// long ones first, and then the rest one by one. It copies none if they are fewer than a block and both the text and
/// the room are a block or longer.
#[inline(never)]
#[tactic(auto, using(crate::proofs::AsciiRuns::bytes_run))]
pub(crate) fn copy_ascii(rest: &[u8], out: &mut [u8], at: usize) -> usize
    requires { at ≤ length out.old }
    ensures stand { result ≤ length rest.now }
    ensures fit { at + result ≤ length out.old }
    ensures ascii { IsRunBelow 128 AsciiForm.Byte rest.now result }
    ensures none { result ≡ 0 → out.new ≡ out.old }
    ensures out { out.new ≡ take at out.old ++ take result rest.now ++ drop (at + result) out.old }
{
    let most = rest.len().min(out.len() - at);
    let long = copy_blocks::<LONG_BLOCK>(rest, most, out, at);
    let mut n = long + copy_blocks::<BLOCK>(&rest[long..], most - long, out, at + long);
    if n == 0 && most >= BLOCK {
        return 0;
    }
    while n < most && rest[n] < 128 {
        out[at + n] = rest[n];
        n += 1;
    }
    n
}

/// Copies the bytes at the start of a text, as far as there is room, and returns how many it copied.
#[inline(always)]
#[tactic(auto, using(crate::proofs::AsciiRuns::bytes_run))]
pub(crate) fn copy_bytes(rest: &[u8], out: &mut [u8], at: usize) -> usize
    requires { at ≤ length out.old }
    ensures stand { result ≤ length rest.now }
    ensures fit { at + result ≤ length out.old }
    ensures bytes { IsRunBelow 256 AsciiForm.Byte rest.now result }
    ensures none { result ≡ 0 → out.new ≡ out.old }
    ensures out { out.new ≡ take at out.old ++ take result rest.now ++ drop (at + result) out.old }
{
    let n = rest.len().min(out.len() - at);
    out[at..at + n].copy_from_slice(&rest[..n]);
    n
}
