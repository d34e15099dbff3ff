//! Runs of direct characters that are written.
ghost use Rattle.std.specs.Prelude.{◌≡◌, ◌≤◌, ◌<◌, ◌+◌, ◌-◌, ◌*◌, ◌++◌, ℕ, true, length, take, drop, get_or};
ghost use Rattle.cv_utf7.specs.Sets.{is_direct};
ghost use Rattle.cv_utf7.specs.Private.WriteSteps.{written_to, WritesOn};

use crate::direct_bytes::written_run;
use crate::sets::stands;
use cv_base::{Scalar, WriteState};
use cv_simd::SIXTEEN;

/// Writes direct characters one by one, and returns how many it wrote.
#[inline(always)]
fn write_direct(characters: &[Scalar], n: usize, out: &mut [u8], at: usize) -> usize
    requires within { n ≤ length characters.now }
    requires room { at + 6 * (length characters.now - n) ≤ length out.old }
    ensures { WritesOn characters.now (written_to WriteState.Start n at) out.old
        (written_to WriteState.Start (n + result) (at + result)) out.new }
{
    let mut run = 0;
    while n + run < characters.len() {
        let value = characters[n + run].value();
        if !stands(value) {
            break;
        }
        out[at + run] = value as u8;
        run += 1;
    }
    run
}

/// The byte of a character below 256, or 0xFF for any other. No byte from 0x80 on is direct.
#[inline(always)]
fn narrow(c: Scalar) -> u8
    ensures { is_direct result ≡ true → result ≡ c }
{
    c.value().min(0xff) as u8
}

/// Sixteen characters as bytes. Those bytes that are direct are the characters.
#[inline(always)]
fn narrowed(characters: &[Scalar], base: usize) -> [u8; 16]
    requires { base + 16 ≤ length characters.now }
    ensures { (i : ℕ) → i < 16 → is_direct (get_or result i 0) ≡ true
        → get_or result i 0 ≡ get_or characters.now (base + i) 0 }
{
    let mut bytes = [0u8; SIXTEEN];
    for i in 0..SIXTEEN {
        bytes[i] = narrow(characters[base + i]);
    }
    bytes
}

/// Copies the first `many` bytes. It does nothing if `many` is 0.
#[inline(always)]
pub(crate) fn copy(bytes: &[u8], many: usize, out: &mut [u8], at: usize)
    requires within { many ≤ length bytes.now }
    requires room { at + many ≤ length out.old }
    ensures { out.new ≡ take at out.old ++ take many bytes.now ++ drop (at + many) out.old }
{
    if many > 0 {
        out[at..at + many].copy_from_slice(&bytes[..many]);
    }
}

/// Writes the direct characters from the `n`th on, at most sixteen, and returns how many they are. It may also change
/// the bytes after them.
#[inline(always)]
pub(crate) fn write_run(characters: &[Scalar], n: usize, out: &mut [u8], at: usize) -> usize
    requires within { n ≤ length characters.now }
    requires room { at + 6 * (length characters.now - n) ≤ length out.old }
    ensures run { WritesOn characters.now (written_to WriteState.Start n at) out.old
        (written_to WriteState.Start (n + result) (at + result)) out.new }
    ensures within { n + result ≤ length characters.now }
{
    if characters.len() - n < SIXTEEN {
        return write_direct(characters, n, out, at);
    }
    // All sixteen are put: what is written after the run overwrites the surplus.
    let bytes = narrowed(characters, n);
    copy(&bytes, SIXTEEN, out, at);
    written_run(&bytes)
}
