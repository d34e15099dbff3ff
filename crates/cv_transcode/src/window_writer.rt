//! Encodings that are written by sixteen units at once.
ghost use Rattle.std.specs.Prelude.{◌≡◌, ◌+◌, ◌≤◌, ◌<◌, ◌++◌, ℕ, length, get_or, take, drop};
ghost use Rattle.std.specs.List.{flat_map};
ghost use Rattle.cv_base.specs.Places.{IsPut};
ghost use Rattle.cv_base.specs.Scalars.{IsScalar};
ghost use Rattle.cv_base.specs.Units.{unit_of};
ghost use Rattle.cv_base.specs.declared.ascii_form.AsciiForm.{AsciiForm};
ghost use Rattle.cv_block.specs.StatelessForms.{BytesOf};
ghost use Rattle.cv_block.specs.Slack.{IsPutWithSlack};

use crate::window_reader::{WindowReader, first_units};
use cv_base::AsciiForm;
use cv_block::LANES;
use std::simd::prelude::*;

/// How many bytes of a slice may change when a window is written.
pub(crate) const ROOM: usize = 64;

/// An encoding that has all characters.
pub(crate) trait WindowWriter {
    ghost bytes_of: { BytesOf };

    ghost form: { AsciiForm };

    /// Returns the form of the unit of its ASCII characters.
    fn form() -> AsciiForm
        ensures value { result ≡ form }
        ensures spells { (c : ℕ) → c < 128 → bytes_of c ≡ unit_of form c };

    /// Writes sixteen characters of an encoding, and returns how many bytes they have. It may also change up to sixteen
    /// bytes after them.
    fn write_window<S: WindowReader>(units: u16x16, out: &mut [u8], at: usize) -> usize
        requires room { at + 64 ≤ length out.old }
        requires middle { (k : ℕ) → k < 16 → get_or units k 0 < 0x10000 }
        ensures some { 16 ≤ result }
        ensures few { result ≤ 48 }
        ensures put { IsPutWithSlack (flat_map bytes_of units) out.old at result 16 out.new };

    /// Returns how many bytes U+0000 has.
    fn zero_size() -> usize
        ensures size { result ≡ length (bytes_of 0) }
        ensures few { result ≤ 2 };

    /// Returns how many of these units surely fit into so many bytes, or more than sixteen. It affects speed only.
    fn fitting(units: u16x16, room: usize) -> usize;

    /// Writes a character from U+10000 on, which has four bytes.
    fn write_supplementary(value: u32, out: &mut [u8], at: usize)
        requires scalar { IsScalar value }
        requires supplementary { 0x10000 ≤ value }
        requires room { at + 4 ≤ length out.old }
        ensures { IsPut (bytes_of value) out.old at 4 out.new };
}

/// Copies the first `n` bytes of a buffer into a slice from index `at` on.
#[inline(always)]
pub(crate) fn copy_prefix(prefix: &[u8], n: usize, out: &mut [u8], at: usize)
    requires stand { n ≤ length prefix.now }
    requires fit { at + n ≤ length out.old }
    ensures { out.new ≡ take at out.old ++ take n prefix.now ++ drop (at + n) out.old }
{
    out[at..at + n].copy_from_slice(&prefix[..n]);
}

/// Writes sixteen characters through a buffer, so that the bytes after them stay. Returns how many bytes they have.
#[inline(always)]
pub(crate) fn write_last<S: WindowReader, T: WindowWriter>(
    units: u16x16,
    out: &mut [u8],
    at: usize,
) -> usize
    requires room { at + 48 ≤ length out.old }
    requires middle { (k : ℕ) → k < 16 → get_or units k 0 < 0x10000 }
    ensures some { 16 ≤ result }
    ensures few { result ≤ 48 }
    ensures put { IsPutWithSlack (flat_map T.bytes_of units) out.old at result 0 out.new }
{
    let mut prefix = [0u8; ROOM];
    let n = T::write_window::<S>(units, &mut prefix, 0);
    copy_prefix(&prefix, n, out, at);
    n
}

/// Writes the first `n` of sixteen units, and returns how many bytes they have. It may also change up to 48 bytes after
/// them.
#[inline(always)]
pub(crate) fn write_first<S: WindowReader, T: WindowWriter>(
    units: u16x16,
    n: usize,
    out: &mut [u8],
    at: usize,
) -> usize
    requires few { n ≤ 16 }
    requires room { at + 64 ≤ length out.old }
    requires middle { (k : ℕ) → k < 16 → get_or units k 0 < 0x10000 }
    ensures few { result ≤ 48 }
    ensures put { IsPutWithSlack (flat_map T.bytes_of (take n units)) out.old at result 48 out.new }
{
    let wrote = T::write_window::<S>(first_units(units, n), out, at);
    wrote - (LANES - n) * T::zero_size()
}
