//! UTF-16, sixteen units at once.
ghost use Rattle.std.specs.Prelude.{◌≡◌, ◌≤◌, ◌<◌, ℕ, length, get_or, map};
ghost use Rattle.cv_base.specs.declared.ascii_form.AsciiForm.TheVariants.{Two};
ghost use Rattle.cv_base.specs.declared.endian.Endian.TheVariants.{Big};
ghost use Rattle.cv_block.specs.Units.{AreUnits};
ghost use Rattle.cv_transcode.specs.Private.Windows.{in_order};
ghost use Rattle.cv_utf16.specs.Utf16.{utf16};

use crate::window_reader::WindowReader;
use crate::window_writer::WindowWriter;
use cv_base::{AsciiForm, Endian};
use cv_block::{
    ByteOrder, LANES, from_surrogates, is_high, is_low, lead_surrogate, trail_surrogate,
};
use std::marker::PhantomData;
use std::simd::prelude::*;

/// The numbers of the units at the start of a text. None is tested, so that LLVM loads all at once.
#[inline(always)]
fn units_of<O: ByteOrder>(text: &[u8]) -> u16x16
    requires { 32 ≤ length text.now }
    ensures long { length result ≡ 16 }
    ensures units { AreUnits (Two O.endian) text.now result 16 }
{
    let mut units = [0; LANES];
    let mut at = 0;
    for k in 0..LANES {
        units[k] = O::two(text, at) as u16;
        at += 2;
    }
    u16x16::from_array(units)
}

/// The units with their bytes swapped.
#[inline(always)]
#[tactic(auto, using(cv_block::proofs::Lanes::divisors))]
fn swapped(units: u16x16) -> u16x16
    requires { (k : ℕ) → k < 16 → get_or units k 0 < 0x10000 }
    ensures { result ≡ map (in_order Big) units }
{
    units / u16x16::splat(0x100) + units * u16x16::splat(0x100)
}

/// The units as numbers that are written with the low byte first: big-endian ones have their bytes swapped.
#[inline(always)]
fn ordered<O: ByteOrder>(units: u16x16) -> u16x16
    requires { (k : ℕ) → k < 16 → get_or units k 0 < 0x10000 }
    ensures { result ≡ map (in_order O.endian) units }
{
    match O::order() {
        Endian::Big => return swapped(units),
        Endian::Little => return units,
    }
}

/// The most runs of surrogates in a window for which windows are faster than blocks.
const MAX_RUNS: u32 = 4;

/// The least average size of parts, in bytes, for which windows are faster than blocks if the target is UTF-8.
const PART: usize = 20;

/// The same if the target is UTF-16, to which a window is written as it is.
const SHORT_PART: usize = 8;

/// UTF-16 in a byte order.
pub(crate) struct Utf16Window<O> {
    order: PhantomData<O>,
}

impl<O: ByteOrder> WindowReader for Utf16Window<O> {
    ghost bytes_of = { utf16 O.endian };

    ghost window_size = { 32 };

    ghost form = { Two O.endian };

    #[inline(always)]
    fn window_size() -> usize {
        32
    }

    #[inline(always)]
    fn form() -> AsciiForm {
        AsciiForm::Two(O::order())
    }

    #[inline(always)]
    fn window(text: &[u8]) -> u16x16 {
        units_of::<O>(text)
    }

    #[inline(always)]
    fn supplementary(text: &[u8]) -> Option<u32> {
        let lead = O::two(text, 0);
        let trail = O::two(text, 2);
        if !is_high(lead) || !is_low(trail) {
            return None;
        }
        Some(from_surrogates(lead, trail))
    }

    #[inline(always)]
    fn is_dense(mask: u64) -> bool {
        let begins = mask & !(mask % 0x8000 * 2);
        begins.count_ones() > MAX_RUNS
    }

    #[inline(always)]
    fn part_size(zero_size: usize) -> usize {
        if zero_size == 1 { PART } else { SHORT_PART }
    }
}

impl<O: ByteOrder> WindowWriter for Utf16Window<O> {
    ghost bytes_of = { utf16 O.endian };

    ghost form = { Two O.endian };

    #[inline(always)]
    fn form() -> AsciiForm {
        AsciiForm::Two(O::order())
    }

    #[inline(always)]
    fn write_window<S: WindowReader>(units: u16x16, out: &mut [u8], at: usize) -> usize {
        let bytes = ordered::<O>(units).to_le_bytes();
        bytes.copy_to_slice(&mut out[at..]);
        2 * LANES
    }

    #[inline(always)]
    fn zero_size() -> usize {
        2
    }

    #[inline(always)]
    fn fitting(units: u16x16, room: usize) -> usize {
        room / 2
    }

    #[inline(always)]
    fn write_supplementary(value: u32, out: &mut [u8], at: usize) {
        O::write_two(out, at, lead_surrogate(value));
        O::write_two(out, at + 2, trail_surrogate(value));
    }
}

/// How many bytes are tested at once.
const SIXTEEN: usize = 16;

/// So many bytes at the end of a text are not tested if sixteen are before them: what windows leave of a text is
/// converted item by item if it has no more.
const UNTESTED: usize = 11;

/// Whether one of eight units is a surrogate.
#[inline(always)]
#[tactic(auto, using(cv_block::proofs::Lanes::divisors))]
fn eight_have_surrogates<O: ByteOrder>(bytes: u8x16) -> bool {
    let units = u16x8::from_le_bytes(bytes);
    let parts = match O::order() {
        Endian::Little => units / u16x8::splat(0x800),
        Endian::Big => units % u16x8::splat(0x100) / u16x8::splat(8),
    };
    parts.simd_eq(u16x8::splat(27)).to_bitmask() != 0
}

/// Tells whether a surrogate is among the units of a text, but for the last few. A text of fewer than sixteen bytes is
/// not tested, and counts as one that has. It affects speed only.
#[inline(always)]
pub fn has_surrogates<O: ByteOrder>(text: &[u8]) -> bool {
    if text.len() < SIXTEEN {
        return true;
    }
    let tested = SIXTEEN.max(text.len() - UNTESTED);
    let last = (tested - SIXTEEN) / 2 * 2;
    let mut at = 0;
    while at < last {
        if eight_have_surrogates::<O>(u8x16::from_slice(&text[at..])) {
            return true;
        }
        at += SIXTEEN;
    }
    eight_have_surrogates::<O>(u8x16::from_slice(&text[last..]))
}
