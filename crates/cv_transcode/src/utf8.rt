//! UTF-8, sixteen characters at once.
ghost use Rattle.std.specs.Prelude.{◌+◌, ◌≤◌, ◌<◌, ℕ, IsTrue, get_or};
ghost use Rattle.cv_base.specs.declared.ascii_form.AsciiForm.{AsciiForm};
ghost use Rattle.cv_utf8.specs.Utf8.{utf8_bytes};

use crate::window_reader::WindowReader;
use crate::window_writer::WindowWriter;
use cv_base::AsciiForm;
use cv_base::put::write_slice;
use cv_utf8::{write_latin1, write_one_byte, write_three_byte, write_two_byte};
use std::simd::prelude::*;

/// Whether each of the units is below a limit.
#[inline(always)]
pub(crate) fn are_below(units: u16x16, limit: u16) -> bool
    ensures { IsTrue result → (k : ℕ) → k < 16 → get_or units k 0 < limit }
{
    units.simd_ge(u16x16::splat(limit)).to_bitmask() == 0
}

/// UTF-8.
pub(crate) struct Utf8Window;

impl WindowWriter for Utf8Window {
    ghost bytes_of = { utf8_bytes };

    ghost form = { AsciiForm.Byte };

    #[inline(always)]
    fn form() -> AsciiForm {
        AsciiForm::Byte
    }

    #[inline(always)]
    fn write_window<S: WindowReader>(units: u16x16, out: &mut [u8], at: usize) -> usize {
        if are_below(units, 0x80) {
            return write_one_byte(units, out, at);
        }
        if S::is_narrow() && are_below(units, 0x100) {
            return write_latin1(units.cast::<u8>(), out, at);
        }
        if are_below(units, 0x800) {
            return write_two_byte(units, out, at);
        }
        write_three_byte(units, out, at)
    }

    #[inline(always)]
    fn zero_size() -> usize {
        1
    }

    #[inline(always)]
    fn fitting(units: u16x16, room: usize) -> usize {
        if are_below(units, 0x80) {
            return room;
        }
        if are_below(units, 0x800) {
            return room / 2;
        }
        room / 3
    }

    #[inline(always)]
    fn write_supplementary(value: u32, out: &mut [u8], at: usize) {
        let first = (0xf0 + value / 0x4_0000) as u8;
        let second = (0x80 + value / 0x1000 % 64) as u8;
        let third = (0x80 + value / 64 % 64) as u8;
        write_slice(out, at, [first, second, third, (0x80 + value % 64) as u8]);
    }
}
