//! UTF-32, sixteen units at once.
ghost use Rattle.std.specs.Prelude.{◌≡◌, ◌≤◌, ◌<◌, ℕ, length, get_or};
ghost use Rattle.cv_base.specs.declared.ascii_form.AsciiForm.TheVariants.{Four};
ghost use Rattle.cv_block.specs.Units.{AreUnits};
ghost use Rattle.cv_transcode.specs.Private.Windows.{IsNarrow, AreNarrow};
ghost use Rattle.cv_utf16.specs.Utf32.{utf32};

use crate::window_reader::WindowReader;
use cv_base::AsciiForm;
use cv_block::{ByteOrder, LANES};
use std::marker::PhantomData;
use std::simd::prelude::*;

/// The unit for every number from 0x10000 on: a surrogate, which is no character.
const NONE: u16 = 0xd800;

/// The numbers of the units at the start of a text. None is tested, so that LLVM loads all at once.
#[inline(always)]
fn numbers_of<O: ByteOrder>(text: &[u8]) -> [u32; LANES]
    requires { 64 ≤ length text.now }
    ensures long { length result ≡ 16 }
    ensures units { AreUnits (Four O.endian) text.now result 16 }
{
    let mut numbers = [0; LANES];
    let mut at = 0;
    for k in 0..LANES {
        numbers[k] = O::four(text, at);
        at += 4;
    }
    numbers
}

/// A number as a unit, computed without a branch.
#[inline(always)]
fn narrow(number: u32) -> u16
    ensures { IsNarrow number result }
{
    if number < 0x1_0000 {
        number as u16
    } else {
        NONE
    }
}

/// Sixteen numbers as units.
#[inline(always)]
fn narrowed(numbers: &[u32; LANES]) -> u16x16
    requires { length numbers.now ≡ 16 }
    ensures long { length result ≡ 16 }
    ensures units { AreNarrow numbers.now result 16 }
{
    let mut units = [0; LANES];
    for k in 0..LANES {
        units[k] = narrow(numbers[k]);
    }
    u16x16::from_array(units)
}

/// The most characters from U+10000 on in a window for which windows are faster than blocks.
const MAX_SUPPLEMENTARY: u32 = 2;

/// The least average size of parts, in bytes, for which windows are faster than blocks if the target is UTF-8.
const PART: usize = 48;

/// The same if the target is UTF-16, to which a window is written as it is.
const SHORT_PART: usize = 40;

/// UTF-32 in a byte order.
pub(crate) struct Utf32Window<O> {
    order: PhantomData<O>,
}

impl<O: ByteOrder> WindowReader for Utf32Window<O> {
    ghost bytes_of = { utf32 O.endian };

    ghost window_size = { 64 };

    ghost form = { Four O.endian };

    #[inline(always)]
    fn window_size() -> usize {
        64
    }

    #[inline(always)]
    fn form() -> AsciiForm {
        AsciiForm::Four(O::order())
    }

    #[inline(always)]
    fn window(text: &[u8]) -> u16x16 {
        narrowed(&numbers_of::<O>(text))
    }

    #[inline(always)]
    fn supplementary(text: &[u8]) -> Option<u32> {
        let number = O::four(text, 0);
        if number >= 0x1_0000 && number < 0x11_0000 {
            Some(number)
        } else {
            None
        }
    }

    #[inline(always)]
    fn is_dense(mask: u64) -> bool {
        mask.count_ones() > MAX_SUPPLEMENTARY
    }

    #[inline(always)]
    fn part_size(zero_size: usize) -> usize {
        if zero_size == 1 { PART } else { SHORT_PART }
    }
}
