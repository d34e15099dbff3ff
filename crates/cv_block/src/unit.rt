//! Code units whose form is known at compile time, so that each loop over units is written once and compiled for each.
ghost use Rattle.std.specs.Prelude.{◌↔◌, ◌≡◌, ◌≤◌, ◌<◌, ◌+◌, ◌++◌, length, take, drop, IsTrue};
ghost use Rattle.cv_base.specs.Units.{unit_of, unit_size, unit_limit};
ghost use Rattle.cv_base.specs.declared.ascii_form.AsciiForm.{AsciiForm};
ghost use Rattle.cv_block.specs.Units.{IsUnitAt};

use crate::byte_order::ByteOrder;
use cv_base::Endian;
use cv_base::put::write_slice;
use std::marker::PhantomData;

/// A code unit.
pub trait Unit {
    ghost form: { AsciiForm };

    /// Returns how many bytes it has.
    fn size() -> usize
        ensures { result ≡ unit_size form };

    /// Returns whether it is one byte.
    fn is_byte() -> bool
        ensures { IsTrue result → form ≡ AsciiForm.Byte };

    /// Returns whether it is faster to take many blocks of such units at once than one by one. It affects speed only.
    fn takes_many() -> bool;

    /// Returns the number of the unit at index `at`.
    fn number(bytes: &[u8], at: usize) -> u32
        requires { at + unit_size form ≤ length bytes.now }
        ensures { IsUnitAt form bytes.now at result };

    /// Returns whether a number fits in one unit.
    fn fits(number: u32) -> bool
        ensures { IsTrue result ↔ (number < unit_limit form) };

    /// Writes a number that fits in one unit at index `at`. All other bytes stay.
    fn write(out: &mut [u8], at: usize, number: u32)
        requires few { number < unit_limit form }
        requires room { at + unit_size form ≤ length out.old }
        ensures { out.new
            ≡ take at out.old ++ unit_of form number ++ drop (at + unit_size form) out.old };
}

/// One byte.
pub struct Byte;

impl Unit for Byte {
    ghost form = { AsciiForm.Byte };

    #[inline(always)]
    fn size() -> usize {
        1
    }

    #[inline(always)]
    fn is_byte() -> bool {
        true
    }

    #[inline(always)]
    fn takes_many() -> bool {
        true
    }

    #[inline(always)]
    fn number(bytes: &[u8], at: usize) -> u32 {
        bytes[at] as u32
    }

    #[inline(always)]
    fn fits(number: u32) -> bool {
        number < 0x100
    }

    #[inline(always)]
    fn write(out: &mut [u8], at: usize, number: u32) {
        write_slice(out, at, [number as u8]);
    }
}

/// Whether it is faster to take many blocks of units in a byte order at once. If they are big-endian, LLVM reads many
/// blocks byte by byte.
#[inline(always)]
fn many_pay<O: ByteOrder>() -> bool {
    match O::order() {
        Endian::Little => true,
        Endian::Big => false,
    }
}

/// Two bytes in a byte order.
pub struct Two<O> {
    order: PhantomData<O>,
}

impl<O: ByteOrder> Unit for Two<O> {
    ghost form = { AsciiForm.Two O.endian };

    #[inline(always)]
    fn size() -> usize {
        2
    }

    #[inline(always)]
    fn is_byte() -> bool {
        false
    }

    #[inline(always)]
    fn takes_many() -> bool {
        many_pay::<O>()
    }

    #[inline(always)]
    fn number(bytes: &[u8], at: usize) -> u32 {
        O::two(bytes, at)
    }

    #[inline(always)]
    fn fits(number: u32) -> bool {
        number < 0x1_0000
    }

    #[inline(always)]
    fn write(out: &mut [u8], at: usize, number: u32) {
        O::write_two(out, at, number);
    }
}

/// Four bytes in a byte order.
pub struct Four<O> {
    order: PhantomData<O>,
}

impl<O: ByteOrder> Unit for Four<O> {
    ghost form = { AsciiForm.Four O.endian };

    #[inline(always)]
    fn size() -> usize {
        4
    }

    #[inline(always)]
    fn is_byte() -> bool {
        false
    }

    #[inline(always)]
    fn takes_many() -> bool {
        many_pay::<O>()
    }

    #[inline(always)]
    fn number(bytes: &[u8], at: usize) -> u32 {
        O::four(bytes, at)
    }

    #[inline(always)]
    fn fits(_number: u32) -> bool {
        true
    }

    #[inline(always)]
    fn write(out: &mut [u8], at: usize, number: u32) {
        O::write_four(out, at, number);
    }
}
