//! Byte orders that are known at compile time, so that each loop over units is written once and compiled for each.
ghost use Rattle.std.specs.Prelude.{◌≡◌, ◌≤◌, ◌<◌, ◌+◌, ◌++◌, length, take, drop};
ghost use Rattle.cv_base.specs.Units.{unit_of};
ghost use Rattle.cv_base.specs.declared.ascii_form.AsciiForm.TheVariants.{Two, Four};
ghost use Rattle.cv_base.specs.declared.endian.Endian.{Endian};
ghost use Rattle.cv_base.specs.declared.endian.Endian.TheVariants.{Big, Little};
ghost use Rattle.cv_block.specs.Units.{IsUnitAt};

use cv_base::Endian;
use cv_base::put::write_slice;

/// A byte order that is known at compile time.
pub trait ByteOrder {
    ghost endian: { Endian };

    /// Returns the byte order.
    fn order() -> Endian
        ensures { result ≡ endian };

    /// Returns the number of the two bytes from index `at` on.
    fn two(bytes: &[u8], at: usize) -> u32
        requires { at + 2 ≤ length bytes.now }
        ensures { IsUnitAt (Two endian) bytes.now at result };

    /// Returns the number of the four bytes from index `at` on.
    fn four(bytes: &[u8], at: usize) -> u32
        requires { at + 4 ≤ length bytes.now }
        ensures { IsUnitAt (Four endian) bytes.now at result };

    /// Writes a number below 0x10000 as two bytes from index `at` on. All other bytes stay.
    fn write_two(out: &mut [u8], at: usize, number: u32)
        requires few { number < 0x10000 }
        requires room { at + 2 ≤ length out.old }
        ensures { out.new
            ≡ take at out.old ++ unit_of (Two endian) number ++ drop (at + 2) out.old };

    /// Writes a number as four bytes from index `at` on. All other bytes stay.
    fn write_four(out: &mut [u8], at: usize, number: u32)
        requires { at + 4 ≤ length out.old }
        ensures { out.new
            ≡ take at out.old ++ unit_of (Four endian) number ++ drop (at + 4) out.old };
}

/// The highest byte first.
pub struct BigEndian;

impl ByteOrder for BigEndian {
    ghost endian = { Big };

    #[inline(always)]
    fn order() -> Endian {
        Endian::Big
    }

    // This and the next function read the lowest byte first and swap, so that LLVM loads all bytes at once.
    #[inline(always)]
    fn two(bytes: &[u8], at: usize) -> u32 {
        u16::from_le_bytes([bytes[at], bytes[at + 1]]).swap_bytes() as u32
    }

    #[inline(always)]
    fn four(bytes: &[u8], at: usize) -> u32 {
        u32::from_le_bytes([bytes[at], bytes[at + 1], bytes[at + 2], bytes[at + 3]]).swap_bytes()
    }

    #[inline(always)]
    fn write_two(out: &mut [u8], at: usize, number: u32) {
        write_slice(out, at, [(number / 0x100) as u8, (number % 0x100) as u8]);
    }

    #[inline(always)]
    fn write_four(out: &mut [u8], at: usize, number: u32) {
        write_slice(
            out,
            at,
            [
                (number / 0x100_0000) as u8,
                (number / 0x1_0000 % 0x100) as u8,
                (number / 0x100 % 0x100) as u8,
                (number % 0x100) as u8,
            ],
        );
    }
}

/// The lowest byte first.
pub struct LittleEndian;

impl ByteOrder for LittleEndian {
    ghost endian = { Little };

    #[inline(always)]
    fn order() -> Endian {
        Endian::Little
    }

    // This and the next function are inlined late, so that LLVM loads all bytes at once before it sees which of them
    // are tested.
    #[inline]
    fn two(bytes: &[u8], at: usize) -> u32 {
        u16::from_le_bytes([bytes[at], bytes[at + 1]]) as u32
    }

    #[inline]
    fn four(bytes: &[u8], at: usize) -> u32 {
        u32::from_le_bytes([bytes[at], bytes[at + 1], bytes[at + 2], bytes[at + 3]])
    }

    #[inline(always)]
    fn write_two(out: &mut [u8], at: usize, number: u32) {
        write_slice(out, at, [(number % 0x100) as u8, (number / 0x100) as u8]);
    }

    #[inline(always)]
    fn write_four(out: &mut [u8], at: usize, number: u32) {
        write_slice(
            out,
            at,
            [
                (number % 0x100) as u8,
                (number / 0x100 % 0x100) as u8,
                (number / 0x1_0000 % 0x100) as u8,
                (number / 0x100_0000) as u8,
            ],
        );
    }
}
