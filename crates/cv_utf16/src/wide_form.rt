//! What UTF-16 and UTF-32 have in common: encoding forms whose units have a byte order.
ghost use Rattle.std.specs.Prelude.{◌≡◌, ◌≤◌, ◌+◌, length};
ghost use Rattle.cv_base.specs.Items.{IsNext};
ghost use Rattle.cv_base.specs.Places.{IsPut};
ghost use Rattle.cv_base.specs.declared.endian.Endian.{Endian};
ghost use Rattle.cv_base.specs.declared.endian.Endian.TheVariants.{Big, Little};
ghost use Rattle.cv_block.specs.Units.{HasUnits};
ghost use Rattle.cv_utf16.specs.Orders.{OrderedForm, mark};
ghost use Rattle.cv_utf16.specs.Private.AnyState.{always_gives};
ghost use Rattle.cv_utf16.specs.Private.Forms.{IsForm};

use cv_base::{AsciiForm, Endian, Item, Piece, ReadState, Scalar};
use cv_block::{ByteOrder, StatelessForm, Unit};

/// An encoding form whose units have a byte order.
pub(crate) trait WideForm {
    ghost form: { OrderedForm };

    /// Its big-endian form, for blocks.
    type Be: StatelessForm;

    /// Its little-endian form, for blocks.
    type Le: StatelessForm;

    /// Its big-endian units.
    type BeUnit: Unit;

    /// Its little-endian units.
    type LeUnit: Unit;

    /// Does nothing. Its contract states what holds of the bytes of its characters.
    fn assert_form()
        ensures form { IsForm form }
        ensures be { Self.Be.bytes_of ≡ form Big }
        ensures le { Self.Le.bytes_of ≡ form Little }
        ensures be_unit { HasUnits Self.BeUnit.form (form Big) }
        ensures le_unit { HasUnits Self.LeUnit.form (form Little) };

    /// Returns what is next in a text in one byte order. The state after a character is `next`.
    fn item<O: ByteOrder>(input: &[u8], next: ReadState) -> Item
        ensures { IsNext (always_gives (form O.endian) next) next input.now result };

    /// Returns how many bytes a character has, which is the same in each byte order.
    fn size(c: Scalar) -> usize
        ensures few { result ≤ 4 }
        ensures bytes { (endian : Endian) → result ≡ length (form endian c) };

    /// Writes a character in a byte order into a slice from index `at` on.
    fn write<O: ByteOrder>(c: Scalar, out: &mut [u8], at: usize)
        requires { at + length (form O.endian c) ≤ length out.old }
        ensures { IsPut (form O.endian c) out.old at (length (form O.endian c)) out.new };

    /// Returns the byte order mark in a byte order.
    fn mark(endian: Endian) -> Piece
        ensures { result ≡ form endian mark };

    /// Returns the form of its units: a character of one unit has the bytes of that unit.
    fn unit_form(endian: Endian) -> AsciiForm
        ensures { HasUnits result (form endian) };
}
