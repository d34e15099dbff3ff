//! UTF-16.
ghost use Rattle.std.specs.Prelude.{◌↔◌, IsTrue};
ghost use Rattle.cv_utf16.specs.Private.Parts.{CanBeLow, CanBeOther};
ghost use Rattle.cv_utf16.specs.Utf16.{utf16};

use crate::encoding_scheme::EncodingScheme;
use crate::stateless_utf16::StatelessUtf16;
use crate::wide_form::WideForm;
use cv_base::{AsciiForm, Endian, Item, Piece, ReadState, Scalar, character};
use cv_block::{
    BigEndian, ByteOrder, LittleEndian, Two, from_surrogates, is_high, is_low, lead_surrogate,
    trail_surrogate,
};

/// The encoding form UTF-16 (Unicode Standard, section 3.9, D91): each character has two or four bytes.
#[derive(Clone, Copy)]
pub struct Utf16Form;

/// UTF-16 in a byte order. Its mark has two bytes.
pub type Utf16 = EncodingScheme<Utf16Form>;

/// Whether a low surrogate can begin with this byte.
#[inline]
fn can_be_low(endian: Endian, first: u8) -> bool
    ensures { IsTrue result ↔ CanBeLow endian first }
{
    match endian {
        Endian::Big => first >= 0xdc && first < 0xe0,
        Endian::Little => true,
    }
}

/// Whether a unit that is no low surrogate can begin with this byte.
#[inline]
fn can_be_other(endian: Endian, first: u8) -> bool
    ensures { IsTrue result ↔ CanBeOther endian first }
{
    match endian {
        Endian::Big => first < 0xdc || first >= 0xe0,
        Endian::Little => true,
    }
}

impl WideForm for Utf16Form {
    ghost form = { utf16 };

    type Be = StatelessUtf16<BigEndian>;

    type Le = StatelessUtf16<LittleEndian>;

    type BeUnit = Two<BigEndian>;

    type LeUnit = Two<LittleEndian>;

    #[inline(always)]
    #[tactic(auto, using(crate::proofs::Utf16Form::utf16_is_form, crate::proofs::Utf16Units::one_unit))]
    fn assert_form() {}

    #[inline(always)]
    #[tactic(auto, using(crate::proofs::Utf16Items::steps))]
    fn item<O: ByteOrder>(input: &[u8], next: ReadState) -> Item {
        if input.is_empty() {
            return Item::End;
        }
        if input.len() < 2 {
            if can_be_other(O::order(), input[0]) {
                return Item::Incomplete;
            }
            return Item::Ill;
        }
        let first = O::two(input, 0);
        if is_low(first) {
            return Item::Ill;
        }
        if !is_high(first) {
            return character(first, 2, next);
        }
        if input.len() == 2 {
            return Item::Incomplete;
        }
        if input.len() == 3 {
            if can_be_low(O::order(), input[2]) {
                return Item::Incomplete;
            }
            return Item::Ill;
        }
        let second = O::two(input, 2);
        if !is_low(second) {
            return Item::Ill;
        }
        character(from_surrogates(first, second), 4, next)
    }

    #[inline]
    #[tactic(auto, using(crate::proofs::Utf16Units::size_one, crate::proofs::Utf16Units::size_two))]
    fn size(c: Scalar) -> usize {
        if c.value() < 0x1_0000 { 2 } else { 4 }
    }

    #[inline]
    fn write<O: ByteOrder>(c: Scalar, out: &mut [u8], at: usize) {
        let value = c.value();
        O::write_two(out, at, lead_surrogate(value));
        if value >= 0x1_0000 {
            O::write_two(out, at + 2, trail_surrogate(value));
        }
    }

    fn mark(endian: Endian) -> Piece {
        match endian {
            Endian::Big => Piece::of(&[0xfe, 0xff]),
            Endian::Little => Piece::of(&[0xff, 0xfe]),
        }
    }

    #[inline(always)]
    #[tactic(auto, using(crate::proofs::Utf16Units::one_unit))]
    fn unit_form(endian: Endian) -> AsciiForm {
        AsciiForm::Two(endian)
    }
}
