//! UTF-32.
ghost use Rattle.std.specs.Prelude.{◌<◌, ◌↔◌, IsTrue, length};
ghost use Rattle.cv_utf16.specs.Private.Parts.{CanBeScalar, IsThird};
ghost use Rattle.cv_utf16.specs.Utf32.{utf32};

use crate::encoding_scheme::EncodingScheme;
use crate::stateless_utf32::StatelessUtf32;
use crate::wide_form::WideForm;
use cv_base::{AsciiForm, Endian, Item, Piece, ReadState, Scalar};
use cv_block::{BigEndian, ByteOrder, Four, LittleEndian};

/// The encoding form UTF-32 (Unicode Standard, section 3.9, D90): each character has four bytes.
#[derive(Clone, Copy)]
pub struct Utf32Form;

/// UTF-32 in a byte order. Its mark has four bytes.
pub type Utf32 = EncodingScheme<Utf32Form>;

/// Whether the second and third highest bytes of a number are those of no surrogate.
#[inline]
fn fits_third(second: u8, third: u8) -> bool
    ensures { IsTrue result ↔ IsThird second third }
{
    second != 0 || third < 0xd8 || third >= 0xe0
}

/// Whether a character can begin with these one to three bytes.
#[inline]
fn can_be_scalar(endian: Endian, part: &[u8]) -> bool
    requires some { 0 < length part.now }
    requires few { length part.now < 4 }
    ensures { IsTrue result ↔ CanBeScalar endian part.now }
{
    match endian {
        Endian::Big => {
            part[0] == 0
                && (part.len() < 2 || part[1] <= 0x10)
                && (part.len() < 3 || fits_third(part[1], part[2]))
        }
        Endian::Little => part.len() < 3 || part[2] <= 0x10 && fits_third(part[2], part[1]),
    }
}

impl WideForm for Utf32Form {
    ghost form = { utf32 };

    type Be = StatelessUtf32<BigEndian>;

    type Le = StatelessUtf32<LittleEndian>;

    type BeUnit = Four<BigEndian>;

    type LeUnit = Four<LittleEndian>;

    #[inline(always)]
    #[tactic(auto, using(crate::proofs::Utf32Form::utf32_is_form))]
    fn assert_form() {}

    #[inline(always)]
    #[tactic(auto, using(crate::proofs::Utf32Items::steps))]
    fn item<O: ByteOrder>(input: &[u8], next: ReadState) -> Item {
        if input.is_empty() {
            return Item::End;
        }
        if input.len() < 4 {
            if can_be_scalar(O::order(), input) {
                return Item::Incomplete;
            }
            return Item::Ill;
        }
        match Scalar::new(O::four(input, 0)) {
            Some(c) => Item::Char { c, n: 4, next },
            None => Item::Ill,
        }
    }

    #[inline]
    #[tactic(auto, using(crate::proofs::Utf32Form::size_four))]
    fn size(_c: Scalar) -> usize {
        4
    }

    #[inline]
    fn write<O: ByteOrder>(c: Scalar, out: &mut [u8], at: usize) {
        O::write_four(out, at, c.value());
    }

    fn mark(endian: Endian) -> Piece {
        match endian {
            Endian::Big => Piece::of(&[0x00, 0x00, 0xfe, 0xff]),
            Endian::Little => Piece::of(&[0xff, 0xfe, 0x00, 0x00]),
        }
    }

    #[inline(always)]
    fn unit_form(endian: Endian) -> AsciiForm {
        AsciiForm::Four(endian)
    }
}
