//! An encoding form in a byte order, as a codec: UTF-16 and UTF-32.
ghost use Rattle.std.specs.Prelude.{◌≡◌, []};
ghost use Rattle.cv_utf16.specs.Orders.{reads_in, writes_in};

use crate::in_order::{item_in, most_bytes_in, put_in};
use crate::order::Order;
use crate::wide_form::WideForm;
use cv_base::{AsciiForm, Codec, Item, Piece, Put, ReadState, Scalar, WriteState};
use std::marker::PhantomData;

/// An encoding scheme (Unicode 3.10, D96 to D101): an encoding form in a byte order. With `Marked` the first character
/// is written in one piece with a mark. A state that the order does not use is treated as `Start`.
#[derive(Clone, Copy)]
pub struct EncodingScheme<F> {
    /// The byte order.
    pub order: Order,
    form: PhantomData<F>,
}

impl<F> EncodingScheme<F> {
    /// Returns the encoding scheme of the form in this byte order.
    #[inline(always)]
    pub fn new(order: Order) -> EncodingScheme<F>
        ensures { result.order ≡ order }
    {
        EncodingScheme {
            order,
            form: PhantomData,
        }
    }
}

impl<F: WideForm> Codec for EncodingScheme<F> {
    ghost reads = { λ scheme. reads_in F.form scheme.order };

    ghost writes = { λ scheme. writes_in F.form scheme.order };

    ghost closes = { λ _ _. [] };

    #[tactic(auto, using(crate::proofs::FormsInOrder::in_readable, crate::proofs::FormsInOrder::in_substitutable))]
    fn assert_valid(&self) {
        F::assert_form();
    }

    #[inline(always)]
    fn item(&self, state: ReadState, input: &[u8]) -> Item {
        item_in::<F>(self.order, state, input)
    }

    #[inline]
    fn put_at(&self, state: WriteState, c: Scalar, out: &mut [u8], at: usize) -> Put {
        put_in::<F>(self.order, state, c, out, at)
    }

    fn close(&self, _state: WriteState) -> Piece {
        Piece::new()
    }

    fn most_bytes(&self) -> usize {
        most_bytes_in::<F>(self.order)
    }

    #[inline]
    fn reads_ascii(&self, state: ReadState) -> Option<AsciiForm> {
        let endian = self.order.kept_reading(state)?;
        Some(F::unit_form(endian))
    }

    #[inline]
    #[tactic(auto, using(crate::proofs::AsciiInOrder::writes_ascii))]
    fn writes_ascii(&self, state: WriteState) -> Option<AsciiForm> {
        let endian = self.order.kept_writing(state)?;
        Some(F::unit_form(endian))
    }
}
