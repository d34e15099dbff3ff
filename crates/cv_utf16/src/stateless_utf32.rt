//! UTF-32 as a stateless form, in each byte order.
ghost use Rattle.cv_utf16.specs.Utf32.{utf32};

use cv_base::Scalar;
use cv_block::{ByteOrder, Converted, Four, LANES, StatelessForm, read_units, write_units};
use std::marker::PhantomData;

/// UTF-32 in a byte order.
pub struct StatelessUtf32<O> {
    order: PhantomData<O>,
}

impl<O: ByteOrder> StatelessForm for StatelessUtf32<O> {
    ghost bytes_of = { utf32 O.endian };

    ghost ZERO_SIZE = { 4 };

    const RESUME_SIZE: usize = 4;

    const ZERO_SIZE: usize = 4;

    const MIN_AT_ONCE: usize = LANES;

    #[inline(always)]
    #[tactic(auto, using(crate::proofs::Utf32Form::four_bytes))]
    fn assert_short() {}

    #[inline(always)]
    fn read_at(input: &[u8], at: usize) -> Option<(Scalar, usize)> {
        if input.len() - at < 4 {
            return None;
        }
        let c = Scalar::new(O::four(input, at))?;
        Some((c, 4))
    }

    #[inline(always)]
    fn read_many(input: &[u8], at: usize, buffer: &mut [Scalar], n: usize) -> Converted {
        read_units::<Four<O>>(input, at, buffer, n)
    }

    #[inline(always)]
    fn write_at(c: Scalar, out: &mut [u8], at: usize) -> usize {
        O::write_four(out, at, c.value());
        4
    }

    #[inline(always)]
    fn write_many(characters: &[Scalar], n: usize, out: &mut [u8], at: usize) -> Converted {
        write_units::<Four<O>>(characters, n, out, at)
    }
}
