//! UTF-16 and UTF-32 by blocks.

use crate::encoding_scheme::EncodingScheme;
use crate::wide_form::WideForm;
use cv_base::{
    AsciiForm, BlockCodec, Endian, Policy, ReadBlock, ReadState, Scalar, WriteState, WrittenBlock,
};
use cv_block::{read_stateless, unit_prefix_len, write_stateless};

/// How many bytes of room a block needs for each character.
const BLOCK_ROOM: usize = 4;

impl<F: WideForm> BlockCodec for EncodingScheme<F> {
    #[tactic(auto, using(cv_base::proofs::BlockLaws::nothing_read))]
    fn read_block(&self, state: ReadState, input: &[u8], buffer: &mut [Scalar]) -> ReadBlock {
        F::assert_form();
        match self.order.kept_reading(state) {
            Some(Endian::Big) => read_stateless::<F::Be>(state, input, buffer),
            Some(Endian::Little) => read_stateless::<F::Le>(state, input, buffer),
            None => ReadBlock::nothing(state),
        }
    }

    #[inline(always)]
    #[tactic(auto, using(crate::proofs::AllWritten::in_allowed))]
    fn write_block(
        &self,
        _policy: Policy,
        state: WriteState,
        characters: &[Scalar],
        out: &mut [u8],
        at: usize,
    ) -> Option<WrittenBlock> {
        F::assert_form();
        if out.len() - at < BLOCK_ROOM * characters.len() {
            return None;
        }
        match self.order.kept_writing(state)? {
            Endian::Big => Some(write_stateless::<F::Be>(state, characters, out, at)),
            Endian::Little => Some(write_stateless::<F::Le>(state, characters, out, at)),
        }
    }

    #[inline]
    #[tactic(auto, using(cv_base::proofs::UnchangedLaws::none_unchanged))]
    fn unchanged(&self, reading: ReadState, writing: WriteState, input: &[u8]) -> usize {
        F::assert_form();
        match self.order.kept(reading, writing) {
            Some(Endian::Big) => unit_prefix_len::<F::BeUnit>(input),
            Some(Endian::Little) => unit_prefix_len::<F::LeUnit>(input),
            None => 0,
        }
    }

    #[inline]
    fn reads_latin(&self, state: ReadState) -> Option<AsciiForm> {
        let endian = self.order.kept_reading(state)?;
        Some(F::unit_form(endian))
    }

    #[inline]
    #[tactic(auto, using(crate::proofs::AsciiInOrder::writes_latin))]
    fn writes_latin(&self, state: WriteState) -> Option<AsciiForm> {
        let endian = self.order.kept_writing(state)?;
        Some(F::unit_form(endian))
    }
}
