//! UTF-8 read and written in blocks of characters.

use crate::read::well_formed::well_formed_prefix_len;
use crate::stateless_utf8::StatelessUtf8;
use crate::utf8::Utf8;
use cv_base::{BlockCodec, Policy, ReadBlock, ReadState, Scalar, WriteState, WrittenBlock};
use cv_block::{read_stateless, write_stateless};

/// How many bytes of room a block needs for each character.
const BLOCK_ROOM: usize = 4;

impl BlockCodec for Utf8 {
    #[tactic(auto, using(cv_base::proofs::BlockLaws::nothing_read))]
    fn read_block(&self, state: ReadState, input: &[u8], buffer: &mut [Scalar]) -> ReadBlock {
        match state {
            ReadState::Start => read_stateless::<StatelessUtf8>(state, input, buffer),
            _ => ReadBlock::nothing(state),
        }
    }

    #[tactic(auto, using(crate::proofs::AllWritten::utf8_allowed))]
    fn write_block(
        &self,
        _policy: Policy,
        state: WriteState,
        characters: &[Scalar],
        out: &mut [u8],
        at: usize,
    ) -> Option<WrittenBlock> {
        match state {
            WriteState::Start if out.len() - at >= BLOCK_ROOM * characters.len() => {
                Some(write_stateless::<StatelessUtf8>(state, characters, out, at))
            }
            _ => None,
        }
    }

    #[inline]
    #[tactic(auto, using(cv_base::proofs::UnchangedLaws::none_unchanged, crate::proofs::Utf8Front::utf8_unchanged))]
    fn unchanged(&self, reading: ReadState, writing: WriteState, input: &[u8]) -> usize {
        match (reading, writing) {
            (ReadState::Start, WriteState::Start) => well_formed_prefix_len(input),
            _ => 0,
        }
    }
}
