//! UTF-7 by blocks.

use crate::read::blocks::{read_on, read_one};
use crate::read::sixteen_digits::PLACES;
use crate::utf7::Utf7;
use crate::write::blocks::write_on;
use crate::write::direct_runs::write_direct_run;
use crate::write::sequences::WriteProgress;
use cv_base::{
    AsciiForm, BlockCodec, Policy, ReadBlock, ReadState, Scalar, WriteState, WrittenBlock,
};

/// How many bytes of room a block needs for each character.
const BLOCK_ROOM: usize = 6;

impl BlockCodec for Utf7 {
    fn read_block(&self, state: ReadState, input: &[u8], buffer: &mut [Scalar]) -> ReadBlock {
        let mut block = ReadBlock::nothing(state);
        loop {
            let run = read_on(input, buffer, block);
            if run.used == input.len() || buffer.len() - run.n < PLACES {
                return run;
            }
            match read_one(input, buffer, run) {
                Some(next) => block = next,
                None => return run,
            }
        }
    }

    #[tactic(auto, using(crate::proofs::AllWritten::utf7_allowed))]
    fn write_block(
        &self,
        _policy: Policy,
        state: WriteState,
        characters: &[Scalar],
        out: &mut [u8],
        at: usize,
    ) -> Option<WrittenBlock> {
        if out.len() - at < BLOCK_ROOM * characters.len() {
            return None;
        }
        let mut reached = WriteProgress {
            n: 0,
            end: at,
            next: state,
        };
        while reached.n < characters.len() {
            reached = write_on(characters, reached, out);
        }
        Some(WrittenBlock {
            wrote: reached.end - at,
            count: 0,
            next: reached.next,
        })
    }

    #[inline]
    fn write_ascii_run(
        &self,
        state: WriteState,
        form: AsciiForm,
        text: &[u8],
        out: &mut [u8],
        at: usize,
    ) -> usize {
        match state {
            WriteState::Start => write_direct_run(form, text, out, at),
            _ => 0,
        }
    }
}
