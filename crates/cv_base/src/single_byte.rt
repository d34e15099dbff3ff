//! The codec of the encodings in which each character is the byte with its value.
ghost use Rattle.std.specs.Prelude.{◌≤◌, ℕ, []};
ghost use Rattle.cv_base.specs.SingleBytes.{byte_reads, byte_writes};

use crate::ascii_form::AsciiForm;
use crate::block::{ReadBlock, WrittenBlock};
use crate::block_codec::BlockCodec;
use crate::bytes::{below, write_bytes};
use crate::codec::Codec;
use crate::item::Item;
use crate::piece::Piece;
use crate::policy::Policy;
use crate::put::{Put, write_slice};
use crate::scalar::Scalar;
use crate::state::{ReadState, WriteState};

/// An encoding in which each character is the byte with its value. It has the characters below a limit, which are at
/// least those of US-ASCII.
pub trait SingleByte {
    ghost LIMIT: { ℕ };

    /// The number after that of the last character.
    const LIMIT: u32;

    /// Does nothing. Its contract states between which numbers the limit is, for callers that need it.
    fn assert_limit()
        ensures from { 128 ≤ LIMIT }
        ensures to { LIMIT ≤ 256 };
}

impl<S: SingleByte> Codec for S {
    ghost reads = { λ _. byte_reads S.LIMIT };

    ghost writes = { λ _. byte_writes S.LIMIT };

    ghost closes = { λ _ _. [] };

    #[tactic(auto, using(crate::proofs::SingleByteLaws::byte_readable, crate::proofs::SingleByteLaws::byte_written))]
    fn assert_valid(&self) {
        S::assert_limit();
    }

    #[inline]
    #[tactic(auto, using(crate::proofs::SingleByteItems::byte_stands, crate::proofs::SingleByteItems::byte_ill))]
    fn item(&self, _state: ReadState, input: &[u8]) -> Item {
        match input {
            [] => Item::End,
            [b, ..] if (*b as u32) < S::LIMIT => Item::Char {
                c: Scalar::known(*b as u32),
                n: 1,
                next: ReadState::Start,
            },
            _ => Item::Ill,
        }
    }

    #[inline]
    fn put_at(&self, _state: WriteState, c: Scalar, out: &mut [u8], at: usize) -> Put {
        S::assert_limit();
        let value = c.value();
        if value >= S::LIMIT {
            return Put::Lacks;
        }
        if out.len() - at < 1 {
            return Put::NoRoom;
        }
        write_slice(out, at, [value as u8]);
        Put::Wrote {
            n: 1,
            next: WriteState::Start,
        }
    }

    fn close(&self, _state: WriteState) -> Piece {
        Piece::new()
    }

    #[tactic(auto, using(crate::proofs::SingleByteItems::byte_writes_one))]
    fn most_bytes(&self) -> usize {
        1
    }

    #[inline]
    fn reads_ascii(&self, state: ReadState) -> Option<AsciiForm> {
        S::assert_limit();
        (state == ReadState::Start).then_some(AsciiForm::Byte)
    }

    #[inline]
    #[tactic(auto, using(crate::proofs::SingleByteLaws::byte_written))]
    fn writes_ascii(&self, state: WriteState) -> Option<AsciiForm> {
        S::assert_limit();
        (state == WriteState::Start).then_some(AsciiForm::Byte)
    }
}

impl<S: SingleByte> BlockCodec for S {
    /// Reads bytes below the limit. They are counted before, so that LLVM vectorizes the loop, but if all bytes are.
    #[tactic(auto, using(crate::proofs::BlockLaws::nothing_read))]
    fn read_block(&self, state: ReadState, input: &[u8], buffer: &mut [Scalar]) -> ReadBlock {
        let ReadState::Start = state else {
            return ReadBlock::nothing(state);
        };
        let mut n = input.len().min(buffer.len());
        let may_lack = S::LIMIT < 256;
        if may_lack {
            n = below(S::LIMIT, input, n);
        }
        for k in 0..n {
            buffer[k] = Scalar::known(input[k] as u32);
        }
        ReadBlock {
            n,
            used: n,
            next: ReadState::Start,
        }
    }

    #[inline(always)]
    fn write_block(
        &self,
        policy: Policy,
        state: WriteState,
        characters: &[Scalar],
        out: &mut [u8],
        at: usize,
    ) -> Option<WrittenBlock> {
        S::assert_limit();
        match state {
            WriteState::Start => write_bytes(S::LIMIT, policy, characters, out, at),
            _ => None,
        }
    }

    #[inline]
    #[tactic(auto, using(crate::proofs::UnchangedLaws::none_unchanged, crate::proofs::UnchangedLaws::bytes_unchanged))]
    fn unchanged(&self, reading: ReadState, writing: WriteState, input: &[u8]) -> usize {
        match (reading, writing) {
            (ReadState::Start, WriteState::Start) if S::LIMIT == 256 => input.len(),
            _ => 0,
        }
    }

    #[inline]
    fn reads_latin(&self, state: ReadState) -> Option<AsciiForm> {
        match state {
            ReadState::Start if S::LIMIT == 256 => Some(AsciiForm::Byte),
            _ => None,
        }
    }

    #[inline]
    #[tactic(auto, using(crate::proofs::SingleByteLaws::byte_written))]
    fn writes_latin(&self, state: WriteState) -> Option<AsciiForm> {
        match state {
            WriteState::Start if S::LIMIT == 256 => Some(AsciiForm::Byte),
            _ => None,
        }
    }
}
