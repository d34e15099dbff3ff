//! A charmap's bytes to characters.
ghost use Rattle.std.specs.Prelude.{◌≡◌, ◌<◌, ◌≤◌, ◌+◌, ℕ, length};
ghost use Rattle.cv_base.specs.Blocks.{IsReadBlock};
ghost use Rattle.cv_base.specs.declared.state.ReadState.{ReadState};
ghost use Rattle.cv_trie.specs.Charmaps.{map_reads};
ghost use Rattle.cv_trie.specs.Private.Ones.{AreOnes};
ghost use Rattle.cv_trie.specs.Private.Twos.{AreTwos, row_of};
ghost use Rattle.cv_trie.specs.Private.Starts.{AreStarts};

use crate::blocks::Blocks;
use crate::progress::Read;
use crate::reading::read_longer;
use crate::reading_singles::NO_CHARACTER;
use cv_base::{ReadBlock, ReadState, Scalar};
use cv_byte_trie::ByteTrie;
use cv_pages::LANES;

/// A charmap's bytes to characters: the trie of its pairs, and the tables that are tried first.
#[derive(Clone, Copy, Debug)]
pub(crate) struct Decoder<'a> {
    pub(crate) trie: &'a ByteTrie,
    /// For each byte the character that it is by itself, or `NO_CHARACTER` plus the index of its row.
    pub(crate) singles: &'a [u32],
    /// The characters of two bytes, in rows by their first byte, if there are any.
    pub(crate) rows: &'a [u32],
    /// For each byte the index of its row, or of its own cell, if eight characters at once are to be tried.
    pub(crate) row_offsets: &'a [u32],
    /// The blocks of longer strings.
    pub(crate) blocks: &'a Blocks,
    ghost long: { length singles.now ≡ 256 },
    ghost within: { 0 < length rows.now → (b : ℕ) → b < 256 → row_of singles.now b + 384 ≤ length rows.now },
    ghost singles_are: { AreOnes trie.now.entries singles.now 256 },
    ghost rows_are: { 0 < length rows.now → AreTwos trie.now.entries singles.now rows.now },
    ghost offsets_are: { 0 < length row_offsets.now → AreStarts singles.now rows.now row_offsets.now },
}

impl Decoder<'_> {
    /// Reads characters from the start of a text into a buffer. It follows bytes through the trie only if no table has
    /// the next character. If eight characters at once were read and fewer than eight cells of the buffer are left,
    /// these stay empty: one by one they would take longer than as part of the next eight.
    #[inline(never)]
    pub(crate) fn read_block(&self, input: &[u8], buffer: &mut [Scalar]) -> ReadBlock
        ensures block { IsReadBlock (map_reads self.now.trie.now.entries) ReadState.Start input.now
            result buffer.new }
        ensures size { length buffer.new ≡ length buffer.old }
    {
        let mut read = Read { n: 0, used: 0 };
        let has_rows = !self.rows.is_empty();
        let has_offsets = !self.row_offsets.is_empty();
        let has_quads = !self.blocks.quad_blocks().is_empty();
        while read.n < buffer.len() && read.used < input.len() {
            let before = read.n;
            if has_offsets {
                read = self.read_windows(input, buffer, read);
                if read.n > before && buffer.len() - read.n < LANES {
                    break;
                }
            }
            if self.singles[input[read.used] as usize] < NO_CHARACTER {
                read = self.read_singles(input, buffer, read);
            }
            if has_rows {
                if has_quads {
                    read = self.read_quads(input, buffer, read);
                }
                read = self.read_mixed(input, buffer, read);
            }
            // Otherwise `read_mixed` has already followed the bytes that are next.
            if read.n == before && (!has_rows || input.len() - read.used < 2) {
                read = read_longer(self.trie, input, buffer, read);
            }
            if read.n == before {
                break;
            }
        }
        ReadBlock {
            n: read.n,
            used: read.used,
            next: ReadState::Start,
        }
    }
}
