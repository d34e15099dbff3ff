//! Blocks for characters of four bytes, and reading these one after another.
ghost use Rattle.std.specs.Prelude.{◌≤◌, ◌<◌, length};
ghost use Rattle.cv_trie.specs.Private.Prefixes.{IsRead};

use crate::decoder::Decoder;
use crate::keys::{Block, KeyCell, character_at};
use crate::progress::Read;
use crate::reading_singles::NO_CHARACTER;
use cv_base::Scalar;
use cv_pages::UNMAPPED;

/// How many cells a block has: 16 for each third byte, one for each value of the last four bits of the fourth.
const BLOCK: u32 = 4096;

/// Two bytes get a block if at least this many strings of four bytes begin with them. A block takes 16 KiB, so a map
/// grows by at most 32 bytes for each of its pairs.
const DENSE: u32 = 512;

/// The index of an entry of four bytes. Fourth bytes with the same last four bits share a cell.
#[derive(Clone, Copy, Debug)]
pub(crate) struct FourBytes(u32);

impl KeyCell for FourBytes {
    ghost KEY = { 4 };

    const KEY: usize = 4;

    #[inline(always)]
    fn assert_key() {}

    fn none() -> Self {
        FourBytes(UNMAPPED)
    }

    fn of(index: usize) -> Self {
        FourBytes(index.min(UNMAPPED as usize) as u32)
    }

    #[inline(always)]
    fn entry_index(self) -> usize {
        self.0 as usize
    }

    /// Counts them up to `DENSE`. Two bytes that are no character have `NO_CHARACTER` plus the count.
    fn counted(number: u32, _third: u8) -> u32 {
        if number >= NO_CHARACTER && number < NO_CHARACTER + DENSE {
            number + 1
        } else {
            number
        }
    }

    /// The number says where the block begins. Other counts are cleared.
    fn block(number: u32, size: u32) -> Block {
        if number == NO_CHARACTER + DENSE {
            Block {
                number: NO_CHARACTER + 1 + size,
                cells: BLOCK,
            }
        } else {
            Block {
                number: number.min(NO_CHARACTER),
                cells: 0,
            }
        }
    }

    #[inline(always)]
    fn has_block(number: u32) -> bool {
        number > NO_CHARACTER
    }

    #[inline(always)]
    fn index(number: u32, third: u8, fourth: u8) -> usize {
        number as usize + third as usize * 16 + (fourth & 15) as usize - (NO_CHARACTER as usize + 1)
    }
}

impl Decoder<'_> {
    /// Reads characters of one and of four bytes after those that were read, up to the first that is in no table. As
    /// none has more than four bytes, the end of the text is tested once for all, so the last characters may be left.
    #[inline(never)]
    pub(crate) fn read_quads(&self, input: &[u8], buffer: &mut [Scalar], read: Read) -> Read
        requires read { IsRead self.now.trie.now.entries input.now read buffer.old }
        requires rows { 0 < length self.now.rows.now }
        ensures read { IsRead self.now.trie.now.entries input.now result buffer.new }
        ensures on { read.n ≤ result.n }
    {
        let entries = self.trie.entries();
        let singles = self.singles;
        let rows = self.rows;
        let cells = self.blocks.quad_blocks();
        let mut n = read.n;
        let mut used = read.used;
        let most = n + (buffer.len() - n).min((input.len() - used) / 4);
        while n < most {
            let first = singles[input[used] as usize];
            if first < NO_CHARACTER {
                buffer[n] = Scalar::known(first);
                n += 1;
                used += 1;
                continue;
            }
            let second = input[used + 1] as usize;
            let number = rows[first as usize + second - NO_CHARACTER as usize];
            if number <= NO_CHARACTER {
                break;
            }
            let cell = FourBytes::index(number, input[used + 2], input[used + 3]);
            let character = character_at(entries, cells, cell, input, used);
            if character >= NO_CHARACTER {
                break;
            }
            buffer[n] = Scalar::known(character);
            n += 1;
            used += 4;
        }
        Read { n, used }
    }
}
