//! Characters of more than two bytes.
ghost use Rattle.std.specs.Prelude.{◌≡◌, ◌≤◌, ◌<◌, ◌+◌, ◌-◌, ◌*◌, ◌^◌, min, length, drop, vec_capacity};
ghost use Rattle.cv_trie.specs.Private.Ones.{no_character};
ghost use Rattle.cv_trie.specs.Private.Twos.{AddsNoCharacter};
ghost use Rattle.cv_trie.specs.Private.Longs.{IsLong};

use crate::keys::{KeyCell, blocks_of, character_at};
use crate::quad_blocks::FourBytes;
use crate::reading::follow;
use crate::reading_singles::NO_CHARACTER;
use crate::rows::Rows;
use crate::singles::Singles;
use crate::triple_blocks::{TRIPLES, ThreeBytes};
use cv_byte_trie::{ByteTrie, Entry, NONE};
use std::alloc::{AllocError, Global};

/// How many bytes a cell for strings of three bytes takes, and one for strings of four.
const SMALL_CELL: usize = 2;

const CELL: usize = 4;

/// The indices of entries of three and of four bytes, in blocks by their first two bytes. Each is a guess.
#[derive(Debug, Drop)]
pub(crate) struct Blocks {
    triple_blocks: Vec<ThreeBytes>,
    quad_blocks: Vec<FourBytes>,
}

/// The character at an index of a text.
#[derive(Clone, Copy, Debug)]
pub(crate) struct Long {
    /// The character, or `NO_CHARACTER` if none was found.
    pub(crate) character: u32,
    /// How many bytes it has.
    pub(crate) size: usize,
}

/// No character.
const NO_LONG: Long = Long {
    character: NO_CHARACTER,
    size: 0,
};

impl Blocks {
    /// Returns how many bytes the cells take, with the spare capacity.
    pub(crate) fn size(&self) -> usize
        ensures { result ≡ min (min (2 * vec_capacity self.now.triple_blocks) (2 ^ 64 - 1)
            + min (4 * vec_capacity self.now.quad_blocks) (2 ^ 64 - 1)) (2 ^ 64 - 1) }
    {
        let triple_blocks = self.triple_blocks.capacity().saturating_mul(SMALL_CELL);
        triple_blocks.saturating_add(self.quad_blocks.capacity().saturating_mul(CELL))
    }

    /// Tells whether there are no cells.
    pub(crate) fn is_empty(&self) -> bool {
        self.triple_blocks.is_empty() && self.quad_blocks.is_empty()
    }

    /// Returns the cells for entries of four bytes.
    #[inline(always)]
    pub(crate) fn quad_blocks(&self) -> &[FourBytes] {
        self.quad_blocks.as_slice()
    }

    /// Makes the blocks of entries, of which the longest has `most` bytes. The rows then say where each block begins.
    #[tactic(auto, using(crate::proofs::RowBlocks::adds_none_twice))]
    pub(crate) fn of(
        alloc: Global,
        entries: &[Entry],
        most: usize,
        singles: &Singles,
        rows: &mut Rows,
    ) -> Result<Blocks, AllocError>
        ensures { AddsNoCharacter rows.old.cells.items rows.new.cells.items }
    {
        let quad_blocks = blocks_of(alloc, entries, most, singles, rows)?;
        let triple_blocks = blocks_of(alloc, entries, most, singles, rows)?;
        Ok(Blocks {
            triple_blocks,
            quad_blocks,
        })
    }
}

/// Returns the character at an index of a text, found by following its bytes through the trie.
#[inline(never)]
pub(crate) fn followed_at(trie: &ByteTrie, input: &[u8], used: usize) -> Long
    requires within { used < length input.now }
    ensures { result.character < no_character
        → IsLong trie.now.entries (drop used input.now) result.size result.character }
{
    let followed = follow(trie, trie.root(), input, used);
    if followed.code >= NONE {
        return NO_LONG;
    }
    let entries = trie.entries();
    Long {
        character: entries[followed.code as usize].character().value(),
        size: followed.size,
    }
}

/// Returns the character of three or four bytes at an index of a text, if a table has it and at least four bytes are
/// left. The number in the rows for the first two bytes says where to look.
#[inline(always)]
pub(crate) fn tabled_at(
    trie: &ByteTrie,
    blocks: &Blocks,
    number: u32,
    input: &[u8],
    used: usize,
) -> Long
    requires within { used < length input.now }
    ensures { result.character < no_character
        → IsLong trie.now.entries (drop used input.now) result.size result.character }
{
    if number <= NO_CHARACTER || input.len() - used < 4 {
        return NO_LONG;
    }
    if number > TRIPLES {
        let entries = trie.entries();
        let cell = ThreeBytes::index(number, input[used + 2], 0);
        let character = character_at(entries, &blocks.triple_blocks, cell, input, used);
        return Long { character, size: 3 };
    }
    let cell = FourBytes::index(number, input[used + 2], input[used + 3]);
    let character = character_at(trie.entries(), &blocks.quad_blocks, cell, input, used);
    Long { character, size: 4 }
}
