//! Characters of three and of four bytes, in blocks of cells by their first two bytes.
ghost use Rattle.std.specs.Prelude.{◌≡◌, ◌≤◌, ◌<◌, ◌+◌, ◌*◌, ℕ, IsTrue, length, drop, slice_index};
ghost use Rattle.cv_trie.specs.Private.Longs.{IsLong};
ghost use Rattle.cv_trie.specs.Private.Ones.{no_character};
ghost use Rattle.cv_trie.specs.Private.Twos.{AddsNoCharacter, most_cells};

use crate::reading_singles::NO_CHARACTER;
use crate::rows::Rows;
use crate::singles::Singles;
use cv_byte_trie::Entry;
use std::alloc::{AllocError, Global};

/// A block for two bytes.
#[derive(Clone, Copy, Debug)]
pub(crate) struct Block {
    /// What the two bytes have in the rows.
    pub(crate) number: u32,
    /// How many cells the block has: 0 if there is none.
    pub(crate) cells: u32,
}

/// A cell of a block: the index of an entry, or none. An index is a guess: readers have to compare the entry's bytes.
/// The type of the cell says how many bytes the entries have, and how their blocks are numbered.
pub(crate) trait KeyCell: Copy {
    ghost KEY: { ℕ };

    /// How many bytes the entries have.
    const KEY: usize;

    /// Does nothing. Its contract states how many bytes the entries have at least and at most.
    fn assert_key()
        ensures from { 3 ≤ KEY }
        ensures to { KEY ≤ 4 };

    /// Returns a cell with no entry.
    fn none() -> Self;

    /// Returns a cell with the index of an entry, or with none if the cell has too few bits.
    fn of(index: usize) -> Self;

    /// Returns the index of its entry, or one past all entries.
    fn entry_index(self) -> usize;

    /// Returns what two bytes have in the rows once one more entry that begins with them was counted. It is what they
    /// had if they are a character.
    fn counted(number: u32, third: u8) -> u32
        ensures { result < no_character → result ≡ number };

    /// Returns the block for two bytes, by the entries that were counted. The blocks before it have `size` cells.
    fn block(number: u32, size: u32) -> Block
        requires { size ≤ 4096 * most_cells }
        ensures number { result.number < no_character → result.number ≡ number }
        ensures few { result.cells ≤ 4096 };

    /// Tells whether two bytes have a block, by what they have in the rows.
    fn has_block(number: u32) -> bool
        ensures { IsTrue result → no_character < number };

    /// Returns the index of the cell for the bytes after the first two, which have this number in the rows.
    fn index(number: u32, third: u8, fourth: u8) -> usize
        requires { no_character < number };
}

/// Returns the index in the rows of the first two bytes of an entry. It is 0 if the first byte has no row, or the entry
/// has another size.
fn row_index<C: KeyCell>(singles: &Singles, entry: &Entry) -> usize {
    let bytes = entry.bytes();
    C::assert_key();
    if bytes.len() != C::KEY {
        return 0;
    }
    let number = singles.cells[bytes[0] as usize];
    if number <= NO_CHARACTER {
        return 0;
    }
    (number - NO_CHARACTER) as usize + bytes[1] as usize
}

/// Counts in the rows the entries that begin with each two bytes.
#[tactic(auto, using(crate::proofs::RowBlocks::adds_none_set))]
fn count_keys<C: KeyCell>(entries: &[Entry], singles: &Singles, rows: &mut Rows)
    ensures { AddsNoCharacter rows.old.cells.items rows.new.cells.items }
{
    for k in 0..entries.len() {
        let index = row_index::<C>(singles, &entries[k]);
        if index > 0 && index < rows.cells.len() {
            let third = entries[k].padded()[2];
            rows.cells[index] = C::counted(rows.cells[index], third);
        }
    }
}

/// Gives a block to each two bytes with which enough entries begin: their cell in the rows then says where the block
/// is. Returns how many cells the blocks have together.
#[tactic(auto, using(crate::proofs::RowBlocks::adds_none_set))]
fn number_blocks<C: KeyCell>(rows: &mut Rows) -> u32
    ensures { AddsNoCharacter rows.old.cells.items rows.new.cells.items }
{
    let mut size = 0;
    for index in 0..rows.cells.len() {
        let number = rows.cells[index];
        if number > NO_CHARACTER {
            let block = C::block(number, size);
            rows.cells[index] = block.number;
            size += block.cells;
        }
    }
    size
}

/// Makes the cells of the blocks, with the indices of entries. If two entries have the same cell, it has the later one.
fn fill_blocks<C: KeyCell>(
    alloc: Global,
    entries: &[Entry],
    singles: &Singles,
    rows: &Rows,
    size: u32,
) -> Result<Vec<C>, AllocError> {
    let mut cells = vec![in alloc; C::none(); size as usize]?;
    for k in 0..entries.len() {
        let entry = &entries[k];
        let index = row_index::<C>(singles, entry);
        if index > 0 && index < rows.cells.len() && C::has_block(rows.cells[index]) {
            let bytes = entry.padded();
            let cell = C::index(rows.cells[index], bytes[2], bytes[3]);
            if cell < cells.len() {
                cells[cell] = C::of(k);
            }
        }
    }
    Ok(cells)
}

/// Returns the cells of entries of one size, in blocks by their first two bytes, if the first byte has a row. The rows
/// then say where each block is. The longest entry has `most` bytes, so there may be none of that size.
#[tactic(auto, using(crate::proofs::RowBlocks::adds_none_twice))]
pub(crate) fn blocks_of<C: KeyCell>(
    alloc: Global,
    entries: &[Entry],
    most: usize,
    singles: &Singles,
    rows: &mut Rows,
) -> Result<Vec<C>, AllocError>
    ensures { AddsNoCharacter rows.old.cells.items rows.new.cells.items }
{
    if C::KEY > most {
        return Ok(Vec::new(alloc));
    }
    count_keys::<C>(entries, singles, rows);
    let size = number_blocks::<C>(rows);
    fill_blocks(alloc, entries, singles, rows, size)
}

/// Tells whether a text has these bytes of an entry at an index. LLVM compares them all at once.
#[inline(always)]
fn are_there<C: KeyCell>(bytes: &[u8; 8], input: &[u8], used: usize) -> bool
    requires long { length bytes.now ≡ 8 }
    requires within { used + 4 ≤ length input.now }
    ensures { IsTrue result → (k : ℕ) → k < C.KEY
        → slice_index bytes.now k ≡ slice_index input.now (used + k) }
{
    C::assert_key();
    for k in 0..C::KEY {
        if bytes[k] != input[used + k] {
            return false;
        }
    }
    true
}

/// Returns the character of the entry that a cell names, if its bytes are at an index of a text, or else
/// `NO_CHARACTER`. There may be no such cell. Its index is made by the callers, so that LLVM moves nothing before the
/// test which of two tables has it.
#[inline(always)]
pub(crate) fn character_at<C: KeyCell>(
    entries: &[Entry],
    cells: &[C],
    cell: usize,
    input: &[u8],
    used: usize,
) -> u32
    requires { used + 4 ≤ length input.now }
    ensures { result < no_character → IsLong entries.now (drop used input.now) C.KEY result }
{
    C::assert_key();
    if cell >= cells.len() {
        return NO_CHARACTER;
    }
    let index = cells[cell].entry_index();
    if index >= entries.len() {
        return NO_CHARACTER;
    }
    let entry = &entries[index];
    if entry.len() != C::KEY || !are_there::<C>(entry.padded(), input, used) {
        return NO_CHARACTER;
    }
    entry.character().value()
}
