//! Characters of two bytes, in rows by their first byte.
ghost use Rattle.std.specs.Prelude.{◌≤◌, ◌<◌, length, IfOk};
ghost use Rattle.cv_trie.specs.Private.Twos.{AreTwos, IsCell, most_cells};

use crate::reading_singles::NO_CHARACTER;
use crate::singles::{ROW, Singles};
use cv_byte_trie::{ByteTrie, Entry};
use std::alloc::{AllocError, Global};

/// How many cells follow the rows, one for each byte below 128.
pub(crate) const SINGLES: usize = 128;

/// Rows of 256 cells, one for each second byte, and the cells after them. There are no cells if no byte has a row.
#[derive(Debug, Drop)]
pub(crate) struct Rows {
    pub(crate) cells: Vec<u32>,
    ghost few: { length cells.items ≤ most_cells },
}

/// Returns the index of an entry of two bytes in the rows. It is 0 if its first byte has no row, or it has another
/// size.
fn cell_for(singles: &Singles, entry: &Entry) -> usize
    ensures { 0 < result → IsCell singles.now.cells.items entry.now.0 result }
{
    let bytes = entry.bytes();
    if bytes.len() != 2 {
        return 0;
    }
    let number = singles.cells[bytes[0] as usize];
    if number <= NO_CHARACTER {
        return 0;
    }
    (number - NO_CHARACTER) as usize + bytes[1] as usize
}

impl Rows {
    /// Makes the rows, with the characters of entries of two bytes, and the cells after them.
    pub(crate) fn of(alloc: Global, trie: &ByteTrie, singles: &Singles) -> Result<Rows, AllocError>
        ensures { IfOk result (λ rows. 0 < length rows.cells.items
            → AreTwos trie.now.entries singles.now.cells.items rows.cells.items) }
    {
        if singles.size == ROW {
            return Ok(Rows {
                cells: Vec::new(alloc),
            });
        }
        let entries = trie.entries();
        let mut cells = vec![in alloc; NO_CHARACTER; singles.size as usize + SINGLES]?;
        for index in 0..entries.len() {
            let entry = &entries[index];
            let cell = cell_for(singles, entry);
            if cell > 0 {
                cells[cell] = entry.character().value();
            }
        }
        Ok(Rows { cells })
    }
}
