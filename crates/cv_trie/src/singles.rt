//! For each byte the character that it is by itself, or where its row begins.
ghost use Rattle.std.specs.Prelude.{◌≡◌, ◌≤◌, ◌<◌, ◌+◌, [], ◌∷◌, length, IfOk};
ghost use Rattle.cv_trie.specs.Private.Ones.{AreOnes, HasPair, no_character};
ghost use Rattle.cv_trie.specs.Private.Twos.{AreRows, most_cells};

use crate::firsts::Firsts;
use crate::reading_singles::NO_CHARACTER;
use cv_byte_trie::{ByteTrie, TAIL};
use std::alloc::{AllocError, Global};

/// How many cells a row has, one for each second byte.
pub(crate) const ROW: u32 = 256;

/// For each byte the character that it is by itself, or `NO_CHARACTER` plus the index of its row. A byte that is no
/// character and has no row has the row at 0.
#[derive(Debug, Drop)]
pub(crate) struct Singles {
    pub(crate) cells: Vec<u32>,
    /// How many cells the rows have together.
    pub(crate) size: u32,
    ghost long: { length cells.items ≡ 256 },
    ghost rows: { AreRows cells.items 256 size },
    ghost few: { size + 128 ≤ most_cells },
}

/// Returns the character that a byte is by itself, or `NO_CHARACTER`.
fn single_of(trie: &ByteTrie, byte: u8) -> u32
    ensures least { result ≤ no_character }
    ensures one { result < no_character → HasPair trie.now.entries (byte ∷ []) result }
{
    trie.assert_leads();
    let entries = trie.entries();
    let code = trie.step(0, byte);
    if code < TAIL {
        let character = entries[code as usize].character();
        character.value()
    } else {
        NO_CHARACTER
    }
}

impl Singles {
    /// Finds the characters of single bytes, and gives a row to each byte with which enough strings begin.
    pub(crate) fn of(alloc: Global, trie: &ByteTrie, firsts: &Firsts) -> Result<Singles, AllocError>
        ensures { IfOk result (λ singles. AreOnes trie.now.entries singles.cells.items 256) }
    {
        let mut cells = vec![in alloc; NO_CHARACTER; 256]?;
        let mut size = ROW;
        for byte in 0..256 {
            if firsts.are_many(byte as u8) {
                cells[byte] = NO_CHARACTER + size;
                size += ROW;
            } else {
                cells[byte] = single_of(trie, byte as u8);
            }
        }
        Ok(Singles { cells, size })
    }
}
