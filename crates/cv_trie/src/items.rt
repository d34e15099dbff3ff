//! The next item of a text.
ghost use Rattle.cv_base.specs.Items.{IsNext};
ghost use Rattle.cv_base.specs.declared.state.ReadState.{ReadState};
ghost use Rattle.cv_trie.specs.Charmaps.{map_reads};

use cv_base::{Item, ReadState};
use cv_byte_trie::{ByteTrie, Lookup};

/// Returns the next item of a text, by the trie of a charmap's pairs. It is the same in every state.
pub(crate) fn next_item(trie: &ByteTrie, input: &[u8]) -> Item
    ensures { (state : ReadState) → IsNext (map_reads trie.now.entries) state input.now result }
{
    if input.is_empty() {
        return Item::End;
    }
    let entries = trie.entries();
    match trie.find(input) {
        Lookup::Entry(index) => {
            let entry = &entries[index];
            Item::Char {
                c: entry.character(),
                n: entry.len(),
                next: ReadState::Start,
            }
        }
        Lookup::Inside => Item::Incomplete,
        Lookup::Nothing => Item::Ill,
    }
}
