//! Entering many entries from one node.
ghost use Rattle.std.specs.Prelude.{◌≡◌, ◌<◌, ◌≤◌, ◌+◌, ◌-◌, ℕ, ◌++◌, length, slice_index};
ghost use Rattle.cv_base.specs.Scalars.{IsScalar};
ghost use Rattle.cv_byte_trie.specs.Runs.{run_of};
ghost use Rattle.cv_byte_trie.specs.Tries.{IsAt};
ghost use Rattle.cv_byte_trie.specs.Tables.{node_count, edge_of};
ghost use Rattle.cv_byte_trie.specs.Private.Indexed.{IsIndexed};

use crate::entering::enter;
use crate::entry::Entry;
use crate::steps::Steps;
use cv_base::Scalar;

/// Adds entries whose last byte and character count up from the given ones, and returns how many: at most `most`. It
/// ends before the first whose last byte has an edge from `node`, to which the bytes before it lead, or if an
/// allocation fails.
pub(crate) fn enter_run(
    entries: &mut Vec<Entry>,
    steps: &mut Steps,
    bytes: &[u8],
    character: Scalar,
    node: u32,
    most: usize,
) -> usize
    requires indexed { IsIndexed entries.old.items steps.old }
    requires at { IsAt (edge_of steps.old) (node_count steps.old) entries.old.items
        bytes.now (length bytes.now - 1) node }
    requires some { 0 < length bytes.now }
    requires short { length bytes.now ≤ 8 }
    requires room { length entries.old.items + most ≤ 0x1000000 }
    requires bytes { slice_index bytes.now (length bytes.now - 1) + most ≤ 256 }
    requires scalars { (k : ℕ) → k < most → IsScalar (character + k) }
    ensures indexed { IsIndexed entries.new.items steps.new }
    ensures run { entries.new.items ≡ entries.old.items ++ run_of bytes.now character result }
    ensures few { result ≤ most }
{
    let depth = bytes.len() - 1;
    let last = bytes[depth];
    let free = steps.free_from(node, last, most);
    let mut word = [0u8; 8];
    word[..bytes.len()].copy_from_slice(bytes);
    let mut added = 0;
    while added < free {
        word[depth] = last + added as u8;
        let next = Scalar::known(character.value() + added as u32);
        match enter(entries, steps, &word[..depth + 1], next, node, depth) {
            Ok(()) => added += 1,
            Err(_) => return added,
        }
    }
    added
}
