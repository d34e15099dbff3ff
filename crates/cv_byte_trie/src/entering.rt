//! Adding an entry whose bytes lead nowhere, or differ from another's after a common prefix.
ghost use Rattle.std.specs.Prelude.{◌≡◌, ◌≢◌, ◌<◌, ◌≤◌, ◌+◌, ◌^◌, ℕ, [], ◌∷◌, ◌++◌, length, slice_index_or, OnOk};
ghost use Rattle.std.specs.Prelude.{OnErr};
ghost use Rattle.cv_byte_trie.specs.Entries.{bytes_at};
ghost use Rattle.cv_byte_trie.specs.Tries.{tails, none, IsAt};
ghost use Rattle.cv_byte_trie.specs.Tables.{node_count, edge_of};
ghost use Rattle.cv_byte_trie.specs.Private.Indexed.{IsIndexed};
ghost use Rattle.cv_byte_trie.specs.Private.Growth.{end_code};
ghost use Rattle.cv_byte_trie.specs.Private.Reading.{IsVacant, IsTail};
ghost use Rattle.cv_byte_trie.specs.Private.Comparisons.{AgreeFor};
ghost use Rattle.cv_byte_trie.specs.Results.{MeetsNone};

use crate::entry::Entry;
use crate::fork::Fork;
use crate::steps::{Steps, TAIL};
use crate::walking::Tail;
use cv_base::{Memory, Scalar};

/// Returns the code for the edge of the byte at `depth` to the entry at `index`, which has `len` bytes.
fn code_of(len: usize, depth: usize, index: usize) -> u32
    requires few { depth < 2 ^ 32 }
    requires low { index < tails }
    ensures value { result ≡ end_code len depth index }
    ensures leads { result ≢ none }
{
    if len == depth + 1 {
        index as u32
    } else {
        TAIL + index as u32
    }
}

/// Adds an entry. Its first `depth` bytes lead to `node`, which has no edge for the next.
#[inline(always)]
pub(crate) fn enter(
    entries: &mut Vec<Entry>,
    steps: &mut Steps,
    bytes: &[u8],
    character: Scalar,
    node: u32,
    depth: usize,
) -> Result<(), Memory>
    requires indexed { IsIndexed entries.old.items steps.old }
    requires vacant { IsVacant (edge_of steps.old) (node_count steps.old) entries.old.items
        bytes.now depth node }
    requires short { length bytes.now ≤ 8 }
    requires room { length entries.old.items < 0x1000000 }
    ensures indexed { IsIndexed entries.new.items steps.new }
    ensures at { OnOk result (IsAt (edge_of steps.new) (node_count steps.new) entries.new.items
        bytes.now depth node) }
    ensures others { OnOk result ((b : ℕ) → b < 256 → b ≢ slice_index_or bytes.now depth 0
        → edge_of steps.new node b ≡ edge_of steps.old node b) }
    ensures ok { OnOk result
        (entries.new.items ≡ entries.old.items ++ (bytes.now, character) ∷ []) }
    ensures err { OnErr result (entries.new.items ≡ entries.old.items) }
    ensures apart { MeetsNone entries.old.items bytes.now }
{
    let _scalar = character.value();
    let index = entries.len();
    let code = code_of(bytes.len(), depth, index);
    entries.push(Entry::new(bytes, character))?;
    match steps.set(node, bytes[depth], code) {
        Ok(()) => Ok(()),
        Err(_) => {
            entries.truncate(index);
            Err(Memory)
        }
    }
}

/// Adds an entry that has its first `common` bytes in common with the one at `tail.index`. The first `tail.depth` of
/// them lead to `tail.node`, and the next leads from there to that entry.
pub(crate) fn enter_beside(
    entries: &mut Vec<Entry>,
    steps: &mut Steps,
    bytes: &[u8],
    character: Scalar,
    tail: Tail,
    common: usize,
) -> Result<(), Memory>
    requires indexed { IsIndexed entries.old.items steps.old }
    requires tail { IsTail (edge_of steps.old) (node_count steps.old) entries.old.items
        bytes.now tail }
    requires agree { AgreeFor (bytes_at entries.old.items tail.index) bytes.now common }
    requires held { common < length (bytes_at entries.old.items tail.index) }
    requires more { common < length bytes.now }
    requires deep { tail.depth < common }
    requires short { length bytes.now ≤ 8 }
    requires room { length entries.old.items < 0x1000000 }
    ensures indexed { IsIndexed entries.new.items steps.new }
    ensures ok { OnOk result
        (entries.new.items ≡ entries.old.items ++ (bytes.now, character) ∷ []) }
    ensures err { OnErr result (entries.new.items ≡ entries.old.items) }
    ensures apart { MeetsNone entries.old.items bytes.now }
{
    let _scalar = character.value();
    let end = entries.len();
    let held = *entries[tail.index].padded();
    let code = code_of(entries[tail.index].len(), common, tail.index);
    let other_code = code_of(bytes.len(), common, end);
    entries.push(Entry::new(bytes, character))?;
    let fork = Fork {
        bytes: &held[tail.depth + 1..common + 1],
        code,
        other_byte: bytes[common],
        other_code,
    };
    match steps.split_edge(tail.node, bytes[tail.depth], &fork) {
        Ok(()) => Ok(()),
        Err(_) => {
            entries.truncate(end);
            Err(Memory)
        }
    }
}
