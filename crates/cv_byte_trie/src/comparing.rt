//! Comparing a text with an entry.
ghost use Rattle.std.specs.Prelude.{◌<◌, length};
ghost use Rattle.cv_byte_trie.specs.Entries.{bytes_at};
ghost use Rattle.cv_byte_trie.specs.Private.Comparisons.{AgreeFor, Compares};

use crate::entry::Entry;

/// How a text compares with an entry's bytes.
#[derive(Clone, Copy, Debug)]
pub(crate) enum Comparison {
    /// The text begins with the entry's bytes.
    Held,
    /// The text is a proper prefix of the entry's bytes.
    Inside,
    /// They differ after this many bytes.
    Parts(usize),
}

/// Returns the length of the longest common prefix.
fn common(left: &[u8], right: &[u8]) -> usize
    ensures { AgreeFor left.now right.now result }
{
    let most = left.len().min(right.len());
    let mut count = 0;
    while count < most && left[count] == right[count] {
        count += 1;
    }
    count
}

/// Compares a text with a byte string.
fn compare_bytes(held: &[u8], text: &[u8]) -> Comparison
    ensures { Compares held.now text.now result }
{
    let common = common(held, text);
    if common == held.len() {
        Comparison::Held
    } else if common == text.len() {
        Comparison::Inside
    } else {
        Comparison::Parts(common)
    }
}

/// Compares a text with the entry at an index.
pub(crate) fn compare(entries: &[Entry], index: usize, text: &[u8]) -> Comparison
    requires { index < length entries.now }
    ensures { Compares (bytes_at entries.now index) text.now result }
{
    compare_bytes(entries[index].bytes(), text)
}
