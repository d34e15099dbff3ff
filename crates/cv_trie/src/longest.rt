//! The length of the longest byte string.
ghost use Rattle.cv_trie.specs.Private.Compiled.{HaveAtMost};

use cv_byte_trie::ByteTrie;

/// Returns how many bytes the longest entry has, or 0 if there are no entries.
pub(crate) fn longest(trie: &ByteTrie) -> usize
    ensures { HaveAtMost result trie.now.entries }
{
    let entries = trie.entries();
    let mut most = 0;
    for index in 0..entries.len() {
        most = most.max(entries[index].len());
    }
    most
}
