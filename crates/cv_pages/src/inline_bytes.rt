//! Bytes that are ready to be written.
ghost use Rattle.std.specs.Prelude.{◌≡◌, ◌≤◌, ◌<◌, ◌+◌, ◌++◌, [], length, take, slice_index_or, IfOk};
ghost use Rattle.cv_pages.specs.InlineBytes.{IsInline, AreInline, not_inline};

use cv_byte_trie::Entry;
use std::alloc::{AllocError, Global};

/// The most bytes of an entry that are kept ready.
pub const MAX_INLINE: usize = 4;

/// The size of bytes that are more than four, or of no entry. Eight sizes together are less than this, unless it is one
/// of them.
pub const NOT_INLINE: u8 = 33;

/// For each cell of pages the bytes of the entry that it names, if they are four at most. They are written without
/// reading the entry.
#[derive(Debug, Drop)]
pub struct InlineBytes {
    /// The bytes of each cell, with others after them if they are fewer than four.
    pub bytes: Vec<[u8; MAX_INLINE]>,
    /// How many bytes each cell has, or [`NOT_INLINE`].
    pub sizes: Vec<u8>,
}

/// Returns the bytes of an entry that has four at most, with others after them if it has fewer.
fn first_four(entry: &Entry) -> [u8; MAX_INLINE]
    requires { length entry.now.0 ≤ 4 }
    ensures size { length result ≡ 4 }
    ensures bytes { take (length entry.now.0) result ≡ entry.now.0 }
{
    let mut first = [0u8; MAX_INLINE];
    first.copy_from_slice(&entry.padded()[..MAX_INLINE]);
    first
}

/// Returns the bytes of the entry at an index and their size, or [`NOT_INLINE`] if there is no such entry or it has
/// more than four.
fn inline_of(entries: &[Entry], index: u32) -> ([u8; MAX_INLINE], u8)
    requires few { length entries.now ≤ 0x1000000 }
    ensures least { result.1 ≤ not_inline }
    ensures short { result.1 < not_inline → IsInline entries.now index result.0 result.1 }
{
    if index as usize >= entries.len() || entries[index as usize].len() > MAX_INLINE {
        return ([0; MAX_INLINE], NOT_INLINE);
    }
    let entry = &entries[index as usize];
    (first_four(entry), entry.len() as u8)
}

impl InlineBytes {
    /// Makes the bytes for cells, by the entries that they name. If an allocation fails, it returns an error.
    pub fn of(alloc: Global, stage2: &[u32], entries: &[Entry]) -> Result<InlineBytes, AllocError>
        requires few { length entries.now ≤ 0x1000000 }
        ensures long { IfOk result (λ s. length s.bytes.items ≡ length stage2.now) }
        ensures sizes { IfOk result (λ s. length s.sizes.items ≡ length stage2.now) }
        ensures inline { IfOk result (λ s. AreInline stage2.now s.bytes.items s.sizes.items entries.now) }
    {
        let mut bytes = vec![in alloc; [0u8; MAX_INLINE]; stage2.len()]?;
        let mut sizes = vec![in alloc; NOT_INLINE; stage2.len()]?;
        for cell in 0..stage2.len() {
            let (first, size) = inline_of(entries, stage2[cell]);
            bytes[cell] = first;
            sizes[cell] = size;
        }
        Ok(InlineBytes { bytes, sizes })
    }

    /// Returns how many bytes they take, with the spare capacity.
    pub(crate) fn size(&self) -> usize {
        let bytes = self.bytes.capacity().saturating_mul(MAX_INLINE);
        bytes.saturating_add(self.sizes.capacity())
    }

    /// Writes the bytes of a cell at an index of a slice, and returns their size, which is [`NOT_INLINE`] if the cell
    /// has none. Any bytes may follow them: four are copied, a number known at compile time.
    #[inline(always)]
    pub fn put(&self, cell: usize, buffer: &mut [u8], used: usize) -> usize
        requires long { cell < length self.now.bytes.items }
        requires size { cell < length self.now.sizes.items }
        requires room { used + 4 ≤ length buffer.old }
        ensures size { result ≡ slice_index_or self.now.sizes.items cell not_inline }
        ensures stays { take used buffer.new ≡ take used buffer.old }
        ensures stand { result ≤ 4 → take (used + result) buffer.new
            ≡ take used buffer.old ++ take result (slice_index_or self.now.bytes.items cell []) }
        ensures long { length buffer.new ≡ length buffer.old }
    {
        buffer[used..used + MAX_INLINE].copy_from_slice(&self.bytes[cell]);
        self.sizes[cell] as usize
    }
}
