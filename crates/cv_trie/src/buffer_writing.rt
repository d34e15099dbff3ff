//! Writing characters at the start of a buffer, several at once.
ghost use Rattle.std.specs.Prelude.{◌≡◌, ◌≤◌, ◌<◌, ◌+◌, ◌*◌, ◌++◌, length, take, unwrap_or, Some, IfSome};
ghost use Rattle.cv_base.specs.Chains.{output, written};
ghost use Rattle.cv_base.specs.declared.state.WriteState.{WriteState};
ghost use Rattle.cv_byte_trie.specs.Entries.{bytes_at};
ghost use Rattle.cv_trie.specs.Charmaps.{map_writes};
ghost use Rattle.cv_trie.specs.Private.Prefixes.{IsWritten, IsWrittenPrefix};

use crate::encoder::Encoder;
use crate::progress::Written;
use cv_base::Scalar;
use cv_byte_trie::Entry;
use cv_pages::{LANES, MAX_INLINE, NOT_INLINE, UNMAPPED};

/// The room that eight characters need while their bytes are put, even if the size of each is `NOT_INLINE`.
const READY_ROOM: usize = LANES * NOT_INLINE as usize;

/// The most bytes that eight characters have if `write_ready` writes them.
const MOST_READY: usize = LANES * MAX_INLINE;

/// Puts the bytes of an entry at an index, and returns how many they are. Any bytes may follow them: eight are copied,
/// a number known at compile time. They are copied through an array, since LLVM does not know that the entry and the
/// buffer do not overlap.
#[inline(always)]
fn put_entry(buffer: &mut [u8], used: usize, entry: &Entry) -> usize
    requires { used + 8 ≤ length buffer.old }
    ensures few { result ≤ 8 }
    ensures size { result ≡ length entry.now.0 }
    ensures stand { take (used + result) buffer.new ≡ take used buffer.old ++ entry.now.0 }
    ensures long { length buffer.new ≡ length buffer.old }
{
    let bytes = *entry.padded();
    buffer[used..used + 8].copy_from_slice(&bytes);
    entry.len()
}

impl Encoder<'_> {
    /// Returns the index of the entry that is written for a character, or that of `?`, and for how many characters it
    /// is `?`.
    #[inline(always)]
    fn choose(&self, c: Scalar) -> (u32, usize)
        ensures low { result.0 < length self.now.entries.now }
        ensures few { result.1 ≤ 1 }
        ensures written { written (map_writes self.now.entries.now) WriteState.Start (Some c)
            ≡ output (bytes_at self.now.entries.now result.0) result.1 WriteState.Start }
    {
        let index = self.pages.first_index(c.value());
        if index == UNMAPPED {
            (self.substitute, 1)
        } else {
            (index, 0)
        }
    }

    /// Writes the characters up to the `end`th one by one, after those before them. There is no branch for each of
    /// them. It is inlined, since in its callers the compiler knows that the buffer and the pages do not overlap, and
    /// writes eight characters without a loop.
    #[inline(always)]
    fn write_few(
        &self,
        characters: &[Scalar],
        end: usize,
        buffer: &mut [u8],
        before: Written,
    ) -> Written
        requires written { IsWritten self.now.entries.now characters.now buffer.old before }
        requires order { before.n ≤ end }
        requires within { end ≤ length characters.now }
        ensures on { result.n ≡ end }
        ensures written { IsWritten self.now.entries.now characters.now buffer.new result }
    {
        let entries = self.entries;
        let mut used = before.used;
        let mut count = before.count;
        for k in before.n..end {
            let (index, lacking) = self.choose(characters[k]);
            used += put_entry(buffer, used, &entries[index as usize]);
            count += lacking;
        }
        Written {
            n: end,
            used,
            count,
        }
    }

    /// Writes eight characters after those before them, if each has at most four bytes, which the pages keep. It tests
    /// the sum of the eight sizes, not each of them, so that there is no branch for each. Any bytes may follow those
    /// written. It writes nothing if this is known to be in vain.
    #[inline(always)]
    fn write_ready(
        &self,
        characters: &[Scalar],
        in_vain: bool,
        buffer: &mut [u8],
        before: Written,
    ) -> Option<Written>
        requires written { IsWritten self.now.entries.now characters.now buffer.old before }
        requires within { before.n + 8 ≤ length characters.now }
        ensures on { IfSome result (λ written. written.n ≡ before.n + 8) }
        ensures written { IsWritten self.now.entries.now characters.now buffer.new
            (unwrap_or result before) }
    {
        if in_vain
            || buffer.len() - before.used < READY_ROOM
            || !self.pages.are_low(characters, before.n)
        {
            return None;
        }
        let mut used = before.used;
        for k in 0..LANES {
            let cell = self.pages.low_cell(characters[before.n + k].value());
            used += self.pages.inline.put(cell, buffer, used);
        }
        if used - before.used >= NOT_INLINE as usize {
            return None;
        }
        Some(Written {
            n: before.n + LANES,
            used,
            count: before.count,
        })
    }

    /// Writes eight characters after those before them. It tries all at once, unless this is known to be in vain.
    #[inline(always)]
    fn write_eight(
        &self,
        characters: &[Scalar],
        in_vain: bool,
        buffer: &mut [u8],
        before: Written,
    ) -> Written
        requires written { IsWritten self.now.entries.now characters.now buffer.old before }
        requires within { before.n + 8 ≤ length characters.now }
        ensures on { result.n ≡ before.n + 8 }
        ensures written { IsWritten self.now.entries.now characters.now buffer.new result }
    {
        match self.write_ready(characters, in_vain, buffer, before) {
            Some(written) => written,
            None => self.write_few(characters, before.n + LANES, buffer, before),
        }
    }

    /// Writes characters at the start of a buffer, eight at once. In a text full of characters that the charmap lacks,
    /// or that have many bytes, eight at once are tried in vain. So after eight of which one was lacking, or which had
    /// more than `MOST_READY` bytes together, the next eight are written one by one.
    #[inline(always)]
    pub(crate) fn write_prefix(&self, characters: &[Scalar], buffer: &mut [u8]) -> Written
        requires { 8 * length characters.now ≤ length buffer.old }
        ensures short { result.used ≤ 8 * length characters.now }
        ensures long { length buffer.new ≡ length buffer.old }
        ensures written { IsWrittenPrefix (map_writes self.now.entries.now) characters.now buffer.new
            result.used result.count }
    {
        let encoder = *self;
        let mut written = Written {
            n: 0,
            used: 0,
            count: 0,
        };
        let mut in_vain = false;
        while characters.len() - written.n >= LANES {
            let before = written;
            written = encoder.write_eight(characters, in_vain, buffer, before);
            in_vain = written.count > before.count || written.used > before.used + MOST_READY;
        }
        encoder.write_few(characters, characters.len(), buffer, written)
    }
}
