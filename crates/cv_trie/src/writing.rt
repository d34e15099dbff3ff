//! Writing characters, one or several at once.
ghost use Rattle.std.specs.Prelude.{◌≤◌, ◌+◌, ◌*◌, length};
ghost use Rattle.cv_base.specs.Places.{IsPut, PutsAt};
ghost use Rattle.cv_base.specs.Blocks.{MayWriteBlock};
ghost use Rattle.cv_base.specs.declared.state.WriteState.{WriteState};
ghost use Rattle.cv_trie.specs.Charmaps.{map_writes};

use crate::encoder::Encoder;
use crate::progress::Written;
use cv_base::{Policy, Put, Scalar, WriteState, WrittenBlock};
use cv_pages::UNMAPPED;

/// Copies bytes to an index of a slice.
fn put_bytes(out: &mut [u8], at: usize, bytes: &[u8])
    requires { at + length bytes.now ≤ length out.old }
    ensures { IsPut bytes.now out.old at (length bytes.now) out.new }
{
    let n = bytes.len();
    out[at..at + n].copy_from_slice(bytes);
}

impl Encoder<'_> {
    /// Writes a character at an index of a slice. It reports if the charmap lacks the character, or if the slice has no
    /// room for its bytes.
    #[inline(always)]
    pub(crate) fn put_character(&self, c: Scalar, out: &mut [u8], at: usize) -> Put
        requires { at ≤ length out.old }
        ensures { PutsAt (map_writes self.now.entries.now WriteState.Start c) out.old at result out.new }
    {
        let index = self.pages.first_index(c.value());
        if index == UNMAPPED {
            return Put::Lacks;
        }
        let entries = self.entries;
        let bytes = entries[index as usize].bytes();
        if bytes.len() > out.len() - at {
            return Put::NoRoom;
        }
        put_bytes(out, at, bytes);
        Put::Wrote {
            n: bytes.len(),
            next: WriteState::Start,
        }
    }

    /// Writes characters through a buffer of `BYTES` bytes, which is zeroed first. If the slice has too little room, it
    /// writes nothing.
    #[inline(always)]
    pub(crate) fn write_by<const BYTES: usize>(
        &self,
        policy: Policy,
        characters: &[Scalar],
        out: &mut [u8],
        at: usize,
    ) -> Option<WrittenBlock>
        requires few { 8 * length characters.now ≤ BYTES }
        requires small { BYTES ≤ 2048 }
        requires room { at ≤ length out.old }
        ensures { MayWriteBlock policy (map_writes self.now.entries.now) WriteState.Start
            characters.now out.old at result out.new }
    {
        let mut buffer = [0u8; BYTES];
        let Written { used, count, .. } = self.write_prefix(characters, &mut buffer);
        if !policy.allows(count) || used > out.len() - at {
            return None;
        }
        put_bytes(out, at, &buffer[..used]);
        Some(WrittenBlock {
            wrote: used,
            count,
            next: WriteState::Start,
        })
    }
}
