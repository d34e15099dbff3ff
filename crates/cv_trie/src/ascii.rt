//! Whether a charmap reads and writes ASCII as itself.
ghost use Rattle.std.specs.Prelude.{IsTrue};
ghost use Rattle.cv_base.specs.Ascii.{ReadsAscii, WritesAscii};
ghost use Rattle.cv_base.specs.declared.ascii_form.AsciiForm.{AsciiForm};
ghost use Rattle.cv_base.specs.declared.state.ReadState.{ReadState};
ghost use Rattle.cv_base.specs.declared.state.WriteState.{WriteState};
ghost use Rattle.cv_pages.specs.Paging.{AreFirst};
ghost use Rattle.cv_trie.specs.Charmaps.{map_reads, map_writes};

use cv_byte_trie::{ByteTrie, Entry, TAIL};
use cv_pages::{PageTable, UNMAPPED};

/// Tells whether each ASCII byte is read as its character.
pub(crate) fn does_read_ascii(trie: &ByteTrie) -> bool
    ensures { IsTrue result
        → ReadsAscii (map_reads trie.now.entries) ReadState.Start AsciiForm.Byte }
{
    trie.assert_leads();
    for byte in 0..128u8 {
        let code = trie.step(0, byte);
        if code >= TAIL || trie.entries()[code as usize].character().value() != byte as u32 {
            return false;
        }
    }
    true
}

/// Tells whether each ASCII character is written as its byte.
pub(crate) fn does_write_ascii(pages: &PageTable, entries: &[Entry]) -> bool
    requires names { AreFirst pages.now.stage1.items pages.now.stage2.items entries.now }
    ensures { IsTrue result
        → WritesAscii (map_writes entries.now) WriteState.Start AsciiForm.Byte }
{
    for character in 0..128u8 {
        let index = pages.first_index(character as u32);
        if index == UNMAPPED || entries[index as usize].bytes() != [character].as_slice() {
            return false;
        }
    }
    true
}
