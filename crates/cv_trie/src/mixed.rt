//! Characters of any size, one after another.
ghost use Rattle.std.specs.Prelude.{◌≤◌, ◌<◌, length};
ghost use Rattle.cv_trie.specs.Private.Prefixes.{IsRead};

use crate::blocks::{followed_at, tabled_at};
use crate::decoder::Decoder;
use crate::progress::Read;
use crate::reading::read_longer;
use crate::reading_singles::NO_CHARACTER;
use cv_base::Scalar;

/// How many characters of one or two bytes are read after a longer one, before eight at once are tried again. It
/// affects speed alone.
const RETRY_EIGHT_AFTER: usize = 32;

impl Decoder<'_> {
    /// Reads characters after those that were read, up to bytes that are none, or up to `RETRY_EIGHT_AFTER` characters
    /// of one and of two bytes after a longer one. If two characters are in no table, with only single bytes between
    /// them, the trie alone reads the next. Kept out of line, so that its loop has the registers.
    #[inline(never)]
    pub(crate) fn read_mixed(&self, input: &[u8], buffer: &mut [Scalar], read: Read) -> Read
        requires read { IsRead self.now.trie.now.entries input.now read buffer.old }
        requires rows { 0 < length self.now.rows.now }
        ensures read { IsRead self.now.trie.now.entries input.now result buffer.new }
        ensures on { read.n ≤ result.n }
    {
        let trie = self.trie;
        let singles = self.singles;
        let rows = self.rows;
        let blocks = self.blocks;
        let mut n = read.n;
        let mut used = read.used;
        let mut most = buffer.len();
        // The number of bytes read less that of characters read, as it was after the last character that was followed.
        // Single bytes leave the difference as it is.
        let mut followed = usize::MAX;
        while n < most && input.len() - used >= 2 {
            let first = singles[input[used] as usize];
            if first < NO_CHARACTER {
                buffer[n] = Scalar::known(first);
                n += 1;
                used += 1;
                continue;
            }
            let second = input[used + 1] as usize;
            let number = rows[first as usize + second - NO_CHARACTER as usize];
            if number < NO_CHARACTER {
                buffer[n] = Scalar::known(number);
                n += 1;
                used += 2;
                continue;
            }
            let tabled = tabled_at(trie, blocks, number, input, used);
            if tabled.character < NO_CHARACTER {
                buffer[n] = Scalar::known(tabled.character);
                n += 1;
                used += tabled.size;
                most = n + RETRY_EIGHT_AFTER.min(buffer.len() - n);
                continue;
            }
            if followed == used.saturating_sub(n) {
                return read_longer(trie, input, buffer, Read { n, used });
            }
            let long = followed_at(trie, input, used);
            if long.character >= NO_CHARACTER {
                break;
            }
            buffer[n] = Scalar::known(long.character);
            n += 1;
            used += long.size;
            followed = used.saturating_sub(n);
            most = n + RETRY_EIGHT_AFTER.min(buffer.len() - n);
        }
        Read { n, used }
    }
}
