//! Following bytes through the trie, and reading characters that way.
ghost use Rattle.std.specs.Prelude.{◌≡◌, ◌≤◌, ◌<◌, ℕ, length, drop, slice_index};
ghost use Rattle.cv_byte_trie.specs.Tries.{tails};
ghost use Rattle.cv_byte_trie.specs.Tables.{edge_of};
ghost use Rattle.cv_trie.specs.Private.Prefixes.{IsRead};
ghost use Rattle.cv_trie.specs.Private.Followed.{IsFound};

use crate::progress::Read;
use cv_base::Scalar;
use cv_byte_trie::{ByteTrie, Entry, NODE, NONE, TAIL};

/// How many characters the trie reads, whatever their size, before the tables are tried again. It affects speed alone.
const RETRY_TABLES_AFTER: usize = 32;

/// Where the bytes at an index of a text lead.
#[derive(Clone, Copy, Debug)]
pub(crate) struct Followed {
    /// The index of the entry, or the code of no edge, or that of the node at which the text ends.
    pub(crate) code: u32,
    /// How many bytes were followed.
    pub(crate) size: usize,
}

/// Compares the text with the entry to which some of its bytes lead. The code is the entry's index if all its bytes are
/// there, else [`NONE`].
fn whole(entries: &[Entry], index: usize, input: &[u8], used: usize) -> Followed
    requires low { index < length entries.now }
    requires few { index < tails }
    requires within { used ≤ length input.now }
    ensures found { IsFound entries.now (drop used input.now) result.size result.code }
    ensures within { result.size ≤ length (drop used input.now) }
{
    let bytes = entries[index].bytes();
    if input[used..].starts_with(bytes) {
        Followed {
            code: index as u32,
            size: bytes.len(),
        }
    } else {
        Followed {
            code: NONE,
            size: 0,
        }
    }
}

/// Follows the bytes at an index of a text through the trie. It returns two numbers, since an `Option` of them would be
/// returned through memory.
#[inline(always)]
pub(crate) fn follow(trie: &ByteTrie, root: &[u32], input: &[u8], used: usize) -> Followed
    requires root { (b : ℕ) → b < 256 → slice_index root.now b ≡ edge_of trie.now.steps 0 b }
    requires size { length root.now ≡ 256 }
    requires within { used < length input.now }
    ensures found { IsFound trie.now.entries (drop used input.now) result.size result.code }
    ensures within { result.size ≤ length (drop used input.now) }
{
    trie.assert_leads();
    // Its contract says that the pairs can be looked up.
    let _pairs = trie.len();
    let mut code = root[input[used] as usize];
    let mut size = 1;
    while code > NONE && size < input.len() - used {
        code = trie.step(code - NODE, input[used + size]);
        size += 1;
    }
    if code >= TAIL && code < NONE {
        return whole(trie.entries(), (code - TAIL) as usize, input, used);
    }
    Followed { code, size }
}

/// Reads at most `RETRY_TABLES_AFTER` characters, whatever their size, after those that were read. Kept out of line to
/// save registers in the callers' loops.
#[inline(never)]
pub(crate) fn read_longer(trie: &ByteTrie, input: &[u8], buffer: &mut [Scalar], read: Read) -> Read
    requires { IsRead trie.now.entries input.now read buffer.old }
    ensures read { IsRead trie.now.entries input.now result buffer.new }
    ensures on { read.n ≤ result.n }
{
    let root = trie.root();
    let entries = trie.entries();
    let mut n = read.n;
    let mut used = read.used;
    let most = n + RETRY_TABLES_AFTER.min(buffer.len() - n);
    while n < most && used < input.len() {
        let followed = follow(trie, root, input, used);
        if followed.code >= NONE {
            break;
        }
        buffer[n] = entries[followed.code as usize].character();
        n += 1;
        used += followed.size;
    }
    Read { n, used }
}
