//! Bytes that are characters by themselves.
ghost use Rattle.std.specs.Prelude.{◌≡◌, ◌≤◌, ◌<◌, ◌+◌, ℕ, length, slice_index, unwrap_or, IfSome};
ghost use Rattle.cv_trie.specs.Private.Prefixes.{IsRead};

use crate::decoder::Decoder;
use crate::progress::Read;
use cv_base::Scalar;
use cv_pages::{LANES, any_bits};

/// The number for no character, as is each number above it. It is a bit that no character has, so that the joined bits
/// of several numbers tell whether one of them is none. It is the lowest such bit, so that an address can subtract it
/// at no cost.
pub(crate) const NO_CHARACTER: u32 = 0x0020_0000;

impl Decoder<'_> {
    /// Returns the cells of eight bytes. None is tested, so that there is no branch.
    #[inline(always)]
    fn single_cells(&self, input: &[u8], at: usize) -> [u32; LANES]
        requires { at + 8 ≤ length input.now }
        ensures long { length result ≡ 8 }
        ensures cells { (k : ℕ) → k < 8 → slice_index result k
            ≡ slice_index self.now.singles.now (slice_index input.now (at + k)) }
    {
        let singles = self.singles;
        let mut cells = [0; LANES];
        for k in 0..LANES {
            cells[k] = singles[input[at + k] as usize];
        }
        cells
    }

    /// Reads eight characters of one byte after those that were read, if the next eight bytes are characters by
    /// themselves and the buffer has room for them.
    #[inline(always)]
    fn read_eight_singles(&self, input: &[u8], buffer: &mut [Scalar], read: Read) -> Option<Read>
        requires { IsRead self.now.trie.now.entries input.now read buffer.old }
        ensures read { IsRead self.now.trie.now.entries input.now (unwrap_or result read)
            buffer.new }
        ensures on { IfSome result (λ next. next.n ≡ read.n + 8) }
        ensures few { IfSome result (λ next. next.n ≤ length buffer.old) }
    {
        if buffer.len() - read.n < LANES || input.len() - read.used < LANES {
            return None;
        }
        let cells = self.single_cells(input, read.used);
        if any_bits(&cells) >= NO_CHARACTER {
            return None;
        }
        for k in 0..LANES {
            buffer[read.n + k] = Scalar::known(cells[k]);
        }
        Some(Read {
            n: read.n + LANES,
            used: read.used + LANES,
        })
    }

    /// Reads characters of one byte after those that were read, eight at a time.
    #[inline(always)]
    fn read_many_singles(&self, input: &[u8], buffer: &mut [Scalar], read: Read) -> Read
        requires { IsRead self.now.trie.now.entries input.now read buffer.old }
        ensures read { IsRead self.now.trie.now.entries input.now result buffer.new }
        ensures on { read.n ≤ result.n }
    {
        let mut now = read;
        while let Some(next) = self.read_eight_singles(input, buffer, now) {
            now = next;
        }
        now
    }

    /// Reads characters of one byte after those that were read, one by one, up to the first byte that is none.
    #[inline(always)]
    fn read_few_singles(&self, input: &[u8], buffer: &mut [Scalar], read: Read) -> Read
        requires { IsRead self.now.trie.now.entries input.now read buffer.old }
        ensures read { IsRead self.now.trie.now.entries input.now result buffer.new }
        ensures on { read.n ≤ result.n }
    {
        let singles = self.singles;
        let most = (buffer.len() - read.n).min(input.len() - read.used);
        let mut k = 0;
        while k < most {
            let character = singles[input[read.used + k] as usize];
            if character >= NO_CHARACTER {
                break;
            }
            buffer[read.n + k] = Scalar::known(character);
            k += 1;
        }
        Read {
            n: read.n + k,
            used: read.used + k,
        }
    }

    /// Reads characters of one byte after those that were read.
    #[inline(always)]
    pub(crate) fn read_singles(&self, input: &[u8], buffer: &mut [Scalar], read: Read) -> Read
        requires { IsRead self.now.trie.now.entries input.now read buffer.old }
        ensures read { IsRead self.now.trie.now.entries input.now result buffer.new }
        ensures on { read.n ≤ result.n }
    {
        let tables = *self;
        let many = tables.read_many_singles(input, buffer, read);
        tables.read_few_singles(input, buffer, many)
    }
}
