//! Characters of one and of two bytes, eight at once.
ghost use Rattle.std.specs.Prelude.{◌≡◌, ◌≤◌, ◌<◌, ◌+◌, ℕ, length, slice_index, unwrap_or, IfSome};
ghost use Rattle.cv_simd.specs.Splits.{start_of};
ghost use Rattle.cv_trie.specs.Private.Starts.{number_at};
ghost use Rattle.cv_trie.specs.Private.Prefixes.{IsRead};

use crate::decoder::Decoder;
use crate::progress::Read;
use crate::reading_singles::NO_CHARACTER;
use cv_base::Scalar;
use cv_pages::{LANES, any_bits};
use cv_simd::{SPLIT_WINDOW, split_double_bytes};

/// Eight characters of a text, each of one or two bytes.
#[derive(Clone, Copy, Debug)]
struct Window {
    /// The cells of the characters.
    cells: [u32; LANES],
    /// How many bytes they have.
    used: usize,
}

impl Decoder<'_> {
    /// Returns the cells of eight characters at an index of a text. The text is split as if each byte below 128 were a
    /// character and any other the first of two. None is tested, so that there is no branch.
    #[inline(always)]
    fn window_at(&self, input: &[u8], at: usize) -> Window
        requires offsets { 0 < length self.now.row_offsets.now }
        requires within { at + 24 ≤ length input.now }
        ensures long { length result.cells ≡ 8 }
        ensures cells { (k : ℕ) → k < 8 → slice_index result.cells k
            ≡ number_at self.now.rows.now self.now.row_offsets.now input.now (start_of input.now at k) }
        ensures used { at + result.used ≡ start_of input.now at 8 }
    {
        let rows = self.rows;
        let offsets = self.row_offsets;
        let split = split_double_bytes(input, at);
        let mut cells = [0; LANES];
        for k in 0..LANES {
            let offset = offsets[split.pairs[2 * k] as usize];
            cells[k] = rows[offset as usize + split.pairs[2 * k + 1] as usize];
        }
        Window {
            cells,
            used: split.used,
        }
    }

    /// Reads eight characters of one and of two bytes after those that were read, if the tables have all of them, the
    /// text goes on for a window and the buffer has room for them.
    #[inline(always)]
    fn read_eight(&self, input: &[u8], buffer: &mut [Scalar], read: Read) -> Option<Read>
        requires read { IsRead self.now.trie.now.entries input.now read buffer.old }
        requires offsets { 0 < length self.now.row_offsets.now }
        ensures read { IsRead self.now.trie.now.entries input.now (unwrap_or result read)
            buffer.new }
        ensures on { IfSome result (λ next. next.n ≡ read.n + 8) }
        ensures few { IfSome result (λ next. next.n ≤ length buffer.old) }
        ensures more { IfSome result (λ next. next.used < length input.now) }
        ensures used { IfSome result (λ next. next.used ≡ start_of input.now read.used 8) }
    {
        if buffer.len() - read.n < LANES || input.len() - read.used < SPLIT_WINDOW {
            return None;
        }
        let window = self.window_at(input, read.used);
        if any_bits(&window.cells) >= NO_CHARACTER {
            return None;
        }
        for k in 0..LANES {
            buffer[read.n + k] = Scalar::known(window.cells[k]);
        }
        Some(Read {
            n: read.n + LANES,
            used: read.used + window.used,
        })
    }

    /// Reads characters of one and of two bytes after those that were read, eight at a time, until one of eight is in
    /// no table. If the charmap reads bytes otherwise than a window is split, their cell has no character. Kept out of
    /// line, so that its loop has the registers.
    #[inline(never)]
    pub(crate) fn read_windows(&self, input: &[u8], buffer: &mut [Scalar], read: Read) -> Read
        requires read { IsRead self.now.trie.now.entries input.now read buffer.old }
        requires more { read.used < length input.now }
        requires offsets { 0 < length self.now.row_offsets.now }
        ensures read { IsRead self.now.trie.now.entries input.now result buffer.new }
        ensures more { result.used < length input.now }
        ensures on { read.n ≤ result.n }
    {
        let tables = *self;
        let mut now = read;
        while let Some(next) = tables.read_eight(input, buffer, now) {
            now = next;
        }
        now
    }
}
