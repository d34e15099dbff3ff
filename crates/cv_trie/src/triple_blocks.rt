//! Blocks for characters of three bytes.
ghost use Rattle.std.specs.Prelude.{◌≤◌};

use crate::keys::{Block, KeyCell};
use crate::reading_singles::NO_CHARACTER;

/// Numbers in the rows above this one are for two bytes that have a block for strings of three. All numbers of blocks
/// for four bytes are below it.
pub(crate) const TRIPLES: u32 = 0x4000_0000;

/// The number for index 0 of the cells. A third byte below the lowest of its block may lead before all blocks, which
/// gives an index past all cells.
const BASE: u32 = 0x8000_0000;

/// Two bytes get a block only if at least this many strings of three bytes begin with them.
const DENSE: u32 = 32;

/// What the strings of three bytes have that begin with the same two: how many they are, up to 255, and their lowest
/// and highest third byte. While they are counted, the cell of the two bytes has it as a number.
#[derive(Clone, Copy, Debug)]
struct Span {
    count: u8,
    low: u8,
    high: u8,
}

impl Span {
    /// Returns the span of a number.
    fn of(number: u32) -> Span {
        Span {
            count: (number / 0x1_0000 % 0x100) as u8,
            low: (number / 0x100 % 0x100) as u8,
            high: (number % 0x100) as u8,
        }
    }

    /// Returns the span of one string.
    fn one(third: u8) -> Span {
        Span {
            count: 1,
            low: third,
            high: third,
        }
    }

    /// Returns the number of the span.
    fn number(self) -> u32
        ensures { 0x40000000 ≤ result }
    {
        TRIPLES + self.count as u32 * 0x1_0000 + self.low as u32 * 0x100 + self.high as u32
    }

    /// Returns the span with one more string.
    fn with(self, third: u8) -> Span {
        Span {
            count: self.count.saturating_add(1),
            low: self.low.min(third),
            high: self.high.max(third),
        }
    }

    /// Returns how many cells a block of them has, one for each third byte from the lowest to the highest. It is 0, for
    /// no block, if they are fewer than `DENSE`, or if more than a third of the cells would stay empty.
    fn cells(self) -> u32
        ensures { result ≤ 256 }
    {
        let count = self.count as u32;
        let cells = (self.high as u32).saturating_sub(self.low as u32) + 1;
        if count < DENSE || cells > count + count / 2 {
            return 0;
        }
        cells
    }
}

/// The index of an entry of three bytes. An entry with the highest index or a higher one is in no cell. So a map grows
/// by at most three bytes for each string.
#[derive(Clone, Copy, Debug)]
pub(crate) struct ThreeBytes(u16);

impl KeyCell for ThreeBytes {
    ghost KEY = { 3 };

    const KEY: usize = 3;

    #[inline(always)]
    fn assert_key() {}

    fn none() -> Self {
        ThreeBytes(u16::MAX)
    }

    fn of(index: usize) -> Self {
        ThreeBytes(index.min(u16::MAX as usize) as u16)
    }

    #[inline(always)]
    fn entry_index(self) -> usize {
        self.0 as usize
    }

    /// Counts them as a span, unless the two bytes have a block for four bytes.
    fn counted(number: u32, third: u8) -> u32 {
        if number == NO_CHARACTER {
            Span::one(third).number()
        } else if number > TRIPLES {
            Span::of(number).with(third).number()
        } else {
            number
        }
    }

    /// The number says where the block's cell for the third byte 0 would be.
    fn block(number: u32, size: u32) -> Block {
        if number <= TRIPLES {
            return Block { number, cells: 0 };
        }
        let span = Span::of(number);
        let cells = span.cells();
        let number = if cells > 0 {
            BASE + size - span.low as u32
        } else {
            NO_CHARACTER
        };
        Block { number, cells }
    }

    #[inline(always)]
    fn has_block(number: u32) -> bool {
        number > TRIPLES
    }

    /// If the block of the two bytes does not reach so far, the cell is in another block or past all cells.
    #[inline(always)]
    fn index(number: u32, third: u8, _fourth: u8) -> usize {
        (number as usize + third as usize) & (BASE as usize - 1)
    }
}
