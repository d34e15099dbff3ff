//! The entries that ranges have entered, so that a range that repeats them is skipped quickly.
ghost use Rattle.std.specs.Prelude.{◌≡◌, ◌<◌, ◌^◌, length, Ok};
ghost use Rattle.cv_charmap.specs.Entries.{entry_at};
ghost use Rattle.cv_charmap.specs.Private.Covers.{pair_at, HasEntries, AreCovered, IsFound, AreFound};

use crate::range_start::RangeStart;
use cv_byte_trie::ByteTrie;

/// From a pair on, this many entries of a range are in the list. The range begins with the number in the pair's name
/// and with the pair's bytes.
#[derive(Clone, Copy, Debug)]
pub(crate) struct Covered {
    /// Whether the range counts in hexadecimal.
    pub(crate) hex: bool,
    /// The number in the pair's name.
    pub(crate) number: u32,
    /// How many entries.
    pub(crate) count: u32,
}

/// Entries of a range that were entered or found: the number of the first in its range, the index of its pair, and how
/// many they are. Their pairs are one after another.
#[derive(Clone, Copy, Debug)]
pub(crate) struct LookedUp {
    pub(crate) at: u64,
    pub(crate) index: usize,
    pub(crate) size: u64,
}

/// Notes for the pair of one entry how many entries of the range are in the list from it on. If its number does not fit
/// 32 bits, nothing is noted. A count that does not fit is noted as the greatest that does.
fn note(trie: &ByteTrie, covered: &mut [Covered], start: &RangeStart<'_>, run: LookedUp, end: u64)
    requires covered { AreCovered trie.now.entries covered.old }
    requires long { length covered.old ≡ length trie.now.entries }
    requires near { end < 2 ^ 40 }
    requires has { HasEntries trie.now.entries start.now.hex start.now.first start.now.bytes.now end }
    requires below { run.at < end }
    requires low { run.index < length trie.now.entries }
    requires is { entry_at start.now.hex start.now.first start.now.bytes.now run.at
        ≡ Ok (pair_at trie.now.entries run.index) }
    ensures covered { AreCovered trie.now.entries covered.new }
    ensures long { length covered.new ≡ length trie.now.entries }
{
    let number = u64::from(start.first) + run.at;
    if number > u64::from(u32::MAX) {
        return;
    }
    covered[run.index] = Covered {
        hex: start.hex,
        number: number as u32,
        count: (end - run.at).min(u64::from(u32::MAX)) as u32,
    };
}

/// Notes this for the pair of each entry of a run.
fn note_all(
    trie: &ByteTrie,
    covered: &mut [Covered],
    start: &RangeStart<'_>,
    run: LookedUp,
    end: u64,
)
    requires covered { AreCovered trie.now.entries covered.old }
    requires long { length covered.old ≡ length trie.now.entries }
    requires near { end < 2 ^ 40 }
    requires has { HasEntries trie.now.entries start.now.hex start.now.first start.now.bytes.now end }
    requires run { IsFound trie.now.entries start.now.hex start.now.first start.now.bytes.now end run }
    ensures covered { AreCovered trie.now.entries covered.new }
    ensures long { length covered.new ≡ length trie.now.entries }
{
    for k in 0..run.size {
        let one = LookedUp {
            at: run.at + k,
            index: run.index + k as usize,
            size: 1,
        };
        note(trie, covered, start, one, end);
    }
}

/// Notes this for each pair that was entered or found.
pub(crate) fn mark(
    trie: &ByteTrie,
    covered: &mut [Covered],
    start: &RangeStart<'_>,
    found: &[LookedUp],
    end: u64,
)
    requires covered { AreCovered trie.now.entries covered.old }
    requires long { length covered.old ≡ length trie.now.entries }
    requires near { end < 2 ^ 40 }
    requires has { HasEntries trie.now.entries start.now.hex start.now.first start.now.bytes.now end }
    requires found { AreFound trie.now.entries start.now.hex start.now.first start.now.bytes.now
        end found.now }
    ensures covered { AreCovered trie.now.entries covered.new }
    ensures long { length covered.new ≡ length trie.now.entries }
{
    for run in found {
        note_all(trie, covered, start, *run, end);
    }
}

/// Nothing is known.
pub(crate) const NOT_COVERED: Covered = Covered {
    hex: true,
    number: 0,
    count: 0,
};
