//! The list of pairs while a text is read.
ghost use Rattle.std.specs.Prelude.{◌≡◌, ◌<◌, ◌≤◌, ◌+◌, ◌-◌, ◌*◌, ◌/◌, ◌^◌, ℕ, min, [], ◌++◌, length, take};
ghost use Rattle.std.specs.Prelude.{slice_index, IfOk};
ghost use Rattle.std.specs.Int.{IsPowerOfTwo};
ghost use Rattle.cv_base.specs.Scalars.{IsScalar};
ghost use Rattle.cv_byte_trie.specs.Entries.{bytes_at, AreApart};
ghost use Rattle.cv_byte_trie.specs.Runs.{run_of};
ghost use Rattle.cv_charmap.specs.Lists.{most_pairs};
ghost use Rattle.cv_charmap.specs.Private.Covers.{HasEntries, AreFound};
ghost use Rattle.cv_charmap.specs.Private.Seen.{Enters};

use crate::covered::{Covered, LookedUp, NOT_COVERED, mark};
use crate::range_start::RangeStart;
use cv_base::{Memory, Scalar};
use cv_byte_trie::{Added, ByteTrie, Lookup};
use cv_lex::Cause;
use std::alloc::{AllocError, Global};
use std::marker::Model;

/// How many pairs a charmap has at most.
const MOST_PAIRS: usize = 262_144;

/// How many bytes a mapping is taken to have in a text when room is reserved: about as many as the longest common
/// lines.
const LINE: usize = 48;

/// Why a pair was not entered.
#[derive(Clone, Copy, Debug)]
pub(crate) enum EntryFault {
    /// The entry has a fault.
    Faulty(Cause),
    /// An allocation failed.
    Memory,
}

/// The pairs that were entered, in this order. Contracts see the list of them.
#[derive(Drop)]
pub(crate) struct PairList {
    alloc: Global,
    trie: ByteTrie,
    /// For each of the first pairs, how many entries of a range are known to be in the list from it on.
    covered: Vec<Covered>,
}

impl Model for PairList {
    ghost use Rattle.std.specs.Prelude.{List};
    ghost use Rattle.cv_charmap.specs.Entries.{Pair};

    ghost Value = { List Pair };

    ghost view = { λ d. d.trie.entries };

    ghost use Rattle.cv_charmap.specs.Private.Covers.{IsPairList};

    ghost invariant = { λ d. IsPairList d.trie.entries d.covered.items };
}

/// Returns the index of an entry with the same bytes, if it has this character, or else the fault.
fn held(trie: &ByteTrie, bytes: &[u8], index: usize, character: Scalar) -> Result<usize, EntryFault>
    requires apart { AreApart trie.now.entries }
    requires low { index < length trie.now.entries }
    requires same { bytes_at trie.now.entries index ≡ bytes.now }
    ensures { Enters trie.now.entries (bytes.now, character) result trie.now.entries }
{
    let entry = &trie.entries()[index];
    if entry.character().value() == character.value() {
        Ok(index)
    } else {
        Err(EntryFault::Faulty(Cause::Clash))
    }
}

/// Looks up a pair when the list is full. It returns the index of the same pair, or the fault.
fn held_by_all(trie: &ByteTrie, bytes: &[u8], character: Scalar) -> Result<usize, EntryFault>
    requires apart { AreApart trie.now.entries }
    requires some { 0 < length bytes.now }
    requires full { length trie.now.entries ≡ most_pairs }
    ensures { Enters trie.now.entries (bytes.now, character) result trie.now.entries }
{
    match trie.find(bytes) {
        Lookup::Entry(index) => {
            if trie.entries()[index].bytes().len() == bytes.len() {
                held(trie, bytes, index, character)
            } else {
                Err(EntryFault::Faulty(Cause::Prefix))
            }
        }
        Lookup::Inside => Err(EntryFault::Faulty(Cause::Prefix)),
        Lookup::Nothing => Err(EntryFault::Faulty(Cause::TooMany)),
    }
}

/// Enters a pair into a list that is not full, and returns its index.
fn enter_into(trie: &mut ByteTrie, bytes: &[u8], character: Scalar) -> Result<usize, EntryFault>
    requires apart { AreApart trie.old.entries }
    requires some { 0 < length bytes.now }
    requires short { length bytes.now ≤ 8 }
    requires room { length trie.old.entries < most_pairs }
    ensures enters { Enters trie.old.entries (bytes.now, character) result trie.new.entries }
    ensures few { length trie.new.entries ≤ most_pairs }
    ensures stay { take (length trie.old.entries) trie.new.entries ≡ trie.old.entries }
    ensures apart { AreApart trie.new.entries }
{
    let index = trie.len();
    let Ok(added) = trie.add(bytes, character) else {
        return Err(EntryFault::Memory);
    };
    match added {
        Added::Entered => Ok(index),
        Added::Held(index) => held(trie, bytes, index, character),
        Added::Continues(_) => Err(EntryFault::Faulty(Cause::Prefix)),
        Added::Begins => Err(EntryFault::Faulty(Cause::Prefix)),
    }
}

/// Returns for how many pairs a text of `bytes` bytes gets room at first. It is a power of two, so that a list that
/// doubles from there ends with the same room as one that began with none.
fn room_for(bytes: usize) -> usize
    ensures few { result ≤ most_pairs }
    ensures below { 48 * result ≤ bytes }
    ensures power { 0 < result → IsPowerOfTwo result }
    ensures near { min (bytes / 48) most_pairs ≤ 2 * result }
{
    let pairs = (bytes / LINE).min(MOST_PAIRS);
    if pairs == 0 { 0 } else { 1 << pairs.ilog2() }
}

impl PairList {
    /// Makes an empty list, with room for some of the pairs that a text of `bytes` bytes may have, if there is memory
    /// for it.
    pub(crate) fn new(alloc: Global, bytes: usize) -> Result<PairList, Memory>
        ensures { IfOk result (λ d. d ≡ []) }
    {
        let trie = ByteTrie::with_room(alloc, room_for(bytes))?;
        Ok(PairList {
            alloc,
            trie,
            covered: Vec::new(alloc),
        })
    }

    /// Returns its allocator.
    pub(crate) fn alloc(&self) -> Global {
        self.alloc
    }

    /// Enters a pair unless it is in the list already, and returns its index.
    pub(crate) fn enter(&mut self, bytes: &[u8], character: Scalar) -> Result<usize, EntryFault>
        requires some { 0 < length bytes.now }
        requires short { length bytes.now ≤ 8 }
        ensures enters { Enters self.old (bytes.now, character) result self.new }
        ensures stay { take (length self.old) self.new ≡ self.old }
    {
        if self.trie.len() >= MOST_PAIRS {
            return held_by_all(&self.trie, bytes, character);
        }
        enter_into(&mut self.trie, bytes, character)
    }

    /// Enters pairs whose last byte and character count up from the given ones, and returns how many: at most `most`.
    /// It ends early at a pair that [`enter`](PairList::enter) has to handle, or if an allocation fails.
    pub(crate) fn enter_run(&mut self, bytes: &[u8], character: Scalar, most: usize) -> usize
        requires some { 0 < length bytes.now }
        requires short { length bytes.now ≤ 8 }
        requires bytes { slice_index bytes.now (length bytes.now - 1) + most ≤ 256 }
        requires scalars { (k : ℕ) → k < most → IsScalar (character + k) }
        ensures run { self.new ≡ self.old ++ run_of bytes.now character result }
        ensures few { result ≤ most }
        ensures full { length self.new ≤ most_pairs }
        ensures apart { AreApart self.new }
    {
        let room = MOST_PAIRS - self.trie.len();
        self.trie.add_run(bytes, character, most.min(room))
    }

    /// Returns how many pairs there are.
    pub(crate) fn len(&self) -> usize
        ensures { result ≡ length self.now }
    {
        self.trie.len()
    }

    /// Returns how many entries of a range are known to be in the list, from the one on whose pair is at `index`.
    pub(crate) fn covered_from(&self, index: usize, hex: bool, number: u64) -> u64
        ensures has { HasEntries self.now hex number (bytes_at self.now index) result }
        ensures small { result < 2 ^ 32 }
        ensures apart { AreApart self.now }
    {
        match self.covered.get(index) {
            Some(covered) if covered.hex == hex && u64::from(covered.number) == number => u64::from(
                covered.count,
            ),
            _ => 0,
        }
    }

    /// Notes that the first `end` entries of a range are in the list. `found` says at which indices those are that were
    /// entered or found.
    pub(crate) fn cover(
        &mut self,
        start: &RangeStart<'_>,
        found: &[LookedUp],
        end: u64,
    ) -> Result<(), AllocError>
        requires near { end < 2 ^ 40 }
        requires has { HasEntries self.old start.now.hex start.now.first start.now.bytes.now end }
        requires found { AreFound self.old start.now.hex start.now.first start.now.bytes.now end
            found.now }
        ensures { self.new ≡ self.old }
    {
        self.covered.resize(self.trie.len(), NOT_COVERED)?;
        mark(&self.trie, &mut self.covered, start, found, end);
        Ok(())
    }

    /// Returns the pairs with their trie, and gives the spare capacity of the list back.
    pub(crate) fn into_trie(self) -> ByteTrie
        ensures value { result.entries ≡ self }
        ensures few { length self ≤ most_pairs }
    {
        let mut trie = self.trie;
        trie.trim();
        trie
    }
}
