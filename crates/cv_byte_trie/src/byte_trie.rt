//! Entries with a trie over their bytes.
ghost use Rattle.std.specs.Prelude.{◌≡◌, ◌<◌, ◌≤◌, ◌+◌, ◌-◌, ◌*◌, ◌^◌, ℕ, min, [], ◌++◌, length, slice_get};
ghost use Rattle.std.specs.Prelude.{slice_index, vec_capacity, OnErr, IfOk};
ghost use Rattle.std.specs.Option.{option_copied};
ghost use Rattle.cv_base.specs.Items.{Begins};
ghost use Rattle.cv_base.specs.Scalars.{IsScalar};
ghost use Rattle.cv_byte_trie.specs.Entries.{bytes_at, AreEntries};
ghost use Rattle.cv_byte_trie.specs.Runs.{run_of};
ghost use Rattle.cv_byte_trie.specs.Tries.{HasTrie};
ghost use Rattle.cv_byte_trie.specs.Tables.{node_count, edge_of};
ghost use Rattle.cv_byte_trie.specs.Walks.{Leads};
ghost use Rattle.cv_byte_trie.specs.Private.Indexed.{IsIndexed};
ghost use Rattle.cv_byte_trie.specs.Results.{Finds, Adds};

use crate::added::Added;
use crate::comparing::{Comparison, compare};
use crate::entering::{enter, enter_beside};
use crate::entry::Entry;
use crate::lookup::Lookup;
use crate::running::enter_run;
use crate::steps::Steps;
use crate::walking::{WalkEnd, walk};
use cv_base::{Memory, Scalar};
use std::alloc::Global;
use std::marker::Model;

/// How many bytes an entry takes.
const ENTRY: usize = 16;

/// Entries in the order in which they were added, found by their bytes. No entry's bytes begin with another's.
/// Contracts see the list of entries, and the steps of the trie.
#[derive(Debug, Drop)]
pub struct ByteTrie {
    entries: Vec<Entry>,
    steps: Steps,
}

impl Model for ByteTrie {
    ghost use Rattle.cv_byte_trie.specs.Index.{Index};

    ghost Value = { Index };

    ghost use Rattle.cv_byte_trie.specs.Private.Indexed.{IsIndexed};

    ghost view = { λ t. record { entries = t.entries.items; steps = t.steps } };

    ghost invariant = { λ t. IsIndexed t.entries.items t.steps };
}

/// Makes an empty list, with room for `room` entries if there is memory for it.
fn roomy(alloc: Global, room: usize) -> Vec<Entry>
    ensures items { result.items ≡ [] }
    ensures room { vec_capacity result ≤ room }
{
    match Vec::with_capacity(alloc, room) {
        Ok(entries) => entries,
        Err(_) => Vec::new(alloc),
    }
}

/// Tells whether bytes are those of the entry at an index, or longer. They begin with the entry's bytes.
fn met(entries: &[Entry], bytes: &[u8], index: usize) -> Added
    requires low { index < length entries.now }
    requires prefix { Begins (bytes_at entries.now index) bytes.now }
    ensures { (c : ℕ) → Adds entries.now (bytes.now, c) result entries.now }
{
    if entries[index].len() == bytes.len() {
        Added::Held(index)
    } else {
        Added::Continues(index)
    }
}

impl ByteTrie {
    /// Makes a trie with no entries. If an allocation fails, it returns an error.
    pub fn new(alloc: Global) -> Result<ByteTrie, Memory>
        ensures { IfOk result (λ t. t.entries ≡ []) }
    {
        let steps = Steps::new(alloc)?;
        Ok(ByteTrie {
            entries: Vec::new(alloc),
            steps,
        })
    }

    /// Makes a trie with no entries, and with room for `room` entries if there is memory for it. It returns an error
    /// only if the root cannot be allocated.
    pub fn with_room(alloc: Global, room: usize) -> Result<ByteTrie, Memory>
        ensures { IfOk result (λ t. t.entries ≡ []) }
    {
        let steps = Steps::new(alloc)?;
        let entries = roomy(alloc, room);
        Ok(ByteTrie { entries, steps })
    }

    /// Gives the spare capacity for entries back to the allocator. Entries and steps stay as they are.
    pub fn trim(&mut self)
        ensures { self.new ≡ self.old }
    {
        self.entries.shrink_to_fit();
    }

    /// Returns how many entries there are.
    #[inline]
    pub fn len(&self) -> usize
        ensures value { result ≡ length self.now.entries }
        ensures entries { AreEntries self.now.entries }
    {
        self.entries.len()
    }

    /// Returns how many bytes the entries and the steps take, with the spare capacity: at least 16 for each entry. It
    /// saturates at `usize::MAX`.
    pub fn size(&self) -> usize
        ensures { min (16 * length self.now.entries) (2 ^ 64 - 1) ≤ result }
    {
        let entries = self.entries.capacity().saturating_mul(ENTRY);
        entries.saturating_add(self.steps.size())
    }

    /// Returns the entry at an index, counted from 0 in the order in which entries were added, or `None` if there are
    /// not so many.
    #[inline]
    pub fn get(&self, index: usize) -> Option<&Entry>
        ensures { option_copied result ≡ slice_get self.now.entries index }
    {
        self.entries.get(index)
    }

    /// Returns the entries in the order in which they were added. No entry's bytes begin with another's.
    #[inline]
    pub fn entries(&self) -> &[Entry]
        ensures value { result.now ≡ self.now.entries }
        ensures entries { AreEntries result.now }
    {
        &self.entries
    }

    /// Returns the code to which a byte leads from a node. A code below [`TAIL`] is the index of an entry that the byte
    /// completes. From there to [`NONE`] it is [`TAIL`] plus the index of an entry that has bytes after it. Above
    /// [`NONE`] it is [`NODE`] plus the number of a node. Node 0 is the root.
    #[inline]
    pub fn step(&self, node: u32, byte: u8) -> u32
        requires { node < node_count self.now.steps }
        ensures { result ≡ edge_of self.now.steps node byte }
    {
        self.steps.edge(node, byte)
    }

    /// Returns for each byte the code to which it leads from node 0, the root.
    #[inline]
    pub fn root(&self) -> &[u32]
        ensures size { length result.now ≡ 256 }
        ensures edges { (b : ℕ) → b < 256 → slice_index result.now b ≡ edge_of self.now.steps 0 b }
    {
        self.steps.root()
    }

    /// Does nothing. Its contract says that the steps are those of a trie of the entries, and where they lead each byte
    /// string.
    pub fn assert_leads(&self)
        ensures trie { HasTrie (edge_of self.now.steps) (node_count self.now.steps)
            self.now.entries }
        ensures leads { Leads (edge_of self.now.steps) self.now.entries }
    {
        let _ = &self.steps;
    }

    /// Looks up the entry with whose bytes a text begins. The text has at least one byte.
    pub fn find(&self, text: &[u8]) -> Lookup
        requires { 0 < length text.now }
        ensures { Finds self.now.entries text.now result }
    {
        match walk(&self.steps, text) {
            WalkEnd::Leaf { index, .. } => Lookup::Entry(index),
            WalkEnd::Tail(tail) => {
                match compare(&self.entries, tail.index, text) {
                    Comparison::Held => Lookup::Entry(tail.index),
                    Comparison::Inside => Lookup::Inside,
                    Comparison::Parts(_) => Lookup::Nothing,
                }
            }
            WalkEnd::Inside => Lookup::Inside,
            WalkEnd::Vacant { .. } => Lookup::Nothing,
        }
    }

    /// Adds an entry of 1 to 8 bytes, unless its bytes begin with another's or begin another's. If an allocation fails,
    /// it returns an error and the entries stay as they were.
    pub fn add(&mut self, bytes: &[u8], character: Scalar) -> Result<Added, Memory>
        requires some { 0 < length bytes.now }
        requires short { length bytes.now ≤ 8 }
        requires room { length self.old.entries < 0x1000000 }
        ensures ok { IfOk result (λ added.
            Adds self.old.entries (bytes.now, character) added self.new.entries) }
        ensures err { OnErr result (self.new.entries ≡ self.old.entries) }
        ensures entries { AreEntries self.new.entries }
    {
        match walk(&self.steps, bytes) {
            WalkEnd::Leaf { index, .. } => Ok(met(&self.entries, bytes, index)),
            WalkEnd::Tail(tail) => {
                match compare(&self.entries, tail.index, bytes) {
                    Comparison::Held => Ok(met(&self.entries, bytes, tail.index)),
                    Comparison::Inside => Ok(Added::Begins),
                    Comparison::Parts(common) => {
                        enter_beside(
                            &mut self.entries,
                            &mut self.steps,
                            bytes,
                            character,
                            tail,
                            common,
                        )?;
                        Ok(Added::Entered)
                    }
                }
            }
            WalkEnd::Inside => Ok(Added::Begins),
            WalkEnd::Vacant { node, depth } => {
                enter(
                    &mut self.entries,
                    &mut self.steps,
                    bytes,
                    character,
                    node,
                    depth,
                )?;
                Ok(Added::Entered)
            }
        }
    }

    /// Adds entries whose last byte and character count up from the given ones, and returns how many: at most `most`.
    /// It ends early at an entry that [`add`](ByteTrie::add) has to handle, or if an allocation fails.
    pub fn add_run(&mut self, bytes: &[u8], character: Scalar, most: usize) -> usize
        requires some { 0 < length bytes.now }
        requires short { length bytes.now ≤ 8 }
        requires room { length self.old.entries + most ≤ 0x1000000 }
        requires bytes { slice_index bytes.now (length bytes.now - 1) + most ≤ 256 }
        requires scalars { (k : ℕ) → k < most → IsScalar (character + k) }
        ensures run { self.new.entries ≡ self.old.entries ++ run_of bytes.now character result }
        ensures few { result ≤ most }
        ensures entries { AreEntries self.new.entries }
    {
        let WalkEnd::Vacant { node, depth } = walk(&self.steps, bytes) else {
            return 0;
        };
        if depth + 1 != bytes.len() {
            return 0;
        }
        enter_run(
            &mut self.entries,
            &mut self.steps,
            bytes,
            character,
            node,
            most,
        )
    }
}
