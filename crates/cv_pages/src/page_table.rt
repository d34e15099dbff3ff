//! For each character the index of its first entry.
ghost use Rattle.std.specs.Prelude.{◌≡◌, ◌≤◌, ◌<◌, ◌+◌, ◌-◌, ◌*◌, ◌/◌, ◌^◌, ℕ, min, length, slice_index, IfOk, IsTrue};
ghost use Rattle.cv_byte_trie.specs.Entries.{AreEntries, character_at};
ghost use Rattle.cv_pages.specs.Paging.{cell_of, index_of, AreWhole, AreFirst};
ghost use Rattle.cv_pages.specs.Private.Numbered.{AreNumbered, ArePaged};
ghost use Rattle.cv_pages.specs.InlineBytes.{AreInline};

use crate::inline_bytes::InlineBytes;
use crate::lanes::LANES;
use cv_base::Scalar;
use cv_byte_trie::Entry;
use std::alloc::{AllocError, Global};
use std::mem::size_of;

/// The value for no entry.
pub const UNMAPPED: u32 = 0xFFFF_FFFF;

/// How many characters a page has.
const PAGE: u32 = 64;

/// Pages of 64 characters each, with a cell for each character. Only pages with an entry are stored, and one empty
/// page.
#[derive(Debug, Drop)]
pub struct PageTable {
    /// For each 64 characters the index in `stage2` at which their page begins. 0 is the empty page. The last element
    /// is
    /// 0, for all characters above.
    pub stage1: Vec<u32>,
    /// The cells of the pages, one page after another. A cell has the index of its character's first entry, or
    /// [`UNMAPPED`].
    pub stage2: Vec<u32>,
    /// For each cell the bytes of its entry, if they are four at most.
    pub inline: InlineBytes,
    pub ghost some: { 0 < length stage1.items },
    pub ghost last: { slice_index stage1.items (length stage1.items - 1) ≡ 0 },
    pub ghost whole: { AreWhole stage1.items stage2.items },
    pub ghost long: { length inline.bytes.items ≡ length stage2.items },
    pub ghost sizes: { length inline.sizes.items ≡ length stage2.items },
}

/// Where pages begin, and how many cells they have together.
#[derive(Drop)]
struct Numbers {
    stage1: Vec<u32>,
    size: u32,
}

/// Returns the highest character of entries, or 0 if there are no entries.
fn highest(entries: &[Entry]) -> u32
    requires { AreEntries entries.now }
    ensures highest { (k : ℕ) → k < length entries.now → character_at entries.now k ≤ result }
    ensures scalar { result < 0x110000 }
{
    let mut highest = 0;
    for index in 0..entries.len() {
        highest = highest.max(entries[index].character().value());
    }
    highest
}

/// Numbers the pages that the characters of entries need, in the order in which they occur.
fn number(alloc: Global, entries: &[Entry]) -> Result<Numbers, AllocError>
    requires entries { AreEntries entries.now }
    requires few { length entries.now ≤ 0x1000000 }
    ensures numbered { IfOk result (λ n. AreNumbered n.stage1.items n.size) }
    ensures paged { IfOk result (λ n. ArePaged n.stage1.items (length entries.now) entries.now) }
    ensures few { IfOk result (λ n. n.size ≤ 64 * (length entries.now + 1)) }
    ensures some { IfOk result (λ n. 0 < length n.stage1.items) }
    ensures last { IfOk result
        (λ n. slice_index n.stage1.items (length n.stage1.items - 1) ≡ 0) }
{
    let mut stage1 = vec![in alloc; 0u32; highest(entries) as usize / 64 + 2]?;
    let mut size = PAGE;
    for index in 0..entries.len() {
        let top = (entries[index].character().value() / 64) as usize;
        if stage1[top] == 0 {
            stage1[top] = size;
            size += PAGE;
        }
    }
    Ok(Numbers { stage1, size })
}

/// Makes the cells of the pages, each with the index of its character's first entry.
fn fill(alloc: Global, stage1: &[u32], size: u32, entries: &[Entry]) -> Result<Vec<u32>, AllocError>
    requires entries { AreEntries entries.now }
    requires few { length entries.now ≤ 0x1000000 }
    requires numbered { AreNumbered stage1.now size }
    requires paged { ArePaged stage1.now (length entries.now) entries.now }
    ensures names { IfOk result (λ stage2. AreFirst stage1.now stage2.items entries.now) }
    ensures size { IfOk result (λ stage2. length stage2.items ≡ size) }
{
    let mut stage2 = vec![in alloc; UNMAPPED; size as usize]?;
    for index in 0..entries.len() {
        let character = entries[index].character().value();
        let page = stage1[(character / 64) as usize] as usize;
        let cell = page + (character % 64) as usize;
        if stage2[cell] == UNMAPPED {
            stage2[cell] = index as u32;
        }
    }
    Ok(stage2)
}

/// Returns the bits of eight characters from the `n`th on, joined by OR.
#[inline(always)]
fn any_bits_from(characters: &[Scalar], n: usize) -> u32
    requires { n + 8 ≤ length characters.now }
    ensures { (k : ℕ) → k < 8 → slice_index characters.now (n + k) ≤ result }
{
    let mut bits = 0;
    for k in 0..LANES {
        bits |= characters[n + k].value();
    }
    bits
}

/// Returns the highest of eight characters from the `n`th on.
#[inline(always)]
fn highest_from(characters: &[Scalar], n: usize) -> u32
    requires { n + 8 ≤ length characters.now }
    ensures { (k : ℕ) → k < 8 → slice_index characters.now (n + k) ≤ result }
{
    let mut highest = 0;
    for k in 0..LANES {
        highest = highest.max(characters[n + k].value());
    }
    highest
}

impl PageTable {
    /// Makes the pages of entries. If an allocation fails, it returns an error.
    pub fn of(alloc: Global, entries: &[Entry]) -> Result<PageTable, AllocError>
        requires entries { AreEntries entries.now }
        requires few { length entries.now ≤ 0x1000000 }
        ensures names { IfOk result (λ p. AreFirst p.stage1.items p.stage2.items entries.now) }
        ensures inline { IfOk result (λ p.
            AreInline p.stage2.items p.inline.bytes.items p.inline.sizes.items entries.now) }
    {
        let numbers = number(alloc, entries)?;
        let stage2 = fill(alloc, &numbers.stage1, numbers.size, entries)?;
        let inline = InlineBytes::of(alloc, &stage2, entries)?;
        Ok(PageTable {
            stage1: numbers.stage1,
            stage2,
            inline,
        })
    }

    /// Returns how many bytes all pages take, with the spare capacity. It saturates at `usize::MAX`.
    pub fn size(&self) -> usize
        ensures { min (4 * length self.now.stage2.items) (2 ^ 64 - 1) ≤ result }
    {
        let stage1 = self.stage1.capacity().saturating_mul(size_of::<u32>());
        let stage2 = self.stage2.capacity().saturating_mul(4);
        stage1
            .saturating_add(stage2)
            .saturating_add(self.inline.size())
    }

    /// Returns the index of a character's first entry, or [`UNMAPPED`] if it has none.
    #[inline]
    pub fn first_index(&self, character: u32) -> u32
        ensures { result ≡ index_of self.now.stage1.items self.now.stage2.items character }
    {
        self.stage2[self.cell(character)]
    }

    /// Returns the index of a character's cell. It has no branch: the last element of `stage1` names the empty page for
    /// all characters above.
    #[inline(always)]
    pub fn cell(&self, character: u32) -> usize
        ensures is { result ≡ cell_of self.now.stage1.items character }
        ensures low { result < length self.now.stage2.items }
    {
        let top = (character / 64) as usize;
        let page = self.stage1[top.min(self.stage1.len() - 1)];
        page as usize + (character % 64) as usize
    }

    /// Returns the index of a character's cell, if `stage1` has an element for the character.
    #[inline(always)]
    pub fn low_cell(&self, character: u32) -> usize
        requires { character / 64 < length self.now.stage1.items }
        ensures is { result ≡ cell_of self.now.stage1.items character }
        ensures low { result < length self.now.stage2.items }
    {
        let page = self.stage1[(character / 64) as usize];
        page as usize + (character % 64) as usize
    }

    /// Tells whether `stage1` has an element for each of eight characters from the `n`th on. The joined bits of the
    /// eight suffice for most texts, and cost less than the highest of them. They may be too high though no character
    /// is.
    #[inline(always)]
    pub fn are_low(&self, characters: &[Scalar], n: usize) -> bool
        requires { n + 8 ≤ length characters.now }
        ensures { IsTrue result → (k : ℕ) → k < 8
            → slice_index characters.now (n + k) / 64 < length self.now.stage1.items }
    {
        let pages = self.stage1.len();
        ((any_bits_from(characters, n) / 64) as usize) < pages
            || ((highest_from(characters, n) / 64) as usize) < pages
    }
}
