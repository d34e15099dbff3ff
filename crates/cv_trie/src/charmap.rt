//! Compiled charmaps.
ghost use Rattle.std.specs.Prelude.{◌≡◌, ◌≤◌, ◌<◌, ◌+◌, ◌-◌, ◌*◌, ◌^◌, min, length, vec_capacity, IfOk};
ghost use Rattle.cv_base.specs.Blocks.{MayWriteBlock};
ghost use Rattle.cv_base.specs.declared.state.WriteState.{WriteState};
ghost use Rattle.cv_charmap.specs.Maps.{IsMap};
ghost use Rattle.cv_trie.specs.Charmaps.{map_reads, map_writes, map_closes};

use crate::ascii::{does_read_ascii, does_write_ascii};
use crate::blocks::Blocks;
use crate::decoder::Decoder;
use crate::encoder::Encoder;
use crate::firsts::firsts_of;
use crate::items::next_item;
use crate::longest::longest;
use crate::row_offsets::row_offsets_of;
use crate::rows::Rows;
use crate::singles::Singles;
use cv_base::{
    AsciiForm, BlockCodec, Codec, Item, Memory, Piece, Policy, Put, ReadBlock, ReadState, Scalar,
    WriteState, WrittenBlock,
};
use cv_byte_trie::ByteTrie;
use cv_charmap::Pairs;
use cv_pages::PageTable;
use std::alloc::Global;
use std::marker::Model;

/// How many bytes a cell of `singles`, `rows` or `row_offsets` takes.
const CELL: usize = 4;

/// A compiled charmap, which reads and writes texts. Contracts see its name and its list of pairs.
#[derive(Drop)]
pub struct Charmap {
    name: Vec<u8>,
    /// The pairs, found by their bytes.
    trie: ByteTrie,
    /// For each byte the character that it is by itself, or `NO_CHARACTER` plus the index of its row.
    singles: Vec<u32>,
    /// Rows of 256 cells, one for each second byte, for bytes with which many strings begin. A cell has the character
    /// of the two bytes, or says where in `blocks` that of longer strings is. After the rows are 128 cells for single
    /// bytes. It is empty if neither `row_offsets` nor `blocks` needs it.
    rows: Vec<u32>,
    /// For each byte the index in `rows` of its row, or of its own cell if it is below 128. It is empty if eight
    /// characters at once are not to be tried.
    row_offsets: Vec<u32>,
    /// Guesses at the indices of entries of three and of four bytes, in blocks by the first two bytes.
    blocks: Blocks,
    /// For each character the index of its first pair.
    pages: PageTable,
    /// The index of the first pair of `?`.
    substitute: u32,
    /// How many bytes the longest pair has.
    most: usize,
    /// Whether each ASCII byte is read as its character.
    reads_ascii: bool,
    /// Whether each ASCII character is written as its byte.
    writes_ascii: bool,
}

impl Model for Charmap {
    ghost use Rattle.cv_charmap.specs.Meaning as meaning;
    ghost use Rattle.cv_trie.specs.Private.Compiled.{IsCompiled};

    ghost Value = { meaning.Charmap };

    ghost view = { λ m. record { name = m.name.items; pairs = m.trie.entries } };

    ghost invariant = { λ m. IsCompiled m.trie.entries m.singles.items m.rows.items m.row_offsets.items
        m.pages.stage1.items m.pages.stage2.items m.pages.inline.bytes.items m.pages.inline.sizes.items
        m.substitute m.most m.reads_ascii m.writes_ascii };
}

/// Returns the rows if eight characters at once or tables of longer strings need them, or else an empty table.
fn needed(alloc: Global, rows: Vec<u32>, row_offsets: &[u32], blocks: &Blocks) -> Vec<u32>
    ensures same { 0 < length result.items → result.items ≡ rows.items }
    ensures offsets { 0 < length row_offsets.now → result.items ≡ rows.items }
{
    if row_offsets.is_empty() && blocks.is_empty() {
        return Vec::new(alloc);
    }
    rows
}

/// Returns how many bytes the tables of single bytes and of pairs take, with the spare capacity.
fn cells_size(singles: &Vec<u32>, rows: &Vec<u32>, row_offsets: &Vec<u32>) -> usize
    ensures { result ≡ min (4 * min (min (vec_capacity singles.now + vec_capacity row_offsets.now) (2 ^ 64 - 1)
        + vec_capacity rows.now) (2 ^ 64 - 1)) (2 ^ 64 - 1) }
{
    let bytes = singles.capacity().saturating_add(row_offsets.capacity());
    bytes.saturating_add(rows.capacity()).saturating_mul(CELL)
}

impl Charmap {
    /// Compiles a charmap. It keeps the trie that the charmap's reader made, and adds the tables by which blocks are
    /// read and the pages by which it is written. If an allocation fails, it returns an error.
    pub fn build(alloc: Global, pairs: Pairs) -> Result<Charmap, Memory>
        ensures { IfOk result (λ m. m ≡ pairs) }
    {
        let (name, trie) = pairs.into_parts();
        let firsts = firsts_of(trie.entries());
        let singles = Singles::of(alloc, &trie, &firsts)?;
        let mut rows = Rows::of(alloc, &trie, &singles)?;
        let most = longest(&trie);
        let blocks = Blocks::of(alloc, trie.entries(), most, &singles, &mut rows)?;
        let row_offsets = row_offsets_of(alloc, &firsts, &singles, &mut rows)?;
        let rows = needed(alloc, rows.cells, &row_offsets, &blocks);
        let pages = PageTable::of(alloc, trie.entries())?;
        let substitute = pages.first_index(0x3F);
        let reads_ascii = does_read_ascii(&trie);
        let writes_ascii = does_write_ascii(&pages, trie.entries());
        Ok(Charmap {
            name,
            trie,
            singles: singles.cells,
            rows,
            row_offsets,
            blocks,
            pages,
            substitute,
            most,
            reads_ascii,
            writes_ascii,
        })
    }

    /// Returns what reads its bytes.
    #[inline(always)]
    fn decoder(&self) -> Decoder<'_>
        ensures { result.trie.now.entries ≡ self.now.pairs }
    {
        Decoder {
            trie: &self.trie,
            singles: self.singles.as_slice(),
            rows: self.rows.as_slice(),
            row_offsets: self.row_offsets.as_slice(),
            blocks: &self.blocks,
        }
    }

    /// Returns what writes its characters.
    #[inline(always)]
    fn encoder(&self) -> Encoder<'_>
        ensures { result.entries.now ≡ self.now.pairs }
    {
        Encoder {
            pages: &self.pages,
            entries: self.trie.entries(),
            substitute: self.substitute,
        }
    }

    /// Writes at most 256 characters at an index of a slice, with `?` for each that the charmap lacks. If there is such
    /// a character and the policy does not allow it, or if the slice has too little room, it returns `None` and the
    /// slice stays as it was. Few characters are written through a small buffer, which costs less to zero. What writes
    /// them is made here, so that its fields stay in registers.
    #[inline(never)]
    fn write_run(
        &self,
        policy: Policy,
        characters: &[Scalar],
        out: &mut [u8],
        at: usize,
    ) -> Option<WrittenBlock>
        requires few { length characters.now ≤ 256 }
        requires room { at ≤ length out.old }
        ensures { MayWriteBlock policy (map_writes self.now.pairs) WriteState.Start characters.now
            out.old at result out.new }
    {
        let encoder = self.encoder();
        if characters.len() <= 64 {
            encoder.write_by::<512>(policy, characters, out, at)
        } else {
            encoder.write_by::<2048>(policy, characters, out, at)
        }
    }

    /// Returns the name of the code set.
    pub fn name(&self) -> &[u8]
        ensures { result.now ≡ self.now.name }
    {
        self.name.as_slice()
    }

    /// Returns how many pairs there are.
    pub fn len(&self) -> usize
        ensures value { result ≡ length self.now.pairs }
        ensures map { IsMap self.now.pairs }
    {
        self.trie.len()
    }

    /// Returns how many bytes its name, its pairs with their trie, and its tables take, with the spare capacity: at
    /// least 16 for each pair. It saturates at `usize::MAX`.
    pub fn size(&self) -> usize
        ensures { 16 * length self.now.pairs ≤ result }
    {
        let found = self.trie.size().saturating_add(self.blocks.size());
        let cells = cells_size(&self.singles, &self.rows, &self.row_offsets);
        let written = self.pages.size().saturating_add(self.name.capacity());
        found.saturating_add(cells).saturating_add(written)
    }
}

impl Codec for Charmap {
    ghost reads = { λ m. map_reads m.pairs };

    ghost writes = { λ m. map_writes m.pairs };

    ghost closes = { λ _. map_closes };

    #[tactic(auto, using(crate::proofs::MapLaws::map_readable, crate::proofs::MapLaws::map_substitutes))]
    fn assert_valid(&self) {
        let _ = &self.trie;
    }

    fn item(&self, _state: ReadState, input: &[u8]) -> Item {
        next_item(&self.trie, input)
    }

    fn put_at(&self, _state: WriteState, c: Scalar, out: &mut [u8], at: usize) -> Put {
        self.encoder().put_character(c, out, at)
    }

    fn close(&self, _state: WriteState) -> Piece {
        Piece::new()
    }

    fn most_bytes(&self) -> usize {
        self.most
    }

    fn reads_ascii(&self, state: ReadState) -> Option<AsciiForm> {
        match state {
            ReadState::Start => self.reads_ascii.then_some(AsciiForm::Byte),
            _ => None,
        }
    }

    fn writes_ascii(&self, state: WriteState) -> Option<AsciiForm> {
        match state {
            WriteState::Start => self.writes_ascii.then_some(AsciiForm::Byte),
            _ => None,
        }
    }
}

impl BlockCodec for Charmap {
    #[tactic(auto, using(cv_base::proofs::BlockLaws::nothing_read))]
    fn read_block(&self, state: ReadState, input: &[u8], buffer: &mut [Scalar]) -> ReadBlock {
        match state {
            ReadState::Start => self.decoder().read_block(input, buffer),
            _ => ReadBlock::nothing(state),
        }
    }

    fn write_block(
        &self,
        policy: Policy,
        state: WriteState,
        characters: &[Scalar],
        out: &mut [u8],
        at: usize,
    ) -> Option<WrittenBlock> {
        match state {
            WriteState::Start => self.write_run(policy, characters, out, at),
            _ => None,
        }
    }
}
