//! A charmap's characters to bytes.
ghost use Rattle.std.specs.Prelude.{◌≡◌};
ghost use Rattle.cv_base.specs.Scalars.{question};
ghost use Rattle.cv_charmap.specs.Maps.{IsMap};
ghost use Rattle.cv_pages.specs.Paging.{index_of, AreFirst};
ghost use Rattle.cv_pages.specs.InlineBytes.{AreInline};

use cv_byte_trie::Entry;
use cv_pages::PageTable;

/// A charmap's characters to bytes: its pairs, and pages that name the first pair of each character.
#[derive(Clone, Copy, Debug)]
pub(crate) struct Encoder<'a> {
    pub(crate) pages: &'a PageTable,
    pub(crate) entries: &'a [Entry],
    /// The index of the pair of `?`.
    pub(crate) substitute: u32,
    ghost map: { IsMap entries.now },
    ghost names: { AreFirst pages.now.stage1.items pages.now.stage2.items entries.now },
    ghost inline: { AreInline pages.now.stage2.items pages.now.inline.bytes.items pages.now.inline.sizes.items
        entries.now },
    ghost is_substitute: { substitute ≡ index_of pages.now.stage1.items pages.now.stage2.items question },
}
