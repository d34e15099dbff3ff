//! A law of charmaps that the contracts of codecs do not state.
ghost use Rattle.std.specs.Prelude.{List};
ghost use Rattle.cv_base.specs.ReadBack.{ReadsBack};
ghost use Rattle.cv_charmap.specs.Entries.{Pair};
ghost use Rattle.cv_trie.specs.Charmaps.{map_reads, map_writes, map_closes};

/// A charmap reads back what it writes for characters that it has as those characters, even if it has several byte
/// strings for one of them.
#[tactic(auto, using(crate::proofs::MapReadBack::maps_back))]
pub fn read_back()
    ensures { (pairs : List Pair) → ReadsBack (map_reads pairs) (map_writes pairs) map_closes }
{
    // The contract is the law; nothing runs.
}
