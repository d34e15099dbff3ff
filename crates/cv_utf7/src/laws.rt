//! Laws of UTF-7.
ghost use Rattle.std.specs.Prelude.{◌≡◌, ◌≤◌, ◌%◌, Bool, List, length};
ghost use Rattle.cv_base.specs.ReadBack.{ReadsBack};
ghost use Rattle.cv_utf7.specs.BitLists.{bits_of};
ghost use Rattle.cv_utf7.specs.PendingBits.{pending_of};
ghost use Rattle.cv_utf7.specs.Utf7.{utf7_reads, utf7_writes, utf7_closes};

/// States that pending bits made from two or four bits, or from none, are these bits.
#[tactic(auto, using(crate::proofs::PendingBits::pending_bits))]
pub fn pending_bits()
    ensures { (few : List Bool) → length few ≤ 4 → length few % 2 ≡ 0
        → bits_of (pending_of few) ≡ few }
{
    // The contract is the law; nothing runs.
}

/// States that a text that is written from the start and closed is read from the start as the same characters, to its
/// end.
#[tactic(auto, using(crate::proofs::ReadBack::utf7_reads_back))]
pub fn read_back()
    ensures { ReadsBack utf7_reads utf7_writes utf7_closes }
{
    // The contract is the law; nothing runs.
}
