//! Laws of the definitions: of the cut of bytes into frames, and of bodies that are read.

ghost use Rattle.cv_frame.specs.Cut.{OneCut, CutOfJoined};
ghost use Rattle.cv_frame.specs.Bodies.{ReadBack};

/// Every byte string has exactly one cut: whole frames, and then a rest that begins with none. A rest of fewer than
/// four bytes is a part of a frame. A longer one is a part of a frame if more bytes can make it whole, and begins with
/// a bad length if none can.
pub fn one_cut()
    ensures { OneCut }
{
    // The contract is the law; nothing runs.
}

/// The cut of joined frames is the frames, and then the cut of what follows.
#[tactic(auto, using(crate::proofs::Cuts::cut_of_joined))]
pub fn cut_of_joined()
    ensures { CutOfJoined }
{
    // The contract is the law; nothing runs.
}

/// The body readers read each body that `write_request` writes as what was asked. They read one other form: an OPEN
/// with a byte 0 after its names, as `Policy::Substitute`.
#[tactic(auto, using(crate::proofs::ReadBack::read_back))]
pub fn read_back()
    ensures { ReadBack }
{
    // The contract is the law; nothing runs.
}
