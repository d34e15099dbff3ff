//! Blocks of characters.
ghost use Rattle.std.specs.Prelude.{◌≡◌};

use crate::state::{ReadState, WriteState};

/// A block of characters that was read.
#[derive(Clone, Copy, Debug, PartialEq, Eq)]
pub struct ReadBlock {
    /// How many characters it has.
    pub n: usize,
    /// How many bytes of the text its items use.
    pub used: usize,
    /// The state after them.
    pub next: ReadState,
}

/// A block of characters that was written.
#[derive(Clone, Copy, Debug, PartialEq, Eq)]
pub struct WrittenBlock {
    /// How many bytes it has.
    pub wrote: usize,
    /// For how many characters `?` was written.
    pub count: usize,
    /// The state after it.
    pub next: WriteState,
}

impl ReadBlock {
    /// Returns a block without characters: nothing was read, and the state is still this one.
    pub fn nothing(state: ReadState) -> ReadBlock
        ensures { result ≡ record { n = 0; used = 0; next = state } }
    {
        ReadBlock {
            n: 0,
            used: 0,
            next: state,
        }
    }
}
