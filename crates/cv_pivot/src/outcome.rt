//! The result of a conversion.
ghost use Rattle.std.specs.Prelude.{◌≡◌};
ghost use Rattle.cv_pivot.specs.Conversions.{start};

use cv_base::{ReadState, WriteState};

/// Why a conversion stopped (POSIX `iconv()`).
#[derive(Clone, Copy, Debug, PartialEq, Eq)]
pub enum Stop {
    /// All of the input is used.
    Done,
    /// The bytes of the next character do not fit in the room that is left (E2BIG).
    TooBig,
    /// The next bytes begin no item, whatever follows (EILSEQ).
    Ill,
    /// The input ends inside an item (EINVAL).
    Incomplete,
    /// The target lacks the next character, and the policy is strict (ENOCHAR: this project's own).
    Lacking,
}

/// The result of a conversion.
#[derive(Clone, Copy, Debug, PartialEq, Eq)]
pub struct Outcome {
    /// How many bytes of the input are left.
    pub left: usize,
    /// How many bytes of the room are left.
    pub room_left: usize,
    /// For how many characters `?` was written.
    pub count: usize,
    /// Why it stopped.
    pub stop: Stop,
}

/// The states of a conversion: that of the source's text and that of the target's.
#[derive(Clone, Copy, Debug, PartialEq, Eq)]
pub struct States {
    pub reading: ReadState,
    pub writing: WriteState,
}

impl States {
    /// Returns the states at the start of a conversion.
    pub fn start() -> States
        ensures { result ≡ start }
    {
        States {
            reading: ReadState::Start,
            writing: WriteState::Start,
        }
    }
}

/// The closing bytes do not fit in the room.
#[derive(Clone, Copy, Debug, PartialEq, Eq)]
pub struct TooBig;
