//! The state of a conversion between two items.
ghost use Rattle.std.specs.Prelude.{◌≡◌, ◌<◌, ◌≤◌, ◌^◌, ◌%◌};

/// The bits of a shifted sequence that are pending (UTF-7, RFC 2152): 0, 2 or 4 of them.
#[derive(Clone, Copy, Debug, PartialEq, Eq)]
pub struct Bits {
    /// How many bits are pending.
    pub count: u8,
    /// The number that they spell, the highest bit first.
    pub value: u8,
    ghost few: { count ≤ 4 },
    ghost even: { count % 2 ≡ 0 },
    ghost in_range: { value < 2 ^ count },
}

/// The state of a reader. An encoding treats a state that it does not use as `Start`.
#[derive(Clone, Copy, Debug, PartialEq, Eq)]
pub enum ReadState {
    /// At the start of the text, or between two items of an encoding that needs no other state. In UTF-7 outside a
    /// shifted sequence.
    Start,
    /// After a big-endian mark, or after a first character that has no mark before it.
    Big,
    /// After a little-endian mark.
    Little,
    /// Inside a shifted sequence.
    Shifted(Bits),
}

/// The state of a writer. An encoding treats a state that it does not use as `Start`.
#[derive(Clone, Copy, Debug, PartialEq, Eq)]
pub enum WriteState {
    /// At the start of the text, or between two characters of an encoding that needs no other state. In UTF-7 outside a
    /// shifted sequence.
    Start,
    /// After the byte order mark.
    Marked,
    /// Inside a shifted sequence.
    Shifted(Bits),
}
