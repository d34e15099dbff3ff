//! What descriptor numbers and names stand for.
use cv_pivot::Encoding;

/// What a descriptor number stands for: the key of its conversion among those of all callers, and the slots of the
/// charmaps that it writes (`to`) and reads (`from`). `None`: that side is a built-in encoding.
#[derive(Clone, Copy, Debug, PartialEq, Eq)]
pub struct Place {
    pub key: u32,
    pub to: Option<u8>,
    pub from: Option<u8>,
}

/// What the name of an encoding stands for.
#[derive(Drop)]
pub enum Found {
    /// A built-in encoding.
    Builtin(Encoding),
    /// The charmap in this slot.
    Map(u8),
}
