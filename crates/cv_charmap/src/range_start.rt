//! Where a range begins.

/// The number in the first character's name of a range, whether it counts in hexadecimal, and the first bytes.
#[derive(Clone, Copy, Debug)]
pub(crate) struct RangeStart<'a> {
    /// Whether the range counts in hexadecimal.
    pub(crate) hex: bool,
    /// The number in the name of the first character.
    pub(crate) first: u32,
    /// The bytes of the first character.
    pub(crate) bytes: &'a [u8],
}
