//! The form of a code unit.
use crate::endian::Endian;

/// The form of the code unit that an encoding uses for each ASCII character. The unit's number is that of the
/// character.
#[derive(Clone, Copy, Debug, PartialEq, Eq)]
pub enum AsciiForm {
    /// One byte.
    Byte,
    /// Two bytes in a byte order.
    Two(Endian),
    /// Four bytes in a byte order.
    Four(Endian),
}
