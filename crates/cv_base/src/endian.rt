//! The byte order of a code unit.

/// Which byte of a code unit is first.
#[derive(Clone, Copy, Debug, PartialEq, Eq)]
pub enum Endian {
    /// The highest.
    Big,
    /// The lowest.
    Little,
}
