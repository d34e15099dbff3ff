//! Why a table refuses a change. It then stays as it is.
use thiserror::Error;

/// Why a charmap was not taken.
#[derive(Clone, Copy, Debug, PartialEq, Eq, Error)]
pub enum AddFault {
    /// Its name is that of a built-in encoding, or of a charmap that is held.
    #[error("the name is taken")]
    Exists,
    /// With its mappings the caller would have too many, or no slot is free.
    #[error("too many charmaps or mappings")]
    Quota,
    /// It takes more bytes than are left.
    #[error("too few bytes are left")]
    Full,
    /// An allocation failed.
    #[error("out of memory")]
    Memory,
}

/// Why a charmap was not dropped.
#[derive(Clone, Copy, Debug, PartialEq, Eq, Error)]
pub enum DropFault {
    /// No charmap of this name is held.
    #[error("no such charmap")]
    NoName,
    /// An open descriptor reads or writes it.
    #[error("the charmap is in use")]
    Busy,
}

/// Why a part was not taken.
#[derive(Clone, Copy, Debug, PartialEq, Eq, Error)]
pub enum PartFault {
    /// With the part that is already there it is too long.
    #[error("the part is too long")]
    Quota,
    /// It takes more bytes than are left.
    #[error("too few bytes are left")]
    Full,
    /// An allocation failed.
    #[error("out of memory")]
    Memory,
}
