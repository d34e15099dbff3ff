//! What was read of a text, and what was written at the start of a buffer.

/// How much of a text was read.
#[derive(Clone, Copy, Debug)]
pub(crate) struct Read {
    /// How many characters.
    pub(crate) n: usize,
    /// How many bytes they have.
    pub(crate) used: usize,
}

/// How much was written at the start of a buffer.
#[derive(Clone, Copy, Debug)]
pub(crate) struct Written {
    /// How many characters.
    pub(crate) n: usize,
    /// How many bytes they have.
    pub(crate) used: usize,
    /// For how many characters `?` was written.
    pub(crate) count: usize,
}
