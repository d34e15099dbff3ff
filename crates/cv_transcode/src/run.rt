//! How far a loop went.

/// How much was converted.
#[derive(Clone, Copy, Debug, PartialEq, Eq)]
pub struct Run {
    /// How many bytes of the text were converted.
    pub used: usize,
    /// How many bytes were written.
    pub wrote: usize,
}
