//! The result of looking up a text.

/// What the beginning of a text is among the entries.
#[derive(Clone, Copy, Debug, PartialEq, Eq)]
pub enum Lookup {
    /// The text begins with the bytes of the entry at this index.
    Entry(usize),
    /// The text is a proper prefix of an entry's bytes.
    Inside,
    /// The text begins with no entry's bytes, and no entry's bytes begin with the text.
    Nothing,
}
