//! Results of adding an entry.

/// What adding an entry did. Only `Entered` changes the entries.
#[derive(Clone, Copy, Debug, PartialEq, Eq)]
pub enum Added {
    /// The entry was added after all others.
    Entered,
    /// The entry at this index has the same bytes.
    Held(usize),
    /// Its bytes are longer than those of the entry at this index, and begin with them.
    Continues(usize),
    /// Its bytes are a proper prefix of another entry's.
    Begins,
}
