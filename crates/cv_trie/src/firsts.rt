//! How many strings begin with each byte. It affects speed and memory alone.
use cv_byte_trie::Entry;

/// A byte gets a row if at least this many strings of two or of four bytes begin with it. A row takes a kilobyte. So a
/// map grows by at most 32 bytes for each of its pairs, by the row that all other bytes share, by the cells for single
/// bytes, and by what `row_offsets` takes.
const DENSE: u16 = 32;

/// A byte also gets a row if at least this many strings of three bytes begin with it. Without a row these are read as
/// fast as others of their size, so a row may take no more than a byte for each.
const DENSE_TRIPLES: u16 = 1024;

/// For each byte how many strings of two or of four bytes begin with it, and how many of three.
#[derive(Debug, Drop)]
pub(crate) struct Firsts {
    others: [u16; 256],
    triples: [u16; 256],
}

/// Counts the strings that begin with each byte. Counts saturate.
pub(crate) fn firsts_of(entries: &[Entry]) -> Firsts {
    let mut others = [0u16; 256];
    let mut triples = [0u16; 256];
    for index in 0..entries.len() {
        let bytes = entries[index].bytes();
        let size = bytes.len();
        if size == 3 {
            triples[bytes[0] as usize] = triples[bytes[0] as usize].saturating_add(1);
        } else if size == 2 || size == 4 {
            others[bytes[0] as usize] = others[bytes[0] as usize].saturating_add(1);
        }
    }
    Firsts { others, triples }
}

impl Firsts {
    /// Tells whether enough strings begin with a byte for it to have a row.
    #[inline(always)]
    pub(crate) fn are_many(&self, byte: u8) -> bool {
        let byte = byte as usize;
        self.others[byte] >= DENSE || self.triples[byte] >= DENSE_TRIPLES
    }

    /// Tells whether eight characters at once are to be tried. They are not if all rows are for strings of three bytes,
    /// since single bytes are then read faster without them.
    pub(crate) fn try_eight(&self) -> bool {
        for byte in 0..256 {
            if self.others[byte] >= DENSE {
                return true;
            }
        }
        false
    }
}
