//! What conversions read from, and their state when a text begins.

use crate::scripts::Script;
use crate::shapes::{Run, Shape, Speller, Unspelled};
use cv_base::{Codec, Item, ReadState};
use cv_pivot::{Encoding, builtin};
use std::alloc::{AllocError, Global};

/// An encoding to read from, and how its texts are written.
#[derive(Clone, Copy, Debug)]
pub struct Source {
    pub name: &'static str,
    /// What its texts begin with.
    mark: &'static [u8],
    /// The encoding in which the rest is written.
    pub spelling: &'static str,
    /// Texts are tried after 0 to this many characters, because the state differs after each.
    pub leads: usize,
}

/// All sources. UTF-16 and UTF-32 have a big-endian mark, a little-endian one, or none. In UTF-7 a reader has 2, 4 and
/// 0 bits pending after the first, the second and the third character of a shifted sequence.
#[rattlefmt::skip]
pub const SOURCES: [Source; 14] = [
    Source { name: "US-ASCII", mark: b"", spelling: "US-ASCII", leads: 0 },
    Source { name: "ISO-8859-1", mark: b"", spelling: "ISO-8859-1", leads: 0 },
    Source { name: "UTF-8", mark: b"", spelling: "UTF-8", leads: 0 },
    Source { name: "UTF-16", mark: b"\xfe\xff", spelling: "UTF-16BE", leads: 1 },
    Source { name: "UTF-16", mark: b"\xff\xfe", spelling: "UTF-16LE", leads: 1 },
    Source { name: "UTF-16", mark: b"", spelling: "UTF-16BE", leads: 0 },
    Source { name: "UTF-16BE", mark: b"", spelling: "UTF-16BE", leads: 0 },
    Source { name: "UTF-16LE", mark: b"", spelling: "UTF-16LE", leads: 0 },
    Source { name: "UTF-32", mark: b"\0\0\xfe\xff", spelling: "UTF-32BE", leads: 1 },
    Source { name: "UTF-32", mark: b"\xff\xfe\0\0", spelling: "UTF-32LE", leads: 1 },
    Source { name: "UTF-32", mark: b"", spelling: "UTF-32BE", leads: 0 },
    Source { name: "UTF-32BE", mark: b"", spelling: "UTF-32BE", leads: 0 },
    Source { name: "UTF-32LE", mark: b"", spelling: "UTF-32LE", leads: 0 },
    Source { name: "UTF-7", mark: b"", spelling: "UTF-7", leads: 3 },
];

/// A text after a lead of some characters, which are read already.
#[derive(Drop)]
pub struct Text {
    pub encoding: Encoding,
    /// The state of a reader after the lead.
    pub reading: ReadState,
    bytes: Vec<u8>,
    /// How many bytes the lead has.
    read: usize,
}

impl Text {
    /// The bytes that are still to be read.
    pub fn rest(&self) -> &[u8] {
        self.bytes.get(self.read..).unwrap_or(&[])
    }

    /// Reads this many characters, with the marks and shifts before them.
    fn read(&mut self, characters: usize) {
        let mut left = characters;
        for _item in 0..self.bytes.len() {
            if left == 0 {
                break;
            }
            match self.encoding.item(self.reading, self.rest()) {
                Item::Char { c: _, n, next } => {
                    self.read = self.read.saturating_add(n);
                    self.reading = next;
                    left -= 1;
                }
                Item::Shift { n, next } => {
                    self.read = self.read.saturating_add(n);
                    self.reading = next;
                }
                _ => break,
            }
        }
    }
}

impl Source {
    /// The bytes of a text of a shape after `lead` characters.
    fn spell(&self, alloc: Global, lead: usize, shape: &Shape) -> Result<Vec<u8>, Unspelled> {
        let Some(encoding) = builtin(self.spelling.as_bytes()) else {
            return Err(Unspelled::Lacks);
        };
        let mut speller = Speller::new(encoding, Vec::from_slice(alloc, self.mark)?);
        speller.run(Run {
            script: Script::Cyrillic,
            length: lead,
        })?;
        speller.shape(shape)?;
        Ok(speller.into_bytes())
    }

    /// Returns a text of a shape after a lead of this many characters, or `None` if the encoding lacks one of them.
    pub fn text(
        &self,
        alloc: Global,
        lead: usize,
        shape: &Shape,
    ) -> Result<Option<Text>, AllocError> {
        let Some(encoding) = builtin(self.name.as_bytes()) else {
            return Ok(None);
        };
        let bytes = match self.spell(alloc, lead, shape) {
            Ok(bytes) => bytes,
            Err(Unspelled::Lacks) => return Ok(None),
            Err(Unspelled::Memory(error)) => return Err(error),
        };
        let mut text = Text {
            encoding,
            reading: ReadState::Start,
            bytes,
            read: 0,
        };
        text.read(lead);
        Ok(Some(text))
    }
}
