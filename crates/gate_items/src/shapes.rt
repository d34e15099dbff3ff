//! What a text consists of, and how it is written in an encoding.

use crate::scripts::Script;
use cv_base::{Codec, Scalar, WriteState};
use cv_pivot::Encoding;
use std::alloc::AllocError;

/// A number of characters of one kind.
#[derive(Clone, Copy, Debug, PartialEq, Eq)]
pub struct Run {
    pub script: Script,
    pub length: usize,
}

/// What is between two runs.
#[derive(Clone, Copy, Debug, PartialEq, Eq)]
pub enum Middle {
    Nothing,
    Character(char),
    /// A byte, unchanged.
    Byte(u8),
    /// Bytes, unchanged.
    Bytes(&'static [u8]),
}

/// A run, what stops or interrupts it, and another run.
#[derive(Clone, Copy, Debug, PartialEq, Eq)]
pub struct Shape {
    pub front: Run,
    pub middle: Middle,
    pub back: Run,
}

/// Why a text can't be written.
#[derive(Debug, Drop)]
pub enum Unspelled {
    /// The encoding lacks a character.
    Lacks,
    Memory(AllocError),
}

impl From<AllocError> for Unspelled {
    fn from(error: AllocError) -> Unspelled {
        Unspelled::Memory(error)
    }
}

/// A text that is being written.
#[derive(Drop)]
pub struct Speller {
    encoding: Encoding,
    state: WriteState,
    bytes: Vec<u8>,
}

impl Speller {
    /// Returns a text that begins with these bytes.
    pub fn new(encoding: Encoding, bytes: Vec<u8>) -> Speller {
        Speller {
            encoding,
            state: WriteState::Start,
            bytes,
        }
    }

    /// Returns the text.
    pub fn into_bytes(self) -> Vec<u8> {
        self.bytes
    }

    fn put(&mut self, c: Scalar) -> Result<(), Unspelled> {
        let Some((piece, next)) = self.encoding.put(self.state, c) else {
            return Err(Unspelled::Lacks);
        };
        self.bytes.extend_from_slice(piece.as_slice())?;
        self.state = next;
        Ok(())
    }

    /// Appends the characters of a run.
    pub fn run(&mut self, run: Run) -> Result<(), Unspelled> {
        for place in 0..run.length {
            self.put(run.script.character(place))?;
        }
        Ok(())
    }

    /// Appends the text of a shape.
    pub fn shape(&mut self, shape: &Shape) -> Result<(), Unspelled> {
        self.run(shape.front)?;
        match shape.middle {
            Middle::Nothing => {}
            Middle::Character(c) => self.put(Scalar::new(u32::from(c)).unwrap_or(
                Scalar::substitute(),
            ))?,
            Middle::Byte(byte) => self.bytes.extend_from_slice(&[byte])?,
            Middle::Bytes(bytes) => self.bytes.extend_from_slice(bytes)?,
        }
        self.run(shape.back)
    }
}
