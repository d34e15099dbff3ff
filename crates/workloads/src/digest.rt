//! A digest of what is written.

use std::io::{self, Write};

/// How many bytes are taken at once.
const BLOCK: usize = 64;

/// A digest of bytes, the same however they are cut.
#[derive(Clone, Copy, Drop)]
pub struct Digest {
    lanes: [u64; 8],
    /// Bytes of a block that isn't whole yet.
    pending: [u8; BLOCK],
    filled: usize,
    length: u64,
}

/// What the lanes are multiplied by: an odd number.
const FACTOR: u64 = 0x9E37_79B9_7F4A_7C15;

fn mixed(lane: u64, word: u64) -> u64 {
    (lane ^ word).wrapping_mul(FACTOR)
}

/// Mixes a block into the lanes.
fn mix_block(lanes: &mut [u64; 8], block: &[u8; BLOCK]) {
    let (words, _) = block.as_chunks::<8>();
    for (lane, word) in lanes.iter_mut().zip(words) {
        let after = mixed(*lane, u64::from_le_bytes(*word));
        *lane = after ^ (after >> 29);
    }
}

impl Digest {
    pub fn new() -> Digest {
        Digest {
            lanes: [1, 2, 3, 4, 5, 6, 7, 8],
            pending: [0; BLOCK],
            filled: 0,
            length: 0,
        }
    }

    /// Takes one byte.
    fn take_byte(&mut self, byte: u8) {
        if let Some(place) = self.pending.get_mut(self.filled) {
            *place = byte;
        }
        self.filled = self.filled.saturating_add(1);
        if self.filled >= BLOCK {
            mix_block(&mut self.lanes, &self.pending);
            self.filled = 0;
        }
    }

    /// Takes bytes.
    pub fn take(&mut self, bytes: &[u8]) {
        self.length = self.length.wrapping_add(bytes.len() as u64);
        let lacking = if self.filled == 0 {
            0
        } else {
            BLOCK.saturating_sub(self.filled)
        };
        let (front, rest) = bytes.split_at(lacking.min(bytes.len()));
        for byte in front {
            self.take_byte(*byte);
        }
        let (blocks, behind) = rest.as_chunks::<BLOCK>();
        for block in blocks {
            mix_block(&mut self.lanes, block);
        }
        for byte in behind {
            self.take_byte(*byte);
        }
    }

    /// The sum of what was taken.
    pub fn sum(&self) -> u64 {
        let mut whole = self.lanes;
        let rest = self.pending.get(..self.filled).unwrap_or(&[]);
        let mut last = [0u8; BLOCK];
        for (place, byte) in last.iter_mut().zip(rest) {
            *place = *byte;
        }
        mix_block(&mut whole, &last);
        whole
            .iter()
            .fold(self.length, |sum, lane| mixed(sum, *lane))
    }

    /// How many bytes were taken.
    pub fn length(&self) -> u64 {
        self.length
    }
}

impl Write for Digest {
    fn write(&mut self, buf: &[u8]) -> io::Result<usize> {
        self.take(buf);
        Ok(buf.len())
    }

    fn flush(&mut self) -> io::Result<()> {
        Ok(())
    }
}
