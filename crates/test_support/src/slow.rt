//! A reader that gives its bytes in parts.
use std::io::{self, ErrorKind, Read};

/// A reader that gives `bytes` and then `more`, at most `step` at a time, and then ends or fails.
#[derive(Drop)]
pub struct Slow<'a> {
    pub bytes: &'a [u8],
    pub more: &'a [u8],
    pub step: usize,
    pub fails: bool,
}

impl Read for Slow<'_> {
    fn read(&mut self, buf: &mut [u8]) -> io::Result<usize> {
        if self.bytes.is_empty() {
            self.bytes = self.more;
            self.more = b"";
        }
        let n = self.step.min(self.bytes.len()).min(buf.len());
        if n == 0 && self.fails {
            return Err(ErrorKind::BrokenPipe.into());
        }
        let (front, rest) = self.bytes.split_at(n);
        buf[..n].copy_from_slice(front);
        self.bytes = rest;
        Ok(n)
    }
}
