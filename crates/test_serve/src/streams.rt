//! A writer that takes some of its bytes, and a stream of two callers.
use std::io::{self, ErrorKind, Write};

/// A writer that takes `room` bytes, at most `step` at a time, and then fails or takes none.
#[derive(Drop)]
pub struct Narrow {
    pub taken: Vec<u8>,
    pub step: usize,
    pub room: usize,
    pub fails: bool,
}

impl Write for Narrow {
    fn write(&mut self, buf: &[u8]) -> io::Result<usize> {
        let n = self.step.min(self.room).min(buf.len());
        if n == 0 && self.fails {
            return Err(ErrorKind::BrokenPipe.into());
        }
        self.taken.extend_from_slice(&buf[..n])?;
        self.room -= n;
        Ok(n)
    }

    fn flush(&mut self) -> io::Result<()> {
        Ok(())
    }
}

/// Callers 1 and 2 upload a charmap TOY, in which the byte 80 is U+0100 for the one and U+0142 for the other. Each
/// opens a descriptor from it to UTF-8, and converts the byte 80.
pub const TWO_CALLERS: &[u8] = b"\
    \0\0\0R\0\0\0\x01\0\0\0\x01\x01<code_set_name> TOY\nCHARMAP\n<question-mark> \\x3F\n<U0100> \\x80\nEND CHARMAP\
    \0\0\0R\0\0\0\x02\0\0\0\x01\x01<code_set_name> TOY\nCHARMAP\n<question-mark> \\x3F\n<U0142> \\x80\nEND CHARMAP\
    \0\0\0\x13\0\0\0\x01\0\0\0\x02\x03\x05UTF-8\x03TOY\
    \0\0\0\x13\0\0\0\x02\0\0\0\x02\x03\x05UTF-8\x03toy\
    \0\0\0\x12\0\0\0\x01\0\0\0\x03\x04\0\0\0\0\0\0\0\x09\x80\
    \0\0\0\x12\0\0\0\x02\0\0\0\x03\x04\0\0\0\0\0\0\0\x09\x80";

/// The replies to them. The charmaps have two mappings, the descriptors the number 0, and the characters two bytes in
/// UTF-8.
pub const TOLD: &[u8] = b"\
    \0\0\0\x0d\0\0\0\x01\0\0\0\x01\0\0\0\0\x02\
    \0\0\0\x0d\0\0\0\x02\0\0\0\x01\0\0\0\0\x02\
    \0\0\0\x0d\0\0\0\x01\0\0\0\x02\0\0\0\0\0\
    \0\0\0\x0d\0\0\0\x02\0\0\0\x02\0\0\0\0\0\
    \0\0\0\x13\0\0\0\x01\0\0\0\x03\0\0\0\0\0\0\0\0\0\xc4\x80\
    \0\0\0\x13\0\0\0\x02\0\0\0\x03\0\0\0\0\0\0\0\0\0\xc5\x82";
