//! Sources and sinks made of the readers and writers of std.

ghost use Rattle.std.specs.Prelude.{◌≡◌, false};

use crate::ends::{Failed, Sink, Source};
use std::io::{Read, Write};

/// A source made of a reader. Each pull is one `read`. The kind of an error is not kept.
#[derive(Drop)]
pub struct FromReader<T> {
    reader: T,
    pulls: u64,
    met_end: bool,
    has_failed: bool,
}

impl<T: Read> FromReader<T> {
    /// Makes a source of the bytes that the reader has left. No pull was made on it.
    pub fn new(reader: T) -> Self
        ensures left { ⟦<FromReader<T> as Source>⟧.left result ≡ T.remaining reader }
        ensures pulls { ⟦<FromReader<T> as Source>⟧.pulls result ≡ 0 }
        ensures met_end { ⟦<FromReader<T> as Source>⟧.met_end result ≡ false }
        ensures has_failed { ⟦<FromReader<T> as Source>⟧.has_failed result ≡ false }
    {
        FromReader {
            reader,
            pulls: 0,
            met_end: false,
            has_failed: false,
        }
    }

    /// Returns the reader.
    pub fn into_inner(self) -> T
    where
        T: Drop,
        ensures { T.remaining result ≡ ⟦<FromReader<T> as Source>⟧.left self }
    {
        let FromReader {
            reader,
            pulls: _,
            met_end: _,
            has_failed: _,
        } = self;
        reader
    }
}

impl<T: Read> Source for FromReader<T> {
    ghost left = { λ s. T.remaining s.reader };

    ghost pulls = { λ s. s.pulls };

    ghost met_end = { λ s. s.met_end };

    ghost has_failed = { λ s. s.has_failed };

    fn pull(&mut self, buf: &mut [u8]) -> Result<usize, Failed> {
        self.pulls += 1;
        match self.reader.read(buf) {
            Ok(n) => {
                if n == 0 && !buf.is_empty() {
                    self.met_end = true;
                }
                Ok(n)
            }
            Err(_) => {
                self.has_failed = true;
                Err(Failed)
            }
        }
    }
}

/// A sink made of a writer. Each push is one `write`. The kind of an error is not kept.
#[derive(Drop)]
pub struct ToWriter<T> {
    writer: T,
    has_failed: bool,
}

impl<T: Write> ToWriter<T> {
    /// Makes a sink that appends to what the writer holds. No push was made on it.
    pub fn new(writer: T) -> Self
        ensures held { ⟦<ToWriter<T> as Sink>⟧.held result ≡ T.contents writer }
        ensures has_failed { ⟦<ToWriter<T> as Sink>⟧.has_failed result ≡ false }
    {
        ToWriter {
            writer,
            has_failed: false,
        }
    }

    /// Returns the writer.
    pub fn into_inner(self) -> T
    where
        T: Drop,
        ensures { T.contents result ≡ ⟦<ToWriter<T> as Sink>⟧.held self }
    {
        let ToWriter {
            writer,
            has_failed: _,
        } = self;
        writer
    }
}

impl<T: Write> Sink for ToWriter<T> {
    ghost held = { λ s. T.contents s.writer };

    ghost has_failed = { λ s. s.has_failed };

    fn push(&mut self, bytes: &[u8]) -> Result<usize, Failed> {
        match self.writer.write(bytes) {
            Ok(n) => {
                if n == 0 && !bytes.is_empty() {
                    self.has_failed = true;
                }
                Ok(n)
            }
            Err(_) => {
                self.has_failed = true;
                Err(Failed)
            }
        }
    }
}
