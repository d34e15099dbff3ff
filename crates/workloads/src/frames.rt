//! Streams of request frames, which are put together while they are read: the texts in them stand where they were made.

use cv_frame::ops::{BYE, CLOSE, CONV, DROP, OPEN, PART, PUT};
use std::alloc::{AllocError, Global};
use std::io::{self, Read};

/// How many bytes a body has at most.
const LONGEST: usize = 1_048_567;

/// A room that is enough for every answer.
pub const AMPLE: u32 = 1_000_000;

/// A part of a stream.
#[derive(Clone, Copy)]
enum Part<'a> {
    /// Bytes of the stream's own, from one place up to another.
    Own(usize, usize),
    /// Bytes that stand elsewhere.
    Lent(&'a [u8]),
}

/// Request frames one after another.
#[derive(Drop)]
pub struct Frames<'a> {
    own: Vec<u8>,
    parts: Vec<Part<'a>>,
    tag: u32,
}

/// How many bytes some parts are.
fn size_of(parts: &[&[u8]]) -> usize {
    let mut size: usize = 0;
    for part in parts {
        size = size.saturating_add(part.len());
    }
    size
}

impl<'a> Frames<'a> {
    pub fn new(alloc: Global) -> Frames<'a> {
        Frames {
            own: Vec::new(alloc),
            parts: Vec::new(alloc),
            tag: 0,
        }
    }

    /// Appends a frame. Its body is a head and a tail in parts; one that no frame holds is left out.
    fn push(
        &mut self,
        caller: u32,
        op: u8,
        head: &[u8],
        tail: &[&'a [u8]],
    ) -> Result<(), AllocError> {
        let body = head.len().saturating_add(size_of(tail));
        if body > LONGEST {
            return Ok(());
        }
        let length = body as u32 + 9;
        self.tag = self.tag.wrapping_add(1);
        let from = self.own.len();
        self.own.extend_from_slice(&length.to_be_bytes())?;
        self.own.extend_from_slice(&caller.to_be_bytes())?;
        self.own.extend_from_slice(&self.tag.to_be_bytes())?;
        self.own.push(op)?;
        self.own.extend_from_slice(head)?;
        self.parts.push(Part::Own(from, self.own.len()))?;
        for part in tail {
            self.parts.push(Part::Lent(part))?;
        }
        Ok(())
    }

    /// PUT of a text in two pieces, with as many PARTs before it as it needs.
    pub fn put(
        &mut self,
        caller: u32,
        first: &'a [u8],
        second: &'a [u8],
    ) -> Result<(), AllocError> {
        let mut front = first;
        let mut rest = second;
        for _part in 0..second.len() {
            if front.len().saturating_add(rest.len()) <= LONGEST {
                break;
            }
            let (more, behind) = rest.split_at(rest.len().min(1_000_000));
            self.push(caller, PART, b"", &[front, more])?;
            front = b"";
            rest = behind;
        }
        self.push(caller, PUT, b"", &[front, rest])
    }

    pub fn drop_map(&mut self, alloc: Global, caller: u32, name: &str) -> Result<(), AllocError> {
        let mut body = Vec::new(alloc);
        body.push((name.len() % 256) as u8)?;
        body.extend_from_slice(name.as_bytes())?;
        self.push(caller, DROP, &body, &[])
    }

    pub fn open(
        &mut self,
        alloc: Global,
        caller: u32,
        to: &str,
        from: &str,
        strict: bool,
    ) -> Result<(), AllocError> {
        let mut body = Vec::new(alloc);
        for name in [to, from] {
            body.push((name.len() % 256) as u8)?;
            body.extend_from_slice(name.as_bytes())?;
        }
        if strict {
            body.push(1)?;
        }
        self.push(caller, OPEN, &body, &[])
    }

    /// CONV by the descriptor 0, of an input in parts.
    pub fn conv(&mut self, caller: u32, room: u32, input: &[&'a [u8]]) -> Result<(), AllocError> {
        let mut head = [0u8; 8];
        head[4..].copy_from_slice(&room.to_be_bytes());
        self.push(caller, CONV, &head, input)
    }

    /// CLOSE of the descriptor 0.
    pub fn close(&mut self, caller: u32) -> Result<(), AllocError> {
        self.push(caller, CLOSE, &[0u8; 4], &[])
    }

    pub fn bye(&mut self, caller: u32) -> Result<(), AllocError> {
        self.push(caller, BYE, b"", &[])
    }

    /// The bytes of a part.
    fn part(&self, number: usize) -> &[u8] {
        match self.parts.get(number) {
            Some(Part::Own(from, to)) => self.own.get(*from..*to).unwrap_or(b""),
            Some(Part::Lent(bytes)) => bytes,
            None => b"",
        }
    }
}

/// Reads a stream.
#[derive(Drop)]
pub struct Reader<'a> {
    frames: &'a Frames<'a>,
    /// The part that is read next, and how many bytes of it were read.
    part: usize,
    at: usize,
}

impl<'a> Reader<'a> {
    pub fn new(frames: &'a Frames<'a>) -> Reader<'a> {
        Reader {
            frames,
            part: 0,
            at: 0,
        }
    }
}

impl Read for Reader<'_> {
    fn read(&mut self, buf: &mut [u8]) -> io::Result<usize> {
        let mut filled: usize = 0;
        for _part in self.part..self.frames.parts.len() {
            let Some(room) = buf.get_mut(filled..) else {
                break;
            };
            let bytes = self.frames.part(self.part).get(self.at..).unwrap_or(b"");
            let n = bytes.len().min(room.len());
            room[..n].copy_from_slice(&bytes[..n]);
            filled = filled.saturating_add(n);
            if n < bytes.len() {
                self.at = self.at.saturating_add(n);
                break;
            }
            self.part = self.part.saturating_add(1);
            self.at = 0;
        }
        Ok(filled.min(buf.len()))
    }
}
