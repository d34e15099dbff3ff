//! How much room each read has: little at first, and more after reads that fill it.
use cv_loop::{FromReader, ToWriter, serve};
use cv_world::World;
use std::alloc::Global;
use std::io::{self, Read};
use std::test::Fail;
use test_support::{push_frame, sides};

/// A reader that gives its bytes, at most `step` at a time, and records how much room each read has.
#[derive(Drop)]
struct Noting<'a> {
    bytes: &'a [u8],
    step: usize,
    rooms: Vec<usize>,
}

impl Read for Noting<'_> {
    fn read(&mut self, buf: &mut [u8]) -> io::Result<usize> {
        self.rooms.push(buf.len())?;
        let n = self.step.min(self.bytes.len()).min(buf.len());
        let (front, rest) = self.bytes.split_at(n);
        buf[..n].copy_from_slice(front);
        self.bytes = rest;
        Ok(n)
    }
}

/// The sizes of the frames of a stream, the most bytes that a read brings, and the room of each read, with that of the
/// one at the end.
const ROOMS: &str = "
13 by 100: 4096 4096
300 by 100: 4096 4096 4096 4096
4095 by 9999: 4096 4096
4096 by 9999: 4096 8192
200000 by 999999: 4096 8192 16384 32768 65536 65536 65536 65536
200000 65536 by 999999: 4096 8192 16384 32768 65536 65536 65536 65536 65536
";

#[test]
fn reads_have_room_as_they_bring(rt: HostRuntime) -> Result<(), Fail> {
    for line in ROOMS.trim().lines() {
        let (asked, wanted) = sides(line, ": ")?;
        let (frames, step) = sides(asked, " by ")?;
        let stream = stream_of(rt.alloc(), frames)?;
        let told = rooms_of(rt.alloc(), stream.as_slice(), step.parse::<usize>()?)?;
        assert_eq!(rt; told.as_str(), wanted, "{line}");
    }
    Ok(())
}

/// Frames of these sizes, with an unknown op.
fn stream_of(alloc: Global, frames: &str) -> Result<Vec<u8>, Fail> {
    let mut stream = Vec::new(alloc);
    for length in frames.split(' ') {
        let body = vec![in alloc; 0u8; length.parse::<usize>()?.saturating_sub(13)]?;
        push_frame(&mut stream, 7, 1, 0, &body)?;
    }
    Ok(stream)
}

/// The room of each read of a stream, if each brings at most `step` bytes.
fn rooms_of(alloc: Global, stream: &[u8], step: usize) -> Result<String, Fail> {
    let mut reader = FromReader::new(Noting {
        bytes: stream,
        step,
        rooms: Vec::new(alloc),
    });
    let mut writer = ToWriter::new(Vec::new(alloc));
    let mut world = World::new(alloc);
    serve(&mut world, &(), alloc, &mut reader, &mut writer, 100)?;
    let mut told = String::new(alloc);
    for room in &reader.into_inner().rooms {
        let mark = if told.is_empty() { "" } else { " " };
        let note = format!(in alloc; "{mark}{room}")?;
        told.push_str(note.as_str())?;
    }
    Ok(told)
}
