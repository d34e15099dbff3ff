//! Which requests a batch has. Its replies are written before the next batch runs.
ghost use Rattle.cv_caller.specs.Tables.{Table as WorldTable};
ghost use Rattle.cv_world.specs.Requests.{turn};
ghost use Rattle.cv_world.specs.Worlds.{world_tables};

use cv_base::Memory;
use cv_frame::ops::{CLOSE, PUT};
use cv_frame::{Reply, Request};
use cv_loop::{Engine, FromReader, ToWriter, serve};
use cv_machine::Machine;
use cv_world::World;
use std::alloc::Global;
use std::io::{self, Write};
use std::sync::atomic::{AtomicU64, Ordering};
use std::test::Fail;
use test_support::{push_frame, sides};

/// A world that records how many requests each batch has, and how many writes were made before it.
#[derive(Drop)]
struct Noting<'a> {
    world: World,
    at_once: usize,
    pushes: &'a AtomicU64,
    notes: Vec<(usize, u64)>,
}

impl Machine for Noting<'_> {
    ghost Table = { WorldTable };

    ghost turn = { turn };

    ghost tables = { λ engine. world_tables engine.world };

    fn assert_valid(&self) {
        self.world.assert_valid();
    }
}

impl<R> Engine<R> for Noting<'_> {
    fn batch(&mut self, rt: &R, alloc: Global, requests: &[Request]) -> Result<Vec<Reply>, Memory> {
        let pushes = self.pushes.load(Ordering::SeqCst);
        self.notes.push((requests.len(), pushes))?;
        self.world.batch(rt, alloc, requests)
    }

    fn uploads_at_once(&self) -> usize {
        self.at_once.max(1)
    }
}

/// A writer that takes all bytes, and counts its writes.
#[derive(Drop)]
struct Counting<'a> {
    pushes: &'a AtomicU64,
}

impl Write for Counting<'_> {
    fn write(&mut self, buf: &[u8]) -> io::Result<usize> {
        let before = self.pushes.load(Ordering::SeqCst);
        self.pushes
            .store(before.saturating_add(1), Ordering::SeqCst);
        Ok(buf.len())
    }

    fn flush(&mut self) -> io::Result<()> {
        Ok(())
    }
}

/// A line has the most uploads that the engine runs at once, the requests of one read, and the batches: the size of
/// each, and how many writes were made before it. `p3` is three uploads, and `c3` is three other requests.
const BATCHES: &str = "
1: c3 = 3 after 0
1: c64 = 64 after 0
1: c65 = 64 after 0, 1 after 1
1: p3 = 1 after 0, 1 after 1, 1 after 2
1: c2 p1 c1 p2 = 2 after 0, 1 after 1, 1 after 2, 1 after 3, 1 after 4
2: p3 c1 = 2 after 0, 1 after 1, 1 after 2
16: c1 p20 c70 = 1 after 0, 16 after 1, 4 after 2, 64 after 3, 6 after 4
100: p65 = 64 after 0, 1 after 1
";

#[test]
fn uploads_stand_in_batches_of_their_own(rt: HostRuntime) -> Result<(), Fail> {
    for line in BATCHES.trim().lines() {
        let (asked, wanted) = sides(line, " = ")?;
        let (at_once, asked) = sides(asked, ": ")?;
        let stream = stream_of(rt.alloc(), asked)?;
        let told = batches_of(rt.alloc(), at_once.parse::<usize>()?, stream.as_slice())?;
        assert_eq!(rt; told.as_str(), wanted, "{line}");
    }
    Ok(())
}

/// The frames of the requests of a line.
fn stream_of(alloc: Global, asked: &str) -> Result<Vec<u8>, Fail> {
    let mut stream = Vec::new(alloc);
    for word in asked.split(' ') {
        let (op, count) = match word.strip_prefix("p") {
            Some(count) => (PUT, count),
            None => (CLOSE, word.strip_prefix("c").ok_or("no such request")?),
        };
        for tag in 0..count.parse::<u32>()? {
            push_frame(&mut stream, 7, tag, op, b"")?;
        }
    }
    Ok(stream)
}

/// The batches of a stream.
fn batches_of(alloc: Global, at_once: usize, stream: &[u8]) -> Result<String, Fail> {
    let pushes = AtomicU64::new(0);
    let mut engine = Noting {
        world: World::new(alloc),
        at_once,
        pushes: &pushes,
        notes: Vec::new(alloc),
    };
    let mut reader = FromReader::new(stream);
    let mut writer = ToWriter::new(Counting { pushes: &pushes });
    serve(&mut engine, &(), alloc, &mut reader, &mut writer, 9)?;
    let mut told = String::new(alloc);
    for (size, before) in &engine.notes {
        let mark = if told.is_empty() { "" } else { ", " };
        let note = format!(in alloc; "{mark}{size} after {before}")?;
        told.push_str(note.as_str())?;
    }
    Ok(told)
}
