//! Streams that are served, and worlds as engines.
mod batches;
mod cut_readers;
mod ends;
mod longest;
mod rooms;
mod uploads;

use cv_frame::Request;
use cv_loop::{Engine, FromReader, ServeFault, Served, ToWriter, serve};
use cv_world::World;
use std::test::Fail;

/// Caller 7 opens a descriptor from ISO-8859-1 to US-ASCII.
const FRAME: &[u8] =
    b"\x00\x00\x00\x1d\x00\x00\x00\x07\x00\x00\x00\x01\x03\x08US-ASCII\x0aISO-8859-1";

/// The reply to the second such request: the descriptor has the number 1.
const SECOND_REPLY: &[u8] = b"\x00\x00\x00\x0d\x00\x00\x00\x07\x00\x00\x00\x01\x00\x00\x00\x00\x01";

#[test]
fn world_is_an_engine(rt: HostRuntime) -> Result<(), Fail> {
    let request = Request {
        caller: 7,
        tag: 1,
        op: 3,
        body: &FRAME[13..],
    };
    let mut world = World::new(rt.alloc());
    let replies = world.batch(&rt, rt.alloc(), &[request])?;
    assert_eq!(rt; replies.len(), 1);
    for reply in &replies {
        assert_eq!(rt; reply.head.as_slice(), b"\0\0\0\0".as_slice());
    }
    let mut reader = FromReader::new(FRAME);
    let mut writer = ToWriter::new(Vec::new(rt.alloc()));
    let served = serve(&mut world, &rt, rt.alloc(), &mut reader, &mut writer, 2)?;
    assert_eq!(rt; served, Served { requests: 1 });
    assert_eq!(rt; writer.into_inner().as_slice(), SECOND_REPLY);
    Ok(())
}

/// The faults that end serving, and their texts.
const TEXTS: &str = "
TruncatedFrame: truncated frame
BadLength { length: 8 }: bad length 8
Read: read failed
Write { written: 5 }: write failed after 5 bytes
TooManyReads: too many reads
Memory: out of memory
";

#[test]
fn faults_have_texts(rt: HostRuntime) -> Result<(), Fail> {
    let faults = [
        ServeFault::TruncatedFrame,
        ServeFault::BadLength { length: 8 },
        ServeFault::Read,
        ServeFault::Write { written: 5 },
        ServeFault::TooManyReads,
        ServeFault::Memory,
    ];
    for (fault, line) in faults.iter().zip(TEXTS.trim().lines()) {
        let told = format!(in rt.alloc(); "{fault:?}: {fault}")?;
        assert_eq!(rt; told.as_str(), line);
    }
    Ok(())
}
