//! Streams of more than 5,000 reads, in which each read brings one byte.
use cv_commands::{call_over, read_all, serve_stream};
use cv_loop::{FromReader, Served, ToWriter};
use std::alloc::{AllocError, Global};
use std::test::Fail;
use test_support::Slow;

/// A reader that gives one byte a read.
fn one_by_one(bytes: &[u8]) -> Slow<'_> {
    Slow {
        bytes,
        more: b"",
        step: 1,
        fails: false,
    }
}

/// The bytes of `first`, and then those of `next` 300 times.
fn repeated(alloc: Global, first: &[u8], next: &[u8]) -> Result<Vec<u8>, AllocError> {
    let mut bytes = Vec::from_slice(alloc, first)?;
    for _ in 0..300u32 {
        bytes.extend_from_slice(next)?;
    }
    Ok(bytes)
}

/// Caller 7 opens a descriptor from ISO-8859-1 to UTF-8, which gets the number 0.
const OPEN: &[u8] = b"\0\0\0\x1a\0\0\0\x07\0\0\0\x01\x03\x05UTF-8\x0aISO-8859-1";

const OPENED: &[u8] = b"\0\0\0\x0d\0\0\0\x07\0\0\0\x01\0\0\0\0\0";

/// It converts `41 e9 42`.
const CONV: &[u8] = b"\0\0\0\x14\0\0\0\x07\0\0\0\x02\x04\0\0\0\0\0\0\0\x08\x41\xe9\x42";

const CONVERTED: &[u8] = b"\0\0\0\x15\0\0\0\x07\0\0\0\x02\0\0\0\0\0\0\0\0\0\x41\xc3\xa9\x42";

#[test]
fn a_stream_of_many_reads_is_served(rt: HostRuntime) -> Result<(), Fail> {
    let requests = repeated(rt.alloc(), OPEN, CONV)?;
    let replies = repeated(rt.alloc(), OPENED, CONVERTED)?;
    let mut reader = FromReader::new(one_by_one(&requests));
    let mut writer = ToWriter::new(Vec::new(rt.alloc()));
    let served = serve_stream(&rt, rt.alloc(), &mut reader, &mut writer, 2)?;
    assert_eq!(rt; served, Served { requests: 301 });
    assert!(rt; writer.into_inner().as_slice() == replies.as_slice());
    Ok(())
}

#[test]
fn a_file_of_many_reads_is_read(rt: HostRuntime) -> Result<(), Fail> {
    let requests = repeated(rt.alloc(), OPEN, CONV)?;
    let bytes = read_all(rt.alloc(), one_by_one(&requests))?;
    assert!(rt; bytes.as_slice() == requests.as_slice());
    Ok(())
}

#[test]
fn a_peer_of_many_reads_is_called(rt: HostRuntime) -> Result<(), Fail> {
    let script = repeated(
        rt.alloc(),
        b"7 1 open UTF-8 ISO-8859-1\n",
        b"7 2 conv 0 8 41e942\n",
    )?;
    let replies = repeated(rt.alloc(), OPENED, CONVERTED)?;
    let mut source = FromReader::new(one_by_one(&replies));
    let mut sink = ToWriter::new(Vec::new(rt.alloc()));
    let mut lines = Vec::new(rt.alloc());
    call_over(rt.alloc(), &script, &mut source, &mut sink, &mut lines)?;
    let wanted = repeated(
        rt.alloc(),
        b"7 1 OK 00000000\n",
        b"7 2 OK 000000000000000041c3a942\n",
    )?;
    assert!(rt; lines.as_slice() == wanted.as_slice());
    Ok(())
}
