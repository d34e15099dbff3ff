//! The longest frame, a CONV of 1,048,559 bytes, with engines of three kinds.
use crate::engines::{KINDS, serve_by};
use cv_loop::{FromReader, Served, ToWriter};
use std::alloc::{AllocError, Global};
use std::test::Fail;

/// Caller 7 opens a descriptor from UTF-8 to ISO-8859-1. After it begins a frame of length 1,048,576, which converts by
/// this descriptor, with room for 524,280 bytes.
const HEADS: &[u8] = b"\0\0\0\x1a\0\0\0\x07\0\0\0\x01\x03\x0aISO-8859-1\x05UTF-8\
    \0\x10\0\0\0\0\0\x07\0\0\0\x02\x04\0\0\0\0\0\x07\xff\xf8";

/// The beginnings of the replies: the descriptor has the number 0, and nothing of the input is left.
const REPLY_HEADS: &[u8] = b"\0\0\0\x0d\0\0\0\x07\0\0\0\x01\0\0\0\0\0\
    \0\x08\0\x09\0\0\0\x07\0\0\0\x02\0\0\0\0\0\0\0\0\0";

/// The requests: the text is U+00E9 in UTF-8 524,279 times, and then `A`.
fn requests(alloc: Global) -> Result<Vec<u8>, AllocError> {
    let text = "\u{e9}".repeat(alloc, 524_279)?;
    let mut bytes = Vec::from_slice(alloc, HEADS)?;
    bytes.extend_from_slice(text.as_bytes())?;
    bytes.push(b'A')?;
    Ok(bytes)
}

/// Their replies: the same text in ISO-8859-1.
fn replies(alloc: Global) -> Result<Vec<u8>, AllocError> {
    let mut bytes = Vec::from_slice(alloc, REPLY_HEADS)?;
    bytes.resize(bytes.len().saturating_add(524_279), 0xe9)?;
    bytes.push(b'A')?;
    Ok(bytes)
}

#[test]
fn the_longest_frame_is_converted(rt: HostRuntime) -> Result<(), Fail> {
    let requests = requests(rt.alloc())?;
    let replies = replies(rt.alloc())?;
    for kind in KINDS {
        let mut reader = FromReader::new(requests.as_slice());
        let mut writer = ToWriter::new(Vec::new(rt.alloc()));
        let served = serve_by(&rt, rt.alloc(), kind, &mut reader, &mut writer, 1_000);
        assert_eq!(rt; served, Ok(Served { requests: 2 }));
        assert!(rt; writer.into_inner().as_slice() == replies.as_slice());
    }
    Ok(())
}
