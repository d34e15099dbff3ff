//! Frames in pieces.
use super::parted;
use crate::{Scan, Seen};
use std::alloc::{AllocError, Global};
use std::process::Abort;
use std::test::Fail;

/// A CONV without input, an unknown op without a body, and a CLOSE.
const FRAMES: &[u8] =
    b"\0\0\0\x11\0\0\0\x07\0\0\0\x01\x04\0\0\0\0\0\0\0\x09\0\0\0\x09\0\0\0\x07\0\0\0\x02\xff\
    \0\0\0\x0d\0\0\0\x07\0\0\0\x03\x06\0\0\0\0";

/// The codes of the frames that end in these bytes.
fn codes_in(scan: &mut Scan, bytes: &[u8], codes: &mut Vec<u8>) -> Result<(), AllocError> {
    let mut rest = bytes;
    // Each frame takes at least one byte, and the last call finds none.
    for _call in 0..=bytes.len() {
        let Some(seen) = scan.next(rest) else {
            break;
        };
        codes.push(seen.code)?;
        rest = &rest[seen.n..];
    }
    Ok(())
}

/// The codes of bytes that come in three pieces.
fn codes_of(alloc: Global, bytes: &[u8], first: usize, second: usize) -> Result<Vec<u8>, Fail> {
    let mut scan = Scan::new();
    let mut codes = Vec::new(alloc);
    let (front, rest) = parted(bytes, first);
    let (middle, back) = parted(rest, second);
    for piece in [front, middle, back] {
        codes_in(&mut scan, piece, &mut codes)?;
    }
    Ok(codes)
}

#[test]
fn a_frame_is_seen_by_its_last_byte(rt: HostRuntime) {
    let mut scan = Scan::new();
    assert_eq!(rt; scan.next(&FRAMES[..20]), None);
    assert_eq!(rt; scan.next(&FRAMES[20..]), Some(Seen { code: 4, n: 1 }));
    assert_eq!(rt; scan.next(&FRAMES[21..34]), Some(Seen { code: 255, n: 13 }));
    assert_eq!(rt; scan.next(b""), None);
}

#[test]
fn the_cut_changes_nothing(rt: HostRuntime) -> Result<(), Fail> {
    for first in 0..52 {
        for second in 0..52 {
            let codes = codes_of(rt.alloc(), FRAMES, first, second)?;
            assert!(rt;
                codes.as_slice() == [4, 255, 6].as_slice(),
                "{first} and {second}: {codes:?}"
            );
        }
    }
    Ok(())
}

/// Checks that no frame is seen after this bad length, wherever the bytes are cut.
fn ends_at<R: Abort>(rt: &R, alloc: Global, length: &[u8]) -> Result<(), Fail> {
    let mut bytes = Vec::from_slice(alloc, &FRAMES[..21])?;
    bytes.extend_from_slice(length)?;
    bytes.extend_from_slice(&[0; 40])?;
    for first in 0..bytes.len() {
        let codes = codes_of(alloc, &bytes, first, 7)?;
        assert!(rt; codes.as_slice() == [4].as_slice(), "{length:?} at {first}");
    }
    Ok(())
}

#[test]
fn nothing_follows_a_bad_length(rt: HostRuntime) -> Result<(), Fail> {
    let alloc = rt.alloc();
    ends_at(&rt, alloc, b"\0\0\0\x08")?;
    ends_at(&rt, alloc, b"\0\0\0\0")?;
    ends_at(&rt, alloc, b"\0\x10\0\x01")?;
    ends_at(&rt, alloc, b"\xff\xff\xff\xff")?;
    Ok(())
}

#[test]
fn the_longest_frame_is_seen(rt: HostRuntime) -> Result<(), Fail> {
    let alloc = rt.alloc();
    let mut bytes = vec![in alloc; 0u8; 1_048_580]?;
    bytes[1] = 0x10;
    bytes[12] = 8;
    for first in [0, 1, 12, 13, 14, 1_048_579] {
        let codes = codes_of(alloc, &bytes, first, 5)?;
        assert!(rt; codes.as_slice() == [8].as_slice(), "at {first}");
    }
    Ok(())
}

#[test]
fn a_head_in_pieces_of_one_byte(rt: HostRuntime) -> Result<(), Fail> {
    let alloc = rt.alloc();
    let mut scan = Scan::new();
    let mut codes = Vec::new(alloc);
    for byte in FRAMES.chunks(1) {
        codes_in(&mut scan, byte, &mut codes)?;
    }
    assert!(rt; codes.as_slice() == [4, 255, 6].as_slice(), "{codes:?}");
    Ok(())
}
