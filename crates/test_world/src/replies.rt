//! A world that appends its replies gives the same replies as one that returns them. The requests are pseudorandom.
//! Their rooms and sizes are near the sizes at which conversions take another path.
use crate::numbers::Numbers;
use cv_cache::Plain;
use cv_frame::{Frame, Reply, next_request, write_reply};
use cv_world::{Replies, World};
use std::alloc::{AllocError, Global};
use std::test::Fail;
use test_support::push_frame;

/// The ops and bodies of requests that are no conversions. Some bodies are malformed.
const OTHERS: [&[u8]; 20] = [
    b"\x03\x05UTF-8\x08UTF-16LE",
    b"\x03\x08UTF-16LE\x05UTF-8",
    b"\x03\x05UTF-8\x05UTF-8\x01",
    b"\x03\x05UTF-7\x05UTF-8",
    b"\x03\x08US-ASCII\x05UTF-8",
    b"\x03\x0aISO-8859-1\x05UTF-8\x01",
    b"\x03\x01P\x05UTF-8",
    b"\x03\x05UTF-8\x01P",
    b"\x03\x05UTF-8\x0aISO-8859-1",
    b"\x03\x05UTF-8",
    b"\x01<code_set_name> P\nCHARMAP\n<question-mark> \\x3F\n<U0041>..<U005A> \\x41\n<U00E9> \\x80\nEND CHARMAP\n",
    b"\x01CHARMAP\n<U0041>\n",
    b"\x02\x01P",
    b"\x08xyz",
    b"\x08",
    b"\x05\0\0\0\x03\0\0\0\x08",
    b"\x05\0\0\0\x01\0\0\0\0",
    b"\x06\0\0\0\x02",
    b"\x07",
    b"\x63",
];

/// A text whose characters have one to four bytes.
const TEXT: &str =
    "Les caf\u{e9}s de \u{41a}\u{438}\u{435}\u{432}, \u{4e2d}\u{6587} and \u{1f600}. \
    All plain from here on, for some time. ";

const ROOMS: [u32; 18] = [
    0, 1, 2, 3, 7, 8, 9, 40, 63, 64, 1_024, 4_075, 4_096, 4_097, 16_384, 262_144, 1_000_000,
    1_000_001,
];

const SIZES: [u32; 14] = [
    0, 1, 2, 3, 5, 8, 11, 12, 64, 1_023, 1_024, 1_025, 4_100, 20_000,
];

/// Appends the frame of a CONV. About one text in three has a bad byte, and about one body in eight has neither a
/// number nor a room.
fn push_conversion(
    alloc: Global,
    numbers: &mut Numbers,
    frames: &mut Vec<u8>,
    caller: u32,
    tag: u32,
) -> Result<(), AllocError> {
    let mut body = Vec::new(alloc);
    if numbers.below(8) > 0 {
        let number = numbers.below(4);
        body.extend_from_slice(&number.to_be_bytes())?;
        body.extend_from_slice(&numbers.one_of(&ROOMS).to_be_bytes())?;
    }
    let size = numbers.one_of(&SIZES);
    let start = body.len();
    // `TEXT` has more than 64 bytes, so these are at least `size` bytes.
    for _time in 0..=size / 64 {
        body.extend_from_slice(TEXT.as_bytes())?;
    }
    body.truncate(start.saturating_add(size as usize));
    let bad = numbers.below(size.saturating_mul(3));
    if let Some(byte) = body.get_mut(start.saturating_add(bad as usize)) {
        *byte = 0xFF;
    }
    push_frame(frames, caller, tag, 4, &body)
}

/// The frames of `count` pseudorandom requests of three callers.
fn made(alloc: Global, numbers: &mut Numbers, count: u32) -> Result<Vec<u8>, AllocError> {
    let mut frames = Vec::new(alloc);
    for tag in 0..count {
        let caller = numbers.below(3);
        if numbers.below(3) > 0 {
            push_conversion(alloc, numbers, &mut frames, caller, tag)?;
            continue;
        }
        let place = numbers.below(20) as usize;
        if let Some([op, body @ ..]) = OTHERS.get(place) {
            push_frame(&mut frames, caller, tag, *op, body)?;
        }
    }
    Ok(frames)
}

/// Gives the requests of `count` frames to both worlds. The first returns its replies, and the second appends them.
/// Returns whether their frames are the same.
fn are_same(
    alloc: Global,
    worlds: &mut (World, World),
    frames: &[u8],
    count: u32,
    replies: &mut Replies,
) -> Result<bool, Fail> {
    let mut wanted = Vec::new(alloc);
    let mut rest = frames;
    for _turn in 0..count {
        let Frame::Whole { request, n } = next_request(rest) else {
            return Err("each frame is whole".into());
        };
        let reply: Reply = worlds.0.answer(&Plain, &(), alloc, &request);
        write_reply(&mut wanted, &reply)?;
        worlds.1.answer_into(&Plain, &(), alloc, &request, replies)?;
        rest = rest.get(n..).unwrap_or(&[]);
    }
    Ok(replies.as_slice() == wanted.as_slice())
}

#[test]
fn appended_replies_are_those_that_are_returned(rt: HostRuntime) -> Result<(), Fail> {
    let alloc = rt.alloc();
    let mut numbers = Numbers { state: 47 };
    let mut worlds = (World::new(alloc), World::new(alloc));
    let mut replies = Replies::new(alloc);
    for size in [1u32, 2, 5, 30, 400, 3, 60, 1, 200] {
        let frames = made(alloc, &mut numbers, size)?;
        replies.clear();
        let same = are_same(alloc, &mut worlds, &frames, size, &mut replies)?;
        assert!(rt; same, "{size}");
    }
    Ok(())
}

/// Opens a descriptor of caller 0 in both worlds. Returns whether their replies are the same.
fn open_both(
    alloc: Global,
    worlds: &mut (World, World),
    body: &[u8],
    replies: &mut Replies,
) -> Result<bool, Fail> {
    let mut frames = Vec::new(alloc);
    push_frame(&mut frames, 0, 0, 3, body)?;
    are_same(alloc, worlds, &frames, 1, replies)
}

/// Conversions that have room for much more than they write get the same replies, each time.
#[test]
fn room_to_spare_changes_no_reply(rt: HostRuntime) -> Result<(), Fail> {
    let alloc = rt.alloc();
    let mut worlds = (World::new(alloc), World::new(alloc));
    let mut replies = Replies::new(alloc);
    let opened = open_both(alloc, &mut worlds, b"\x08UTF-16LE\x05UTF-8", &mut replies)?;
    assert!(rt; opened);
    let mut body = Vec::new(alloc);
    body.extend_from_slice(b"\0\0\0\0\x00\x0F\x42\x40")?;
    body.resize(150_000, b'a')?;
    // The bad byte is after the first 1,024 bytes, which are converted first, so that room is cleared for the whole
    // text.
    if let Some(byte) = body.get_mut(1_500) {
        *byte = 0xFF;
    }
    let mut frames = Vec::new(alloc);
    push_frame(&mut frames, 0, 1, 4, &body)?;
    for turn in 0..3u32 {
        replies.clear();
        let same = are_same(alloc, &mut worlds, &frames, 1, &mut replies)?;
        assert!(rt; same, "{turn}");
    }
    Ok(())
}

/// A text whose rest needs much more room for each byte than its first 1,024 bytes, after another reply.
#[test]
fn rest_that_needs_more_than_the_front_says(rt: HostRuntime) -> Result<(), Fail> {
    let alloc = rt.alloc();
    let mut worlds = (World::new(alloc), World::new(alloc));
    let mut replies = Replies::new(alloc);
    let opened = open_both(alloc, &mut worlds, b"\x05UTF-7\x08UTF-16LE", &mut replies)?;
    assert!(rt; opened);
    let mut frames = Vec::new(alloc);
    push_frame(&mut frames, 0, 1, 8, b"part")?;
    let mut body = Vec::new(alloc);
    body.extend_from_slice(b"\0\0\0\0\x00\x0F\x42\x40")?;
    for _letter in 0..512u32 {
        body.extend_from_slice(b"a\0")?;
    }
    // Each U+4E2D is a shifted sequence of its own.
    for _pair in 0..6_000u32 {
        body.extend_from_slice(b"a\0\x2D\x4E")?;
    }
    push_frame(&mut frames, 0, 2, 4, &body)?;
    replies.clear();
    let same = are_same(alloc, &mut worlds, &frames, 2, &mut replies)?;
    assert!(rt; same);
    Ok(())
}
