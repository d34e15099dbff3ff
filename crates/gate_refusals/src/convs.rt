//! Conversions whose replies are appended. If there is no memory to double the buffer, there is for what is needed.

use crate::again::Trouble;
use crate::lines::add_count;
use cv_cache::Plain;
use cv_frame::ops::{CONV, OPEN};
use cv_frame::{MOST_BODY, Request};
use cv_world::{Replies, World};
use std::alloc::{AllocError, Global};

/// How many letters each CONV has.
const SIZES: [usize; 5] = [0, 40, 300, 3_000, 20_000];

/// A request with this body, or with as much of it as a frame holds.
fn request(op: u8, body: &[u8]) -> Request<'_> {
    Request {
        caller: 7,
        tag: 1,
        op,
        body: &body[..body.len().min(MOST_BODY)],
    }
}

/// A world in which a caller has a descriptor.
fn opened(alloc: Global) -> Result<World, Trouble> {
    let mut world = World::new(alloc);
    let open = request(OPEN, b"\x05UTF-8\x08US-ASCII");
    let mut replies = Replies::new(alloc);
    world.answer_into(&Plain, &(), alloc, &open, &mut replies)?;
    // The status OK.
    match replies.as_slice().get(12) {
        Some(0) => Ok(world),
        _ => Err(Trouble::Memory),
    }
}

/// The body of a CONV of `size` letters on descriptor 0.
fn body(alloc: Global, size: usize) -> Result<Vec<u8>, AllocError> {
    let mut body = Vec::from_slice(alloc, b"\0\0\0\0\0\x0f\0\0")?;
    body.resize(size.saturating_add(8), b'A')?;
    Ok(body)
}

/// Appends the reply to a CONV of `size` letters, which must not fail for memory.
fn convert(
    alloc: Global,
    world: &mut World,
    size: usize,
    replies: &mut Replies,
) -> Result<(), Trouble> {
    let body = body(alloc, size)?;
    let conv = request(CONV, &body);
    let told = world.answer_into(&Plain, &(), alloc, &conv, replies);
    told.map_err(|_| Trouble::Fault)
}

/// Returns the line with the size of all replies: each has 21 bytes besides its letters. A refusal would have 13.
pub fn tell(alloc: Global) -> Result<Vec<u8>, Trouble> {
    let mut world = opened(alloc)?;
    let mut replies = Replies::new(alloc);
    for size in SIZES {
        convert(alloc, &mut world, size, &mut replies)?;
    }
    let mut lines = Vec::new(alloc);
    add_count(alloc, &mut lines, "bytes", replies.as_slice().len())?;
    Ok(lines)
}
