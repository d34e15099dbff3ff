//! Writing frames. Each is appended to a buffer that has bytes already. If a failed call left bytes in the buffer, they
//! would be printed.

use crate::again::{Trouble, say_lacking};
use crate::lines::add_bytes;
use cv_base::{Piece, Policy};
use cv_frame::{Ask, Bytes, Reply, Status, write_reply, write_request};
use std::alloc::Global;

fn tell_reply<R: Eprint>(rt: &R, alloc: Global, lines: &mut Vec<u8>) -> Result<(), Trouble> {
    let tail = Bytes::of(Vec::from_slice(alloc, b"A?B")?);
    let reply = Reply::new(7, 1, Status::Ok, Piece::new(), tail);
    let mut frames = Vec::from_slice(alloc, b"before")?;
    again!(rt, "write_reply", write_reply(&mut frames, &reply))?;
    add_bytes(alloc, lines, "write_reply", &frames)?;
    Ok(())
}

fn tell_request<R: Eprint>(rt: &R, alloc: Global, lines: &mut Vec<u8>) -> Result<(), Trouble> {
    let open = Ask::Open {
        to: b"UTF-16",
        from: b"UTF-8",
        policy: Policy::Strict,
    };
    let mut frames = Vec::from_slice(alloc, b"before")?;
    again!(rt, "write_request", write_request(&mut frames, 7, 2, &open))?;
    add_bytes(alloc, lines, "write_request", &frames)?;
    Ok(())
}

/// Returns the lines with the frames of a reply and of a request.
pub fn tell<R: Eprint>(rt: &R, alloc: Global) -> Result<Vec<u8>, Trouble> {
    let mut lines = Vec::new(alloc);
    tell_reply(rt, alloc, &mut lines)?;
    tell_request(rt, alloc, &mut lines)?;
    Ok(lines)
}
