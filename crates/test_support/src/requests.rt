//! Requests as engines take them, and their frames.
use cv_frame::{MOST_BODY, Request};
use std::alloc::AllocError;

/// The status of a reply to a request that succeeded. It is at the offset of the frame at which a request has its op.
pub const OK: u8 = 0;

/// Returns a request with this body, or with as much of it as a frame holds.
pub fn request(caller: u32, tag: u32, op: u8, body: &[u8]) -> Request<'_> {
    Request {
        caller,
        tag,
        op,
        body: &body[..body.len().min(MOST_BODY)],
    }
}

/// Appends the frame of a request with this body, or with as much of it as a frame holds.
pub fn push_frame(
    stream: &mut Vec<u8>,
    caller: u32,
    tag: u32,
    op: u8,
    body: &[u8],
) -> Result<(), AllocError> {
    let body = &body[..body.len().min(MOST_BODY)];
    let length = body.len() as u32 + 9;
    stream.extend_from_slice(&length.to_be_bytes())?;
    stream.extend_from_slice(&caller.to_be_bytes())?;
    stream.extend_from_slice(&tag.to_be_bytes())?;
    stream.push(op)?;
    stream.extend_from_slice(body)
}
