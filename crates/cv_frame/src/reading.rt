//! Reads frames.

ghost use Rattle.std.specs.Prelude.{◌≡◌, ◌≤◌, length};
ghost use Rattle.cv_frame.specs.Cut.{front_of, front_of_reply, u32_at};

use crate::request::Request;
use crate::sizes::{LEAST_LENGTH, MOST_LENGTH};

/// What bytes from a client begin with.
#[derive(Debug, Drop)]
pub enum Frame<'a> {
    /// A request, and how many bytes its whole frame has.
    Whole { request: Request<'a>, n: usize },
    /// Less than a frame: more bytes may make it whole.
    Partial,
    /// A length that no frame has: below 9 or above 1,048,576. No bytes that follow can correct it.
    Bad { length: u32 },
}

/// What bytes from the service begin with.
#[derive(Debug, Drop)]
pub enum ReplyFrame<'a> {
    /// A reply, and how many bytes its whole frame has. The status is as it came, known or not.
    Whole {
        caller: u32,
        tag: u32,
        status: u8,
        body: &'a [u8],
        n: usize,
    },
    /// Less than a frame: more bytes may make it whole.
    Partial,
    /// A length that no frame has: below 9 or above 1,048,576. No bytes that follow can correct it.
    Bad {
        length: u32,
    },
}

/// Returns the big-endian number in the first four bytes.
pub(crate) fn number(bytes: &[u8]) -> u32
    requires { 4 ≤ length bytes.now }
    ensures { result ≡ u32_at bytes.now }
{
    u32::from_be_bytes([bytes[0], bytes[1], bytes[2], bytes[3]])
}

/// Returns what the bytes begin with: a request, a part of its frame, or a bad length. Nothing is copied.
#[tactic(auto, unfolding(crate::specs::Cut::front_of))]
pub fn next_request(bytes: &[u8]) -> Frame<'_>
    ensures { result ≡ front_of bytes.now }
{
    if bytes.len() < 4 {
        return Frame::Partial;
    }
    let length = number(bytes);
    if length < LEAST_LENGTH || length > MOST_LENGTH {
        return Frame::Bad { length };
    }
    let n = 4 + length as usize;
    if bytes.len() < n {
        return Frame::Partial;
    }
    let request = Request {
        caller: number(&bytes[4..]),
        tag: number(&bytes[8..]),
        op: bytes[12],
        body: &bytes[13..n],
    };
    Frame::Whole { request, n }
}

/// Returns what the bytes begin with: a reply, a part of its frame, or a bad length. A reply's frame has the status in
/// the place of the op. Nothing is copied.
pub fn next_reply(bytes: &[u8]) -> ReplyFrame<'_>
    ensures { front_of_reply result ≡ front_of bytes.now }
{
    match next_request(bytes) {
        Frame::Whole { request, n } => ReplyFrame::Whole {
            caller: request.caller,
            tag: request.tag,
            status: request.op,
            body: request.body,
            n,
        },
        Frame::Partial => ReplyFrame::Partial,
        Frame::Bad { length } => ReplyFrame::Bad { length },
    }
}
