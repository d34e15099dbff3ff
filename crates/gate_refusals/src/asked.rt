//! The requests of two callers.

use crate::texts::{HEAD, REST, WHOLE, long};
use cv_frame::ops::{BYE, CLOSE, CONV, DROP, OPEN, PART, PUT, RESET};
use cv_frame::{MOST_BODY, Request};
use std::alloc::{AllocError, Global};

/// The texts of two uploads.
#[derive(Drop)]
pub struct Texts {
    rest: Vec<u8>,
    whole: Vec<u8>,
}

impl Texts {
    pub fn new(alloc: Global) -> Result<Texts, AllocError> {
        Ok(Texts {
            rest: long(alloc, REST)?,
            whole: long(alloc, WHOLE)?,
        })
    }
}

/// A request with this body, or with as much of it as a frame holds.
fn request(caller: u32, tag: u32, op: u8, body: &[u8]) -> Request<'_> {
    Request {
        caller,
        tag,
        op,
        body: &body[..body.len().min(MOST_BODY)],
    }
}

/// Returns the requests of two callers in turn, so that no request depends on the one before it.
pub fn requests(alloc: Global, texts: &Texts) -> Result<Vec<Request<'_>>, AllocError> {
    let asked: [(u8, &[u8]); 16] = [
        (PART, HEAD),
        (OPEN, b"\x05UTF-7\x05UTF-8"),
        (PUT, &texts.rest),
        (PUT, &texts.whole),
        (OPEN, b"\x05UTF-8\x03TOY"),
        (OPEN, b"\x05OTHER\x08UTF-16BE"),
        (
            CONV,
            b"\x00\x00\x00\x00\x00\x00\x00\x09\x80\x31\x81\x40\x41",
        ),
        (CONV, b"\x00\x00\x00\x01\x00\x00\x00\x09\x01\x42\x00\x41"),
        (RESET, b"\x00\x00\x00\x00\x00\x00\x00\x09"),
        (CONV, b"\x00\x00\x00\x00\x00\x00\x00\x09A\xc3\xa9"),
        (CLOSE, b"\x00\x00\x00\x00"),
        (RESET, b"\x00\x00\x00\x00\x00\x00\x00\x09"),
        (DROP, b"\x03TOY"),
        (BYE, b""),
        (PUT, WHOLE),
        (PUT, b"no charmap"),
    ];
    let mut requests = Vec::new(alloc);
    for (place, (op, body)) in asked.iter().enumerate() {
        let place = place as u32;
        requests.push(request(place % 2, place, *op, body))?;
    }
    Ok(requests)
}
