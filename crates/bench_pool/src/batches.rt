//! The batches that are measured.

use cv_frame::ops::{BYE, CONV, OPEN, PUT};
use cv_frame::{MOST_BODY, Request};
use std::alloc::{AllocError, Global};
use std::fmt::{self, Display, Formatter, Write};

/// How many callers there are.
const CALLERS: u32 = 16;

/// The body of an OPEN from UTF-8 to UTF-16BE.
const TO_UTF16: &[u8] = b"\x08UTF-16BE\x05UTF-8";

/// A kind of batch.
#[derive(Clone, Copy, Debug)]
pub enum Kind {
    /// CONVs of 64 bytes.
    Small,
    /// CONVs of 64 KiB.
    Large,
    /// PUTs of 20,000 mappings.
    Uploads,
}

impl Display for Kind {
    fn fmt<W: Write>(&self, f: &mut Formatter<W>) -> fmt::Result {
        f.write_str(match self {
            Kind::Small => "64 CONVs of 64 bytes",
            Kind::Large => "64 CONVs of 64 KiB",
            Kind::Uploads => "16 PUTs of 20,000 mappings",
        })
    }
}

/// A request with this body, or with as much of it as a frame holds.
fn request(caller: u32, op: u8, body: &[u8]) -> Request<'_> {
    Request {
        caller,
        tag: 0,
        op,
        body: &body[..body.len().min(MOST_BODY)],
    }
}

/// The body of a CONV of `letters` Cyrillic letters, with exactly the room that they need.
fn conversion(alloc: Global, letters: u32) -> Result<Vec<u8>, AllocError> {
    let mut body = Vec::new(alloc);
    body.extend_from_slice(&[0; 4])?;
    body.extend_from_slice(&letters.saturating_mul(2).to_be_bytes())?;
    for _ in 0..letters {
        body.extend_from_slice("ж".as_bytes())?;
    }
    Ok(body)
}

/// The text of a charmap with this number, `?` and 20,000 mappings.
fn charmap(alloc: Global, number: u32) -> Result<Vec<u8>, AllocError> {
    let mut text = format!(in alloc;
        "<code_set_name> MAP{number}\n<mb_cur_max> 2\nCHARMAP\n<question-mark> \\x3F\n"
    )?;
    for k in 0..20_000u32 {
        let (character, first, second) = (0x4E00 + k, 0x81 + k / 256, k % 256);
        let line = format!(in alloc; "<U{character:04X}> \\x{first:02X}\\x{second:02X}\n")?;
        text.push_str(&line)?;
    }
    text.push_str("END CHARMAP\n")?;
    Ok(text.into_bytes())
}

/// Returns an OPEN of each caller.
pub fn opens(alloc: Global) -> Result<Vec<Request<'static>>, AllocError> {
    let mut requests = Vec::new(alloc);
    for caller in 0..CALLERS {
        requests.push(request(caller, OPEN, TO_UTF16))?;
    }
    Ok(requests)
}

/// Returns a BYE of each caller.
pub fn byes(alloc: Global) -> Result<Vec<Request<'static>>, AllocError> {
    let mut requests = Vec::new(alloc);
    for caller in 0..CALLERS {
        requests.push(request(caller, BYE, b""))?;
    }
    Ok(requests)
}

impl Kind {
    /// Returns the bodies that requests of this kind have in turn.
    pub fn bodies(self, alloc: Global) -> Result<Vec<Vec<u8>>, AllocError> {
        let mut bodies = Vec::new(alloc);
        match self {
            Kind::Small => bodies.push(conversion(alloc, 32)?)?,
            Kind::Large => bodies.push(conversion(alloc, 32_768)?)?,
            Kind::Uploads => {
                for number in 0..CALLERS {
                    bodies.push(charmap(alloc, number)?)?;
                }
            }
        }
        Ok(bodies)
    }

    /// Returns a batch of this kind, with requests of the callers in turn.
    pub fn requests(
        self,
        alloc: Global,
        bodies: &[Vec<u8>],
    ) -> Result<Vec<Request<'_>>, AllocError> {
        let (op, count) = match self {
            Kind::Small | Kind::Large => (CONV, 64),
            Kind::Uploads => (PUT, CALLERS),
        };
        let mut requests = Vec::new(alloc);
        for number in 0..count {
            let body = bodies.get(number as usize % bodies.len().max(1));
            let body = body.map_or(b"".as_slice(), |body| body.as_slice());
            requests.push(request(number % CALLERS, op, body))?;
        }
        Ok(requests)
    }
}
