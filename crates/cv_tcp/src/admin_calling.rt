//! Asks for the admin pages of a server.
ghost use Rattle.std.specs.Prelude.{◌≡◌, ℕ, List, ◌++◌, IfOk, OnOk, OnErr};
ghost use Rattle.cv_tcp.specs.Admin.{AppendsAnswer};
ghost use Rattle.cv_tcp.specs.Admin as spec;

use crate::connecting::connect;
use crate::retrying::{Deadline, Retrying, TimeFrom};
use crate::timed::Timed;
use cv_admin::{Page, read_response, request_for};
use std::alloc::Global;
use std::io::{ErrorKind, Read, Write};
use std::net::{Net, TcpListener, TcpStream};
use std::time::{Clock, Duration};
use thiserror::Error;

/// How many bytes an answer may have.
const MOST_ANSWER: usize = 16 * 1024 * 1024;

/// How many bytes are read at a time.
const PIECE: usize = 4096;

/// Why a page was not obtained. Its text is the program's message.
#[derive(Clone, Copy, Debug, PartialEq, Eq, Error)]
pub enum AdminFault {
    /// No server listens at the address, or it is not an address.
    #[error("cannot connect")]
    CannotConnect,
    /// The server did not answer in time, or the clock cannot be read.
    #[error("no reply")]
    NoReply,
    /// A read failed, or what came is not an HTTP answer, is cut off, is chunked, or is longer than 16 MiB.
    #[error("bad reply")]
    BadReply,
    /// An allocation failed.
    #[error("out of memory")]
    Memory,
}

/// Whether a status says that all is well: 200 or 202.
fn agrees(status: u16) -> bool
    ensures { result ≡ spec.agrees status }
{
    status == 200 || status == 202
}

/// Appends all that comes until the other end closes the stream.
fn read_to_end<T: Read>(reader: &mut T, got: &mut Vec<u8>) -> Result<(), AdminFault> {
    let mut piece = [0; PIECE];
    for _read in 0..MOST_ANSWER {
        match reader.read(&mut piece) {
            Ok(0) => return Ok(()),
            Ok(count) => {
                if got.extend_from_slice(&piece[..count]).is_err() {
                    return Err(AdminFault::Memory);
                }
            }
            Err(failure) if failure.kind() == ErrorKind::WouldBlock => {
                return Err(AdminFault::NoReply);
            }
            Err(_) => return Err(AdminFault::BadReply),
        }
        if got.len() > MOST_ANSWER {
            return Err(AdminFault::BadReply);
        }
    }
    Err(AdminFault::BadReply)
}

/// Sends the request for a page over a stream, and returns all that comes back.
fn exchange<S: Read, T: Write>(
    alloc: Global,
    reader: &mut S,
    writer: &mut T,
    page: Page,
) -> Result<Vec<u8>, AdminFault> {
    // A server that refuses early stops reading, but still answers.
    let _ = writer.write_all(request_for(page));
    let mut got = Vec::new(alloc);
    read_to_end(reader, &mut got)?;
    Ok(got)
}

/// Appends the text of an answer, and returns whether its status is 200 or 202.
pub(crate) fn show_response(answer: &[u8], text: &mut Vec<u8>) -> Result<bool, AdminFault>
    ensures added { IfOk result (λ is_well. AppendsAnswer answer.now is_well text.old.items text.new.items) }
    ensures err { OnErr result (text.new.items ≡ text.old.items) }
{
    let Some(said) = read_response(answer) else {
        return Err(AdminFault::BadReply);
    };
    match text.extend_from_slice(said.text) {
        Ok(()) => Ok(agrees(said.status)),
        Err(_) => Err(AdminFault::Memory),
    }
}

/// Asks the server at an admin address for a page, appends the page's text to `text`, and returns whether the status is
/// 200 or 202. Reads and writes end `timeout` seconds after the call begins. Connecting may take `timeout` seconds, for
/// each address that a host name has. A fault leaves `text` as it is.
pub fn call_admin<R>(
    rt: &R,
    alloc: Global,
    address: &str,
    timeout: u32,
    page: Page,
    text: &mut Vec<u8>,
) -> Result<bool, AdminFault>
where
    R: Net<Listener = TcpListener, Stream = TcpStream> + Clock,
    ensures added { OnOk result ((more : List ℕ) × (text.new.items ≡ text.old.items ++ more)) }
    ensures err { OnErr result (text.new.items ≡ text.old.items) }
{
    let limit = Duration::from_secs(u64::from(timeout));
    let Some(deadline) = Deadline::new(rt, limit) else {
        return Err(AdminFault::NoReply);
    };
    let Ok(stream) = connect(rt, address, Some(limit)) else {
        return Err(AdminFault::CannotConnect);
    };
    let mut reader = Retrying::new(rt, Timed::new(rt, &stream, deadline), None, TimeFrom::Call);
    let mut writer = Retrying::new(rt, Timed::new(rt, &stream, deadline), None, TimeFrom::Call);
    let got = exchange(alloc, &mut reader, &mut writer, page)?;
    show_response(&got, text)
}
