//! Serves one client of the pages.

use crate::operated::Operated;
use crate::pages::AdminService;
use http_server::{Config, Connection, serve};
use http1::Limits;
use std::alloc::Global;
use std::hash::RandomState;
use std::io::{self, Read, Write};

/// How many bytes the body of a request may have. No page reads a body.
pub const MOST_REQUEST_BODY: usize = 1024;

/// How many bytes each read asks for, and how many may wait to be sent before more is read.
const STEP: usize = 1024;

/// The limits of a connection. Those of a head are the defaults of `http1`.
fn limits() -> Config {
    Config {
        limits: Limits::default(),
        max_body_len: MOST_REQUEST_BODY,
        max_pending: STEP,
        read_size: STEP,
    }
}

/// Reads one request, answers it and returns: a connection serves one request. Bytes that are not a request get the
/// refusal of `http_server`. An error is the reader's, the writer's, or a failed allocation. The client then got no
/// answer, or only a part of it.
pub fn serve_client<O: Operated, R: Read, W: Write>(
    alloc: Global,
    keys: RandomState,
    operated: &O,
    reader: &mut R,
    writer: &mut W,
) -> io::Result<()> {
    let mut connection = Connection::new(alloc, keys, limits());
    let mut service = AdminService::new(alloc, operated);
    serve(&mut connection, &mut service, reader, writer)
}
