//! Answers as bytes, and what is read from them.
use crate::asking::{PageResponse, read_response, request_for};
use crate::routes::Page;
use std::test::Fail;

/// An answer, and its status and text.
type Row = (&'static [u8], u16, &'static [u8]);

const WHOLE: [Row; 4] = [
    (
        b"HTTP/1.1 200 OK\r\ncontent-length: 3\r\n\r\nok\n",
        200,
        b"ok\n",
    ),
    (
        b"HTTP/1.1 503 Service Unavailable\r\nContent-Length: 5\r\nX: y\r\n\r\nfull\nmore",
        503,
        b"full\n",
    ),
    (b"HTTP/1.0 200 OK\r\n\r\nto the end", 200, b"to the end"),
    (b"HTTP/1.1 204 No Content\r\n\r\n", 204, b""),
];

const BROKEN: [&[u8]; 6] = [
    b"",
    b"HTTP/1.1 200 OK\r\ncontent-length: 3\r\n\r\nok",
    b"HTTP/1.1 200 OK\r\ncontent-length: 3\r\n",
    b"HTTP/1.1 200 OK\r\ncontent-length: 3\r\ncontent-length: 2\r\n\r\nok\n",
    b"HTTP/1.1 200 OK\r\ntransfer-encoding: chunked\r\n\r\n0\r\n\r\n",
    b"\x00\x00\x00\x0d\x00\x00\x00\x07\x00\x00\x00\x01\x00",
];

#[test]
fn an_answer_is_read(rt: HostRuntime) -> Result<(), Fail> {
    for (bytes, status, text) in WHOLE {
        let got = read_response(bytes);
        assert!(rt;
            got == Some(PageResponse { status, text }),
            "{}",
            bytes.escape_ascii()
        );
    }
    for bytes in BROKEN {
        assert!(rt; read_response(bytes).is_none(), "{}", bytes.escape_ascii());
    }
    Ok(())
}

#[test]
fn a_request_asks_for_its_page(rt: HostRuntime) -> Result<(), Fail> {
    let drain = request_for(Page::Drain);
    assert!(rt; drain.starts_with(b"POST /drain HTTP/1.1\r\n") && drain.ends_with(b"\r\n\r\n"));
    let health = request_for(Page::Health);
    assert!(rt; health.starts_with(b"GET /health HTTP/1.1\r\n"));
    Ok(())
}
