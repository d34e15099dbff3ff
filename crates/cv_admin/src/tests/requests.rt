//! Requests as bytes, and their answers as bytes.
use super::server::Still;
use crate::operated::Health;
use crate::serving::serve_client;
use std::hash::RandomState;
use std::io::{self, Read};
use std::sync::atomic::Ordering;
use std::test::Fail;

/// A reader that gives at most `step` bytes at a time.
#[derive(Drop)]
struct Slow<'a> {
    left: &'a [u8],
    step: usize,
}

impl Read for Slow<'_> {
    fn read(&mut self, buf: &mut [u8]) -> io::Result<usize> {
        let count = buf.len().min(self.step).min(self.left.len());
        buf[..count].copy_from_slice(&self.left[..count]);
        self.left = &self.left[count..];
        Ok(count)
    }
}

/// What a server answers to these bytes, which come in reads of at most `step` bytes.
fn answer(rt: &HostRuntime, server: &Still, sent: &[u8], step: usize) -> Result<Vec<u8>, Fail> {
    let mut answered = Vec::new(rt.alloc());
    let mut reader = Slow { left: sent, step };
    let keys = RandomState::new(rt)?;
    serve_client(rt.alloc(), keys, server, &mut reader, &mut answered)?;
    Ok(answered)
}

/// A request, and its whole answer or its status.
type Row = (&'static [u8], &'static [u8]);

const PAGES: [Row; 8] = [
    (
        b"GET /health HTTP/1.1\r\nHost: h\r\n\r\n",
        b"HTTP/1.1 200 OK\r\ncontent-type: text/plain; charset=utf-8\r\n\
        connection: close\r\ncontent-length: 3\r\n\r\nok\n",
    ),
    (
        b"HEAD /health HTTP/1.1\r\nHost: h\r\n\r\n",
        b"HTTP/1.1 200 OK\r\ncontent-type: text/plain; charset=utf-8\r\nconnection: close\r\ncontent-length: 3\r\n\r\n",
    ),
    (
        b"GET /metrics?a=b HTTP/1.1\r\nHost: h\r\n\r\n",
        b"HTTP/1.1 200 OK\r\ncontent-type: text/plain; version=0.0.4; charset=utf-8\r\nconnection: close\r\n\
        content-length: 16\r\n\r\niconvd_places 4\n",
    ),
    (
        b"GET /streams HTTP/1.0\r\n\r\n",
        b"HTTP/1.0 200 OK\r\ncontent-type: application/json\r\nconnection: close\r\ncontent-length: 2\r\n\r\n[]",
    ),
    (
        b"GET / HTTP/1.1\r\nHost: h\r\n\r\n",
        b"HTTP/1.1 404 Not Found\r\ncontent-type: text/plain; charset=utf-8\r\nconnection: close\r\n\
        content-length: 10\r\n\r\nnot found\n",
    ),
    (
        b"PUT /streams HTTP/1.1\r\nHost: h\r\nContent-Length: 2\r\n\r\nhi",
        b"HTTP/1.1 405 Method Not Allowed\r\ncontent-type: text/plain; charset=utf-8\r\nconnection: close\r\n\
        allow: GET, HEAD\r\ncontent-length: 19\r\n\r\nmethod not allowed\n",
    ),
    (
        b"GET /drain HTTP/1.1\r\nHost: h\r\n\r\n",
        b"HTTP/1.1 405 Method Not Allowed\r\ncontent-type: text/plain; charset=utf-8\r\nconnection: close\r\n\
        allow: POST\r\ncontent-length: 19\r\n\r\nmethod not allowed\n",
    ),
    (
        b"GET /health HTTP/1.1\r\nHost: h\r\n\r\nGET /metrics HTTP/1.1\r\nHost: h\r\n\r\n",
        b"HTTP/1.1 200 OK\r\ncontent-type: text/plain; charset=utf-8\r\n\
        connection: close\r\ncontent-length: 3\r\n\r\nok\n",
    ),
];

#[test]
fn each_page_is_answered(rt: HostRuntime) -> Result<(), Fail> {
    let server = Still::new(Health::Free);
    for (sent, want) in PAGES {
        for step in [1, 7, 4096] {
            let got = answer(&rt, &server, sent, step)?;
            assert!(rt; got.as_slice() == want, "{}", sent.escape_ascii());
        }
    }
    assert_eq!(rt; server.drains.load(Ordering::SeqCst), 0);
    Ok(())
}

#[test]
fn health_says_that_no_place_is_free(rt: HostRuntime) -> Result<(), Fail> {
    let sent = b"GET /health HTTP/1.1\r\nHost: h\r\n\r\n";
    for (health, text) in [
        (Health::Full, b"full\n".as_slice()),
        (Health::Draining, b"draining\n".as_slice()),
    ] {
        let got = answer(&rt, &Still::new(health), sent, 4096)?;
        assert!(rt; got.starts_with(b"HTTP/1.1 503 Service Unavailable\r\n"));
        assert!(rt; got.ends_with(text));
    }
    Ok(())
}

#[test]
fn drain_drains(rt: HostRuntime) -> Result<(), Fail> {
    let server = Still::new(Health::Free);
    let chunked =
        b"POST /drain HTTP/1.1\r\nHost: h\r\nTransfer-Encoding: chunked\r\n\r\n2\r\nhi\r\n0\r\n\r\n";
    let plain = b"POST /drain HTTP/1.1\r\nHost: h\r\n\r\n";
    for sent in [chunked.as_slice(), plain.as_slice()] {
        let got = answer(&rt, &server, sent, 4096)?;
        assert!(rt;
            got.starts_with(b"HTTP/1.1 202 Accepted\r\n") && got.ends_with(b"\r\n\r\ndraining\n")
        );
    }
    assert_eq!(rt; server.drains.load(Ordering::SeqCst), 2);
    Ok(())
}

/// Bytes that are not a request, or one that is too large or not supported, and the status of the answer.
const REFUSED: [Row; 6] = [
    (b"GET /health HTTP/1.1\r\n\r\n", b"400"),
    (b"\x00\x00\x00\x1d\x00\x00\x00\x07\r\n\r\n", b"400"),
    (b"GET /health", b"400"),
    (b"GET /health HTTP/1.1\r\nHost: h h\r\n\r\n", b"400"),
    (
        b"POST /drain HTTP/1.1\r\nHost: h\r\nContent-Length: 1025\r\n\r\n",
        b"413",
    ),
    (
        b"GET /health HTTP/1.1\r\nHost: h\r\nTransfer-Encoding: gzip, chunked\r\n\r\n",
        b"501",
    ),
];

#[test]
fn what_is_no_request_is_refused(rt: HostRuntime) -> Result<(), Fail> {
    let server = Still::new(Health::Free);
    for (sent, status) in REFUSED {
        let got = answer(&rt, &server, sent, 4096)?;
        let has_status = got.len() > 12 && &got[9..12] == status;
        assert!(rt; has_status, "{}", sent.escape_ascii());
    }
    assert_eq!(rt; server.drains.load(Ordering::SeqCst), 0);
    Ok(())
}

#[test]
fn a_huge_head_is_refused(rt: HostRuntime) -> Result<(), Fail> {
    let server = Still::new(Health::Free);
    let mut field = b"GET /health HTTP/1.1\r\nHost: h\r\nX: ".to_vec(rt.alloc())?;
    field.resize(100_000, b'x')?;
    let mut target = b"GET /".to_vec(rt.alloc())?;
    target.resize(100_000, b'x')?;
    let got = answer(&rt, &server, &field, 4096)?;
    assert!(rt; got.starts_with(b"HTTP/1.1 431 "));
    let got = answer(&rt, &server, &target, 4096)?;
    assert!(rt; got.starts_with(b"HTTP/1.1 414 "));
    Ok(())
}
