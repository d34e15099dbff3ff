//! Counts streams over sockets.
use super::kept::Kept;
use super::{OPEN, OPENED, alone, bound, connected, gives};
use crate::connection::Connection;
use crate::counters::Counters;
use crate::one_stream::{Counting, serve_counted};
use cv_cache::{Cached, HashKeys};
use cv_metrics::Told;
use cv_pool::keep_memory;
use std::alloc::Global;
use std::io::Write;
use std::net::{Net, Shutdown, TcpListener, TcpStream};
use std::process::Abort;
use std::sync::Wait;
use std::test::Fail;
use std::thread::Threads;
use std::time::Clock;

/// Example values of what the board does not count.
const TOLD: Told<'static> = Told {
    version: "1",
    start_time: 0,
    places: 1,
    cache_charmaps: 0,
    cache_bytes: 0,
    cache_hits: 0,
    cache_misses: 0,
    stream_memory_limit: None,
    is_draining: false,
    log_lines_dropped: 0,
};

/// Whether a page has a line.
fn has_line(text: &String, line: &str) -> bool {
    text.as_str().lines().any(|there| there == line)
}

/// Serves a client that sends `OPEN` and these bytes, and ends.
fn serve_one<R>(rt: &R, counters: &Counters, more: &[u8]) -> Result<(), Fail>
where
    R: Net<Listener = TcpListener, Stream = TcpStream>
        + AllocGlobal
        + Abort
        + Threads
        + Wait
        + Clock
        + Sync,
{
    let alloc = rt.alloc();
    let (listener, address) = bound(rt)?;
    let mut client = connected(rt, address)?;
    client.write_all(OPEN)?;
    client.write_all(more)?;
    client.shutdown(Shutdown::Write)?;
    let (stream, _peer) = listener.accept()?;
    let stream = Connection::Tcp(stream);
    let log = Kept::new(rt);
    let cached = Cached::with_keys(alloc, HashKeys::known())?;
    let counting = Counting {
        log: &log,
        counters,
        slot: counters.board().slot(0).ok_or("no slot")?,
    };
    let ended = serve_counted(rt, alloc, &cached, &stream, alone(), &counting);
    assert_eq!(rt; ended.requests, 1);
    assert_eq!(rt; ended.read, 33 + more.len() as u64);
    drop(stream);
    assert!(rt; gives(client, OPENED)?);
    Ok(())
}

#[test]
fn streams_are_counted(rt: HostRuntime) -> Result<(), Fail> {
    let alloc = rt.alloc();
    let counters = Counters::new(&rt, alloc, 1, "1")?;
    serve_one(&rt, &counters, b"")?;
    serve_one(&rt, &counters, b"\0\0\0\x08")?;
    serve_one(&rt, &counters, b"\0\0\0")?;
    let text = counters.board().metrics(&rt, alloc, &TOLD)?;
    for line in [
        "iconvd_streams_total 3",
        "iconvd_streams_active 0",
        "iconvd_streams_ended_total{cause=\"client\"} 1",
        "iconvd_streams_ended_total{cause=\"fault\"} 2",
        "iconvd_faults_total{kind=\"bad_length\"} 1",
        "iconvd_faults_total{kind=\"truncated_frame\"} 1",
        "iconvd_requests_total{op=\"open\",status=\"OK\"} 3",
        "iconvd_received_bytes_total 106",
        "iconvd_sent_bytes_total 51",
    ] {
        assert!(&rt; has_line(&text, line), "{line}");
    }
    Ok(())
}
