//! Drains.
ghost use Rattle.std.specs.Prelude.{◌≡◌};

use super::kept::{Desk, Kept};
use super::{OPEN, bound, connected, lines_about, terms};
use crate::draining::Draining;
use crate::inherited::Inherited;
use crate::inlet::{Bound, Listener};
use crate::listened::Listened;
use crate::listening::listen_until_drained;
use crate::operation::Operation;
use crate::site::{Site, listen_tcp};
use crate::streams::{Service, serve_until_drained};
use crate::terms::Terms;
use cv_admin::Health;
use std::io::{self, Read, Write};
use std::net::{Net, SocketAddr, TcpListener, TcpStream};
use std::os::fd::AsRawFd;
use std::sync::{Arc, Wait};
use std::test::Fail;
use std::thread;
use std::time::{Clock, Duration, Instant};

/// Terms by which a drain is over after two seconds.
fn hurried() -> Terms
    ensures at_once { result.at_once ≡ 2 }
    ensures workers { result.workers ≡ 1 }
{
    Terms {
        drain: 2,
        ..terms(9, 2)
    }
}

/// A stream over which one request was sent and answered.
fn opened<N>(rt: &N, address: SocketAddr) -> io::Result<TcpStream>
where
    N: Net<Listener = TcpListener, Stream = TcpStream>,
{
    let stream = connected(rt, address)?;
    asks(&stream)?;
    Ok(stream)
}

/// A request: the BYE of caller 7.
const BYE: &[u8] = b"\0\0\0\x09\0\0\0\x07\0\0\0\x01\x07";

/// The reply to `BYE`: OK.
const GONE: &[u8] = b"\0\0\0\x09\0\0\0\x07\0\0\0\x01\0";

/// Whether a request gets its reply.
fn asks(stream: &TcpStream) -> io::Result<bool> {
    let mut stream = stream;
    stream.write_all(BYE)?;
    let mut got = [0; 13];
    stream.read_exact(&mut got)?;
    Ok(got.as_slice() == GONE)
}

/// Whether a stream ends with no more bytes.
fn has_ended(stream: &TcpStream) -> io::Result<bool> {
    let mut stream = stream;
    let mut got = [0; 1];
    Ok(stream.read(&mut got)? == 0)
}

/// A silent stream, one that asks while it is drained, and one within a frame.
fn drained_clients<R>(rt: &R, address: SocketAddr, operation: &Operation) -> io::Result<bool>
where
    R: Net<Listener = TcpListener, Stream = TcpStream> + Wait + Clock,
{
    let silent = opened(rt, address)?;
    let busy = opened(rt, address)?;
    let half = opened(rt, address)?;
    let mut half_there = &half;
    half_there.write_all(&OPEN[..9])?;
    let was_free = operation.health(rt) == Health::Free;
    operation.drain(rt);
    operation.drain(rt);
    let is_draining = operation.health(rt) == Health::Draining;
    let mut are_answered = true;
    for _request in 0..8 {
        thread::sleep(rt, Duration::from_millis(200));
        are_answered = asks(&busy)? && are_answered;
    }
    let have_ended = has_ended(&silent)? && has_ended(&busy)? && has_ended(&half)?;
    Ok(was_free && is_draining && are_answered && have_ended)
}

#[test]
fn a_drain_ends_streams_that_are_silent(rt: HostRuntime) -> Result<(), Fail> {
    let alloc = rt.alloc();
    let (listener, address) = bound(&rt)?;
    let desk = Desk {
        rt: &rt,
        listener,
        output: Kept::new(&rt),
    };
    let log = Kept::new(&rt);
    let operation = Arc::new(alloc, Operation::with_drain(&terms(u64::MAX, 4)))?;
    let asked = Arc::try_clone(&operation)?;
    let (rt, desk, log_there) = (&rt, &desk, &log);
    let (listened, answered) = thread::join(
        rt,
        move || {
            let admin = None;
            let site = Site {
                rt: desk,
                alloc,
                log: log_there,
                terms: terms(u64::MAX, 4),
                operation: &operation,
                admin: &admin,
            };
            listen_tcp(&site, "127.0.0.1:1")
        },
        move || drained_clients(rt, address, &asked),
    );
    assert_eq!(rt; listened, Ok(Listened::Drained { streams: 3, cut: 1 }));
    assert!(rt; answered?);
    let said = log.into_bytes();
    assert_eq!(rt;
        lines_about(&said, "INFO stream from ", ": drained, after 1 request"),
        1
    );
    assert_eq!(rt;
        lines_about(&said, "INFO stream from ", ": drained, after 9 requests"),
        1
    );
    assert_eq!(rt;
        lines_about(
            &said,
            "ERROR stream from ",
            ": cut by a drain, after 1 request"
        ),
        1
    );
    Ok(())
}

/// A client that asks again and again until its stream is ended. Its last request may get no reply.
fn restless_client<R>(rt: &R, address: SocketAddr, operation: &Operation) -> io::Result<bool>
where
    R: Net<Listener = TcpListener, Stream = TcpStream> + Wait + Clock,
{
    let stream = opened(rt, address)?;
    operation.drain(rt);
    for _request in 0..100 {
        thread::sleep(rt, Duration::from_millis(100));
        if !asks(&stream).unwrap_or(false) {
            return Ok(true);
        }
    }
    Ok(false)
}

#[test]
fn the_end_of_a_drain_cuts_a_busy_stream(rt: HostRuntime) -> Result<(), Fail> {
    let (listener, address) = bound(&rt)?;
    let log = Kept::new(&rt);
    let inlet = Inherited::new(u16::try_from(listener.as_raw_fd()).map_err(|_| "number")?)?;
    let operation = Arc::new(rt.alloc(), Operation::with_drain(&hurried()))?;
    let asked = Arc::try_clone(&operation)?;
    let start = Instant::now(&rt)?;
    let (rt, log_there, inlet) = (&rt, &log, &inlet);
    let (served, was_cut) = thread::join(
        rt,
        move || {
            let admin = None;
            let service = Service {
                rt,
                alloc: rt.alloc(),
                log: log_there,
                inlet,
                terms: hurried(),
                operation: &operation,
                admin: &admin,
            };
            serve_until_drained(&service)
        },
        move || restless_client(rt, address, &asked),
    );
    let lasted = start.elapsed(rt)?;
    assert_eq!(rt; served, Ok(Listened::Drained { streams: 1, cut: 1 }));
    assert!(rt; was_cut?);
    assert!(rt; lasted >= Duration::from_secs(2));
    let said = log.into_bytes();
    assert_eq!(rt; lines_about(&said, "ERROR stream from ", " requests"), 1);
    let cut = b": cut by a drain, after ".as_slice();
    assert!(rt; said.windows(cut.len()).any(|part| part == cut));
    // The listener was not shut.
    drop(connected(rt, address)?);
    listener.accept()?;
    Ok(())
}

/// A client that reads none of its replies.
fn stalled_client<R>(
    rt: &R,
    address: SocketAddr,
    operation: &Operation,
    much: &[u8],
) -> io::Result<()>
where
    R: Net<Listener = TcpListener, Stream = TcpStream> + Wait + Clock,
{
    let mut stream = connected(rt, address)?;
    stream.set_write_timeout(Some(Duration::from_secs(1)))?;
    // The write ends when the server reads no more.
    let _ = stream.write_all(much);
    operation.drain(rt);
    // The client stays until the server has ended its stream.
    for _look in 0..1_000 {
        if operation.streams(rt) == 0 {
            break;
        }
        thread::sleep(rt, Duration::from_millis(50));
    }
    Ok(())
}

#[test]
fn the_end_of_a_drain_cuts_a_write_that_waits(rt: HostRuntime) -> Result<(), Fail> {
    let (listener, address) = bound(&rt)?;
    let log = Kept::new(&rt);
    let much = super::many::much_to_answer(rt.alloc())?;
    let inlet = Bound::new(Listener::Tcp(listener))?;
    let operation = Arc::new(rt.alloc(), Operation::with_drain(&hurried()))?;
    operation.set_door(&rt, inlet.door()?);
    let asked = Arc::try_clone(&operation)?;
    let (rt, log_there, inlet, much) = (&rt, &log, &inlet, much.as_slice());
    let (served, client) = thread::join(
        rt,
        move || {
            let admin = None;
            let service = Service {
                rt,
                alloc: rt.alloc(),
                log: log_there,
                inlet,
                terms: hurried(),
                operation: &operation,
                admin: &admin,
            };
            serve_until_drained(&service)
        },
        move || stalled_client(rt, address, &asked, much),
    );
    client?;
    assert_eq!(rt; served, Ok(Listened::Drained { streams: 1, cut: 1 }));
    Ok(())
}

#[test]
fn an_operation_without_a_drain_goes_on(rt: HostRuntime) -> Result<(), Fail> {
    let terms = terms(1, 1);
    let operation = Operation::new(&terms);
    operation.drain(&rt);
    assert_eq!(rt; operation.health(&rt), Health::Free);
    let operation = Operation::with_drain(&terms);
    assert_eq!(rt; operation.health(&rt), Health::Free);
    operation.drain(&rt);
    assert_eq!(rt; operation.health(&rt), Health::Draining);
    let log = Kept::new(&rt);
    let alloc = rt.alloc();
    let listened = listen_until_drained(&rt, alloc, &log, "127.0.0.1:0", terms, &operation);
    assert_eq!(rt; listened, Ok(Listened::Drained { streams: 0, cut: 0 }));
    let said = log.into_bytes();
    assert_eq!(rt;
        lines_about(&said, "ERROR drained in ", " s: 0 served, 0 cut"),
        1
    );
    Ok(())
}

#[test]
fn a_drain_is_over_after_its_time(rt: HostRuntime) -> Result<(), Fail> {
    let long = Draining::new(3_600);
    let short = Draining::new(0);
    assert!(rt; !long.is_over(&rt) && !short.is_over(&rt) && short.started().is_none());
    long.begin(&rt);
    short.begin(&rt);
    assert!(rt; !long.is_over(&rt) && short.is_over(&rt) && short.started().is_some());
    Ok(())
}
