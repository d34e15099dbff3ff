//! Many streams at once.
use super::kept::Kept;
use super::{
    OPEN, OPENED, alone, bound, connected, gives, is_served, lines_about, lines_like, terms,
};
use crate::connection::Connection;
use crate::inlet::{Bound, Listener};
use crate::listened::Listened;
use crate::one_stream::serve_connection;
use crate::operation::Operation;
use crate::streams::{Service, serve_until_drained};
use cv_cache::Cached;
use cv_commands::ask_script;
use std::alloc::Global;
use std::io::{self, Read, Write};
use std::net::{Net, Shutdown, SocketAddr, TcpListener, TcpStream};
use std::test::Fail;
use std::thread;

/// Three streams at the same time, each answered while the others go on. A fourth waits for its turn.
fn four_clients<N>(rt: &N, address: SocketAddr) -> io::Result<bool>
where
    N: Net<Listener = TcpListener, Stream = TcpStream>,
{
    let mut streams = [
        connected(rt, address)?,
        connected(rt, address)?,
        connected(rt, address)?,
    ];
    for stream in &mut streams {
        stream.write_all(OPEN)?;
        let mut got = [0; 17];
        stream.read_exact(&mut got)?;
        if got.as_slice() != OPENED {
            return Ok(false);
        }
    }
    let mut fourth = connected(rt, address)?;
    fourth.write_all(OPEN)?;
    fourth.shutdown(Shutdown::Write)?;
    drop(streams);
    gives(fourth, OPENED)
}

#[test]
fn streams_are_served_at_once(rt: HostRuntime) -> Result<(), Fail> {
    let (listener, address) = bound(&rt)?;
    let log = Kept::new(&rt);
    let inlet = Bound::new(Listener::Tcp(listener))?;
    let (rt, log_there, inlet) = (&rt, &log, &inlet);
    let (served, answered) = thread::join(
        rt,
        move || {
            let terms = terms(4, 3);
            let operation = Operation::new(&terms);
            let admin = None;
            let service = Service {
                rt,
                alloc: rt.alloc(),
                log: log_there,
                inlet,
                terms,
                operation: &operation,
                admin: &admin,
            };
            serve_until_drained(&service)
        },
        move || four_clients(rt, address),
    );
    assert_eq!(rt; served, Ok(Listened::Served { streams: 4 }));
    assert!(rt; answered?);
    assert_eq!(rt; lines_like(&log.into_bytes(), "INFO client ended"), 4);
    Ok(())
}

/// Serves `clients` clients one after the other, and returns how many got their reply.
fn served_in_turn<N>(rt: &N, address: SocketAddr, clients: u64) -> io::Result<u64>
where
    N: Net<Listener = TcpListener, Stream = TcpStream>,
{
    let mut served: u64 = 0;
    for _client in 0..clients {
        if is_served(rt, address)? {
            served = served.saturating_add(1);
        }
    }
    Ok(served)
}

#[test]
fn it_ends_after_the_last_stream(rt: HostRuntime) -> Result<(), Fail> {
    let (listener, address) = bound(&rt)?;
    let log = Kept::new(&rt);
    let inlet = Bound::new(Listener::Tcp(listener))?;
    let (rt, log_there, inlet) = (&rt, &log, &inlet);
    let (served, answered) = thread::join(
        rt,
        move || {
            let terms = terms(50, 8);
            let operation = Operation::new(&terms);
            let admin = None;
            let service = Service {
                rt,
                alloc: rt.alloc(),
                log: log_there,
                inlet,
                terms,
                operation: &operation,
                admin: &admin,
            };
            serve_until_drained(&service)
        },
        move || served_in_turn(rt, address, 50),
    );
    assert_eq!(rt; served, Ok(Listened::Served { streams: 50 }));
    assert_eq!(rt; answered?, 50);
    assert_eq!(rt; lines_like(&log.into_bytes(), "INFO client ended"), 50);
    Ok(())
}

/// Requests of 16 MB in all, more than the sockets between two processes hold. Their replies are still longer.
pub(super) fn much_to_answer(alloc: Global) -> Result<Vec<u8>, Fail> {
    let open = ask_script(alloc, b"7 1 open UTF-32BE ISO-8859-1\n").map_err(|_| "no script")?;
    // A CONV of caller 7 on descriptor 0, with room for 262,144 bytes, and 60,000 bytes of text.
    let mut conv = vec![in alloc; 0xe9u8; 60_021]?;
    conv[..21].copy_from_slice(b"\0\0\xea\x71\0\0\0\x07\0\0\0\x02\x04\0\0\0\0\0\x04\0\0");
    let mut much = open;
    for _request in 0..260 {
        much.extend_from_slice(&conv)?;
    }
    Ok(much)
}

/// A client that sends nothing, one that stops within a frame, one that reads no reply, and two that are served
/// meanwhile.
fn five_clients<N>(rt: &N, address: SocketAddr, much: &[u8]) -> io::Result<bool>
where
    N: Net<Listener = TcpListener, Stream = TcpStream>,
{
    let idle = connected(rt, address)?;
    let mut half = connected(rt, address)?;
    half.write_all(&OPEN[..9])?;
    let mut stalled = connected(rt, address)?;
    // The write ends when the server has ended the stream, without having read all.
    let _ = stalled.write_all(much);
    let both = is_served(rt, address)? && is_served(rt, address)?;
    drop((idle, half, stalled));
    Ok(both)
}

#[test]
fn bad_clients_are_ended_and_good_ones_served(rt: HostRuntime) -> Result<(), Fail> {
    let (listener, address) = bound(&rt)?;
    let log = Kept::new(&rt);
    let much = much_to_answer(rt.alloc())?;
    let inlet = Bound::new(Listener::Tcp(listener))?;
    let (rt, log_there, inlet, much) = (&rt, &log, &inlet, much.as_slice());
    let (served, answered) = thread::join(
        rt,
        move || {
            let mut few = terms(5, 3);
            few.idle = Some(1);
            let operation = Operation::new(&few);
            let admin = None;
            let service = Service {
                rt,
                alloc: rt.alloc(),
                log: log_there,
                inlet,
                terms: few,
                operation: &operation,
                admin: &admin,
            };
            serve_until_drained(&service)
        },
        move || five_clients(rt, address, much),
    );
    assert_eq!(rt; served, Ok(Listened::Served { streams: 5 }));
    assert!(rt; answered?);
    let said = log.into_bytes();
    assert_eq!(rt;
        lines_about(
            &said,
            "INFO stream from ",
            ": idle client, after 0 requests"
        ),
        2
    );
    assert_eq!(rt; lines_about(&said, "ERROR stream from ", " requests"), 1);
    let stalled = b": stalled client, after ".as_slice();
    assert!(rt; said.windows(stalled.len()).any(|part| part == stalled));
    assert_eq!(rt; lines_like(&said, "INFO client ended"), 2);
    Ok(())
}

/// A charmap of one mapping.
const PUT: &[u8] =
    br"7 1 put <code_set_name> TOY|CHARMAP|<question-mark> \x3F|<U0100> \x80|END CHARMAP";

#[test]
fn streams_share_the_charmaps_that_are_compiled(rt: HostRuntime) -> Result<(), Fail> {
    let alloc = rt.alloc();
    let (listener, address) = bound(&rt)?;
    let frames = ask_script(alloc, PUT).map_err(|_| "no script")?;
    let cached = Cached::new(alloc)?;
    let log = Kept::new(&rt);
    for _stream in 0..3 {
        let mut client = connected(&rt, address)?;
        client.write_all(&frames)?;
        client.shutdown(Shutdown::Write)?;
        let (stream, _peer) = listener.accept()?;
        let stream = Connection::Tcp(stream);
        let ended = serve_connection(&rt, alloc, &cached, &stream, alone(), &log);
        assert_eq!(rt; (ended.fault, ended.requests), (None, 1));
    }
    assert_eq!(rt; cached.found(&rt), 2);
    let counts = cached.counts();
    assert_eq!(rt; counts.charmaps, 1);
    assert_eq!(rt; counts.bytes, cached.bytes(&rt) as u64);
    assert_eq!(rt; counts.hits, 2);
    assert_eq!(rt; counts.misses, 1);
    Ok(())
}
