//! Clients that come while all places are taken.
ghost use Rattle.std.specs.Prelude.{◌≡◌};

use super::kept::Kept;
use super::{OPEN, OPENED, bound, connected, is_served, lines_about, lines_like, terms};
use crate::inlet::{Bound, Listener};
use crate::listened::Listened;
use crate::operation::Operation;
use crate::streams::{Service, serve_until_drained};
use crate::terms::{Terms, WhenFull};
use cv_admin::Health;
use std::io::{self, ErrorKind, Read, Write};
use std::net::{Net, Shutdown, SocketAddr, TcpListener, TcpStream};
use std::sync::{Arc, Wait};
use std::test::Fail;
use std::thread;

/// Whether a client is closed at once.
fn is_closed<N>(rt: &N, address: SocketAddr) -> io::Result<bool>
where
    N: Net<Listener = TcpListener, Stream = TcpStream>,
{
    let mut stream = connected(rt, address)?;
    let mut got = [0; 1];
    match stream.read(&mut got) {
        Ok(count) => Ok(count == 0),
        Err(failure) => Ok(failure.kind() == ErrorKind::ConnectionReset),
    }
}

/// A client that has a place, two that are closed meanwhile, and one that connects after the first has ended.
fn four_clients<R>(rt: &R, address: SocketAddr, operation: &Operation) -> io::Result<bool>
where
    R: Net<Listener = TcpListener, Stream = TcpStream> + Wait,
{
    let mut first = connected(rt, address)?;
    first.write_all(OPEN)?;
    let mut got = [0; 17];
    first.read_exact(&mut got)?;
    let was_full = operation.health(rt) == Health::Full && operation.streams(rt) == 1;
    let were_closed = is_closed(rt, address)? && is_closed(rt, address)?;
    first.shutdown(Shutdown::Write)?;
    let has_ended = first.read(&mut got)? == 0;
    let is_free = operation.health(rt) == Health::Free && operation.streams(rt) == 0;
    Ok(was_full && were_closed && has_ended && is_free && is_served(rt, address)?)
}

/// Terms for two streams, one after the other. Clients that connect meanwhile are closed.
fn closing() -> Terms
    ensures at_once { result.at_once ≡ 1 }
    ensures workers { result.workers ≡ 1 }
{
    Terms {
        when_full: WhenFull::Close,
        ..terms(2, 1)
    }
}

#[test]
fn clients_are_closed_while_all_places_are_taken(rt: HostRuntime) -> Result<(), Fail> {
    let (listener, address) = bound(&rt)?;
    let log = Kept::new(&rt);
    let inlet = Bound::new(Listener::Tcp(listener))?;
    let operation = Arc::new(rt.alloc(), Operation::new(&closing()))?;
    let asked = Arc::try_clone(&operation)?;
    let (rt, log_there, inlet) = (&rt, &log, &inlet);
    let (served, answered) = thread::join(
        rt,
        move || {
            let admin = None;
            let service = Service {
                rt,
                alloc: rt.alloc(),
                log: log_there,
                inlet,
                terms: closing(),
                operation: &operation,
                admin: &admin,
            };
            serve_until_drained(&service)
        },
        move || four_clients(rt, address, &asked),
    );
    // The first and the last client took the two streams.
    assert_eq!(rt; served, Ok(Listened::Served { streams: 2 }));
    assert!(rt; answered?);
    let said = log.into_bytes();
    assert_eq!(rt; lines_like(&said, "DEBUG client refused"), 2);
    assert_eq!(rt; lines_like(&said, "INFO client ended"), 2);
    // The second time may be within the same second, and then the log does not say it.
    let taken = lines_like(&said, "INFO the place is taken");
    assert!(rt; taken == 1 || taken == 2);
    assert_eq!(rt; lines_like(&said, "INFO a place is free again"), taken);
    Ok(())
}

/// Two clients at the same time, then another.
fn three_clients<N>(rt: &N, address: SocketAddr) -> io::Result<bool>
where
    N: Net<Listener = TcpListener, Stream = TcpStream>,
{
    let mut streams = [connected(rt, address)?, connected(rt, address)?];
    for stream in &mut streams {
        stream.write_all(OPEN)?;
        let mut got = [0; 17];
        stream.read_exact(&mut got)?;
        if got.as_slice() != OPENED {
            return Ok(false);
        }
    }
    drop(streams);
    is_served(rt, address)
}

#[test]
fn the_log_says_when_all_places_are_taken(rt: HostRuntime) -> Result<(), Fail> {
    let (listener, address) = bound(&rt)?;
    let log = Kept::new(&rt);
    let inlet = Bound::new(Listener::Tcp(listener))?;
    let operation = Operation::new(&terms(3, 2));
    let (rt, log_there, inlet, operation) = (&rt, &log, &inlet, &operation);
    let (served, answered) = thread::join(
        rt,
        move || {
            let admin = None;
            let service = Service {
                rt,
                alloc: rt.alloc(),
                log: log_there,
                inlet,
                terms: terms(3, 2),
                operation,
                admin: &admin,
            };
            serve_until_drained(&service)
        },
        move || three_clients(rt, address),
    );
    assert_eq!(rt; served, Ok(Listened::Served { streams: 3 }));
    assert!(rt; answered?);
    let said = log.into_bytes();
    let taken = lines_like(&said, "INFO all 2 places are taken");
    assert!(rt; taken >= 1);
    assert_eq!(rt; lines_like(&said, "INFO a place is free again"), taken);
    assert_eq!(rt; lines_about(&said, "DEBUG client refused", ""), 0);
    Ok(())
}
