//! Serves streams one after the other.
use super::kept::{Desk, Kept};
use super::{OPEN, OPENED, bound, connected, gives, terms};
use crate::address::{is_address, is_admin_address};
use crate::inlet::{Bound, Listener};
use crate::listened::Listened;
use crate::listening::listen;
use crate::operation::Operation;
use crate::site::{Site, listen_tcp};
use crate::streams::{Service, serve_until_drained};
use cv_commands::RunFault;
use cv_log::{LogFormat, LogLines};
use log::LevelFilter;
use std::io::{self, Write};
use std::net::{Net, Shutdown, SocketAddr, TcpListener, TcpStream};
use std::random::RandomSource;
use std::sync::Wait;
use std::test::Fail;
use std::thread::Threads;
use std::time::Clock;

/// Two streams to an address, each with an `OPEN`. Then the first sends a length that no frame has, and the second
/// ends.
fn two_clients<N>(rt: &N, address: SocketAddr) -> io::Result<(TcpStream, TcpStream)>
where
    N: Net<Listener = TcpListener, Stream = TcpStream>,
{
    let mut first = connected(rt, address)?;
    first.write_all(OPEN)?;
    first.write_all(b"\0\0\0\x08")?;
    let mut second = connected(rt, address)?;
    second.write_all(OPEN)?;
    second.shutdown(Shutdown::Write)?;
    Ok((first, second))
}

#[test]
fn the_next_stream_has_a_new_server(rt: HostRuntime) -> Result<(), Fail> {
    let (listener, address) = bound(&rt)?;
    let (first, second) = two_clients(&rt, address)?;
    let peer = first.local_addr()?;
    let log = Kept::new(&rt);
    let inlet = Bound::new(Listener::Tcp(listener))?;
    let terms = terms(2, 1);
    let operation = Operation::new(&terms);
    let admin = None;
    let service = Service {
        rt: &rt,
        alloc: rt.alloc(),
        log: &log,
        inlet: &inlet,
        terms,
        operation: &operation,
        admin: &admin,
    };
    assert_eq!(rt;
        serve_until_drained(&service),
        Ok(Listened::Served { streams: 2 })
    );
    assert!(rt; gives(first, OPENED)?);
    assert!(rt; gives(second, OPENED)?);
    let said = log.into_bytes();
    let wanted = format!(in rt.alloc();
        "DEBUG client connected\nERROR stream from {peer}: bad length 8, after 1 request\n\
        DEBUG client connected\nINFO client ended\n"
    )?;
    assert!(rt; said.as_slice() == wanted.as_bytes());
    Ok(())
}

/// How a server with a log of level error ends.
fn heard<R>(
    desk: &Desk<'_, R>,
    errors: &Kept<'_, R>,
    outlet: &Kept<'_, R>,
) -> Result<Listened, RunFault>
where
    R: Net<Listener = TcpListener, Stream = TcpStream>
        + Clock
        + RandomSource
        + Threads
        + Wait
        + Sync,
{
    let log = LogLines::new(errors, outlet, LevelFilter::Error, LogFormat::Text);
    let terms = terms(2, 1);
    let operation = Operation::new(&terms);
    let admin = None;
    let site = Site {
        rt: desk,
        alloc: errors.alloc(),
        log: &log,
        terms,
        operation: &operation,
        admin: &admin,
    };
    listen_tcp(&site, "127.0.0.1:1")
}

#[test]
fn listening_says_where_and_tells_faults_alone(rt: HostRuntime) -> Result<(), Fail> {
    let alloc = rt.alloc();
    let (listener, address) = bound(&rt)?;
    let (first, _second) = two_clients(&rt, address)?;
    let peer = first.local_addr()?;
    let desk = Desk {
        rt: &rt,
        listener,
        output: Kept::new(&rt),
    };
    let errors = Kept::new(&rt);
    assert_eq!(rt;
        heard(&desk, &errors, &errors),
        Ok(Listened::Served { streams: 2 })
    );
    let line = format!(in alloc; "listening {address}\n")?;
    assert!(rt; desk.output.into_bytes().as_slice() == line.as_bytes());
    let fault = format!(in alloc; "iconvd: stream from {peer}: bad length 8, after 1 request\n")?;
    assert!(rt; errors.into_bytes().as_slice() == fault.as_bytes());
    Ok(())
}

#[test]
fn an_address_that_is_none_is_refused(rt: HostRuntime) -> Result<(), Fail> {
    let alloc = rt.alloc();
    let (_listener, address) = bound(&rt)?;
    let taken = format!(in alloc; "{address}")?;
    for address in ["nowhere", "", taken.as_str(), "unix:", "unix:/"] {
        let log = Kept::new(&rt);
        let heard = listen(&rt, alloc, &log, address, terms(1, 1));
        assert_eq!(rt; heard, Err(RunFault::CannotListen), "at {address}");
        let said = log.into_bytes();
        let start = format!(in alloc; "ERROR {address}: cannot listen: ")?;
        assert!(rt;
            said.starts_with(start.as_bytes()) && said.ends_with(b"\n"),
            "at {address}"
        );
    }
    Ok(())
}

#[test]
fn an_address_has_a_port_or_a_path(rt: HostRuntime) -> Result<(), Fail> {
    for address in [
        "127.0.0.1:0",
        "[::1]:7879",
        "mail.example:65535",
        ":::1",
        "unix:a",
        "fd:3",
    ] {
        assert!(rt; is_address(address), "{address}");
        let is_given = address == "fd:3";
        assert!(rt; is_admin_address(address) != is_given, "{address}");
    }
    for address in [
        "",
        "7879",
        "nowhere",
        ":7879",
        "127.0.0.1:",
        "127.0.0.1:65536",
        "a:b",
        "unix:",
        "fd:",
        "fd:-1",
        "fd:65536",
    ] {
        assert!(rt;
            !is_address(address) && !is_admin_address(address),
            "{address}"
        );
    }
    Ok(())
}
