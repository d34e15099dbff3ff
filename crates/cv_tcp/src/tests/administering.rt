//! The admin pages beside streams.
use super::kept::Kept;
use super::{is_served, terms};
use crate::admin_calling::{AdminFault, call_admin, show_response};
use crate::admin_inlet::AdminInlet;
use crate::inlet::{Bound, Listener};
use crate::listened::Listened;
use crate::operation::Operation;
use crate::streams::{Service, serve_until_drained};
use cv_admin::Page;
use std::alloc::{AllocError, Global};
use std::net::{Ipv4Addr, Net, SocketAddr, TcpListener, TcpStream};
use std::sync::atomic::Ordering;
use std::test::Fail;
use std::time::Clock;
use std::{io, thread};

/// The pages that are asked for, one after the other, whether the status of each is good, and its text.
const ASKED: [(Page, bool, &[u8]); 3] = [
    (Page::Health, true, b"ok\n"),
    (Page::Streams, true, b"[]\n"),
    (Page::Drain, true, b"draining\n"),
];

/// Lines of the metrics after one stream.
const LINES: [&str; 6] = [
    "iconvd_build_info{version=\"1.2.3\"} 1",
    "iconvd_places 2",
    "iconvd_streams_total 1",
    "iconvd_streams_ended_total{cause=\"client\"} 1",
    "iconvd_requests_total{op=\"open\",status=\"OK\"} 1",
    "iconvd_log_lines_dropped_total 3",
];

/// Whether the metrics have these lines. A client sees the end of its stream a moment before it is counted.
fn has_lines<R>(rt: &R, alloc: Global, admin: &str) -> Result<bool, AllocError>
where
    R: Net<Listener = TcpListener, Stream = TcpStream> + Clock,
{
    for _try in 0..1_000 {
        let mut got = Vec::new(alloc);
        let _ = call_admin(rt, alloc, admin, 10, Page::Metrics, &mut got);
        if let Ok(text) = String::from_utf8(got)
            && LINES
                .iter()
                .all(|line| text.as_str().lines().any(|there| there == *line))
        {
            return Ok(true);
        }
    }
    Ok(false)
}

/// Has a stream served, then asks for the pages. The last page ends the server.
fn ask_all<R>(rt: &R, alloc: Global, admin: &str, address: SocketAddr) -> io::Result<bool>
where
    R: Net<Listener = TcpListener, Stream = TcpStream> + Clock,
{
    let mut is_right = is_served(rt, address)? && has_lines(rt, alloc, admin)?;
    for (page, is_well, text) in ASKED {
        let mut got = Vec::new(alloc);
        let said = call_admin(rt, alloc, admin, 10, page, &mut got);
        is_right = is_right && said == Ok(is_well) && got.as_slice() == text;
    }
    Ok(is_right)
}

#[test]
fn pages_are_answered_beside_streams(rt: HostRuntime) -> Result<(), Fail> {
    let alloc = rt.alloc();
    let opened = AdminInlet::open(&rt, alloc, "127.0.0.1:0")?;
    let admin_address = format!(in alloc; "{}", opened.address())?;
    let admin = Some(opened);
    let listener = TcpListener::bind(&rt, SocketAddr::from((Ipv4Addr::LOCALHOST, 0)))?;
    let address = listener.local_addr()?;
    let inlet = Bound::new(Listener::Tcp(listener))?;
    let log = Kept::new(&rt);
    let terms = terms(9, 2);
    let operation = Operation::counted(&rt, alloc, &terms, "1.2.3")?;
    operation.set_door(&rt, inlet.door()?);
    operation.lost_lines().store(3, Ordering::Relaxed);
    let (rt, log_there, inlet, admin, operation) = (&rt, &log, &inlet, &admin, &operation);
    let asked_address = admin_address.as_str();
    let (served, asked) = thread::join(
        rt,
        move || {
            let service = Service {
                rt,
                alloc,
                log: log_there,
                inlet,
                terms,
                operation,
                admin,
            };
            serve_until_drained(&service)
        },
        move || ask_all(rt, alloc, asked_address, address),
    );
    assert!(rt; asked?);
    assert_eq!(rt; served, Ok(Listened::Drained { streams: 1, cut: 0 }));
    let mut text = Vec::new(alloc);
    let after = call_admin(rt, alloc, &admin_address, 10, Page::Health, &mut text);
    assert!(rt; after.is_err() && text.is_empty());
    Ok(())
}

#[test]
fn an_answer_that_is_none_shows_nothing(rt: HostRuntime) -> Result<(), Fail> {
    let mut text = Vec::new(rt.alloc());
    let said = show_response(
        b"HTTP/1.1 200 OK\r\ncontent-length: 9\r\n\r\nok\n",
        &mut text,
    );
    assert!(rt; said == Err(AdminFault::BadReply) && text.is_empty());
    let said = show_response(
        b"HTTP/1.1 202 Accepted\r\ncontent-length: 2\r\n\r\nok\n",
        &mut text,
    );
    assert!(rt; said == Ok(true) && text.as_slice() == b"ok".as_slice());
    Ok(())
}
