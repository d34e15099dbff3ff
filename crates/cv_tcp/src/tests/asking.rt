//! Asks peers that reply, and peers that end.
use super::kept::Kept;
use super::{alone, bound, connected, terms};
use crate::calling::{call, call_connection};
use crate::connection::Connection;
use crate::fault::{CallFault, call_status};
use crate::one_stream::serve_connection;
use cv_cache::Cached;
use cv_commands::RunFault;
use std::io::{self, Write};
use std::net::{Net, Shutdown, TcpListener, TcpStream};
use std::test::Fail;
use std::thread;
use std::time::Clock;

const SCRIPT: &[u8] = b"7 1 open US-ASCII ISO-8859-1\n7 2 conv 0 8 41e942\n7 3 close 0\n";

const LINES: &[u8] = b"7 1 OK 00000000\n7 2 OK 0000000000000001413f42\n7 3 OK -\n";

#[test]
fn a_script_is_served_and_asked(rt: HostRuntime) -> Result<(), Fail> {
    let alloc = rt.alloc();
    let (listener, address) = bound(&rt)?;
    let cached = Cached::new(alloc)?;
    let log = Kept::new(&rt);
    let (rt, listener, cached, log) = (&rt, &listener, &cached, &log);
    let (ended, called) = thread::join(
        rt,
        move || match listener.accept() {
            Ok((stream, _peer)) => {
                let stream = Connection::Tcp(stream);
                Some(serve_connection(rt, alloc, cached, &stream, alone(), log))
            }
            Err(_) => None,
        },
        move || {
            let mut lines = Vec::new(alloc);
            match connected(rt, address) {
                Ok(stream) => {
                    let stream = Connection::Tcp(stream);
                    let called = call_connection(rt, alloc, SCRIPT, &stream, None, &mut lines);
                    (called, lines)
                }
                Err(_) => (Err(CallFault::Run(RunFault::CannotConnect)), lines),
            }
        },
    );
    let ended = ended.ok_or("no stream")?;
    assert_eq!(rt; ended.fault, None);
    assert_eq!(rt; (ended.requests, ended.read, ended.written), (3, 74, 54));
    let (called, lines) = called;
    assert_eq!(rt; called, Ok(()));
    assert!(rt; lines.as_slice() == LINES);
    Ok(())
}

/// The result of asking a peer that sends these bytes and ends, and the reply lines.
fn answered<R>(rt: &R, bytes: &[u8]) -> io::Result<(Result<(), CallFault>, Vec<u8>)>
where
    R: AllocGlobal + Clock + Net<Listener = TcpListener, Stream = TcpStream>,
{
    let alloc = rt.alloc();
    let (listener, address) = bound(rt)?;
    let stream = connected(rt, address)?;
    let (mut peer, _) = listener.accept()?;
    peer.write_all(bytes)?;
    peer.shutdown(Shutdown::Write)?;
    let mut lines = Vec::new(alloc);
    let stream = Connection::Tcp(stream);
    let called = call_connection(rt, alloc, SCRIPT, &stream, None, &mut lines);
    Ok((called, lines))
}

/// The reply to the first request of the script.
const FIRST: &[u8] = b"\0\0\0\x0d\0\0\0\x07\0\0\0\x01\0\0\0\0\0";

#[test]
fn asking_ends_as_the_peer_does(rt: HostRuntime) -> Result<(), Fail> {
    let none: &[u8] = b"";
    let first: &[u8] = b"7 1 OK 00000000\n";
    let cases: [(&[u8], RunFault, &str, &[u8]); 4] = [
        (b"", RunFault::TruncatedReply, "truncated reply", none),
        (b"\0\0\0", RunFault::TruncatedReply, "truncated reply", none),
        (FIRST, RunFault::TruncatedReply, "truncated reply", first),
        (
            b"\0\0\0\x08",
            RunFault::BadReplyLength(8),
            "bad length 8",
            none,
        ),
    ];
    for (bytes, fault, text, shown) in cases {
        let (called, lines) = answered(&rt, bytes)?;
        let fault = CallFault::Run(fault);
        assert_eq!(rt; called, Err(fault));
        assert_eq!(rt; call_status(&fault), 1);
        let said = format!(in rt.alloc(); "{fault}")?;
        assert!(rt; said.as_str() == text, "{said}");
        assert!(rt; lines.as_slice() == shown, "{fault}");
    }
    Ok(())
}

#[test]
fn a_script_at_fault_is_found_before_its_server(rt: HostRuntime) -> Result<(), Fail> {
    let alloc = rt.alloc();
    let (listener, address) = bound(&rt)?;
    let address = format!(in alloc; "{address}")?;
    let mut lines = Vec::new(alloc);
    let called = call(
        &rt,
        alloc,
        &address,
        None,
        b"# nothing to ask\n",
        &mut lines,
    );
    assert_eq!(rt; called, Ok(()));
    drop(listener);
    let called = call(&rt, alloc, &address, Some(5), SCRIPT, &mut lines);
    assert_eq!(rt; called, Err(CallFault::Run(RunFault::CannotConnect)));
    let called = call(&rt, alloc, &address, None, b"7", &mut lines);
    assert_eq!(rt; called, Err(CallFault::Run(RunFault::Line(1))));
    assert!(rt; lines.is_empty());
    Ok(())
}

#[test]
fn a_silent_server_gives_no_reply(rt: HostRuntime) -> Result<(), Fail> {
    let alloc = rt.alloc();
    let (listener, address) = bound(&rt)?;
    let address = format!(in alloc; "{address}")?;
    let mut lines = Vec::new(alloc);
    let called = call(&rt, alloc, &address, Some(1), SCRIPT, &mut lines);
    assert_eq!(rt; called, Err(CallFault::NoReply));
    assert!(rt; lines.is_empty());
    drop(listener);
    let said = format!(in alloc; "{}", CallFault::NoReply)?;
    assert!(rt; said.as_str() == "no reply");
    assert_eq!(rt; call_status(&CallFault::NoReply), 1);
    Ok(())
}
