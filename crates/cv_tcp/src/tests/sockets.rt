//! Unix sockets.
use super::kept::{Desk, Kept};
use super::{bound, terms};
use crate::calling::call;
use crate::inlet::Listener;
use crate::listened::Listened;
use crate::listening::listen;
use crate::operation::Operation;
use crate::site::{Site, listen_unix, serve_unix};
use crate::socket_file;
use cv_commands::RunFault;
use std::alloc::Global;
use std::fs::{self, Files};
use std::test::Fail;
use std::thread;
use std::time::{Clock, SystemTime};

const SCRIPT: &[u8] = b"7 1 open US-ASCII ISO-8859-1\n";

/// An address that no other test uses.
fn new_address<R: Clock>(rt: &R, alloc: Global, name: &str) -> Result<String, Fail> {
    let now = SystemTime::now(rt)?;
    let since = now
        .duration_since(SystemTime::UNIX_EPOCH)
        .map_err(|_| "clock")?;
    Ok(format!(in alloc; "unix:/tmp/iconvd-{name}-{}", since.as_nanos())?)
}

#[test]
fn a_socket_is_served_and_removed(rt: HostRuntime) -> Result<(), Fail> {
    let alloc = rt.alloc();
    let address = new_address(&rt, alloc, "served")?;
    let path = address.strip_prefix("unix:").unwrap_or("");
    let listener = socket_file::bind(&rt, path)?;
    // Another listener is there.
    let log = Kept::new(&rt);
    assert_eq!(rt;
        listen(&rt, alloc, &log, &address, terms(1, 1)),
        Err(RunFault::CannotListen)
    );
    drop(listener);
    // No process listens there any more, but the file is still there.
    assert!(rt; fs::symlink_metadata(&rt, path).is_ok());
    let listener = socket_file::bind(&rt, path)?;
    let made = socket_file::id_of(&rt, path);
    let (tcp, _address) = bound(&rt)?;
    let desk = Desk {
        rt: &rt,
        listener: tcp,
        output: Kept::new(&rt),
    };
    let terms = terms(2, 2);
    let operation = Operation::new(&terms);
    let admin = None;
    let site = Site {
        rt: &desk,
        alloc,
        log: &log,
        terms,
        operation: &operation,
        admin: &admin,
    };
    let (rt, site, address) = (&rt, &site, address.as_str());
    let (served, called) = thread::join(
        rt,
        move || serve_unix(site, Listener::Unix(listener), path),
        move || {
            let mut lines = Vec::new(alloc);
            let first = call(rt, alloc, address, Some(10), SCRIPT, &mut lines);
            let second = call(rt, alloc, address, None, SCRIPT, &mut lines);
            (first.is_ok() && second.is_ok(), lines)
        },
    );
    socket_file::remove(rt, path, made);
    assert_eq!(rt; served, Ok(Listened::Served { streams: 2 }));
    let (called, lines) = called;
    assert!(rt; called);
    assert!(rt; lines.as_slice() == b"7 1 OK 00000000\n7 1 OK 00000000\n".as_slice());
    assert!(rt; fs::symlink_metadata(rt, path).is_err());
    let line = format!(in alloc; "listening {address}\n")?;
    assert!(rt; desk.output.into_bytes().as_slice() == line.as_bytes());
    Ok(())
}

#[test]
fn the_socket_of_the_next_server_stays(rt: HostRuntime) -> Result<(), Fail> {
    let alloc = rt.alloc();
    let address = new_address(&rt, alloc, "next")?;
    let path = address.strip_prefix("unix:").unwrap_or("");
    let _first = socket_file::bind(&rt, path)?;
    let first_made = socket_file::id_of(&rt, path);
    fs::remove_file(&rt, path)?;
    assert!(rt; socket_file::id_of(&rt, path).is_none());
    let _second = socket_file::bind(&rt, path)?;
    let second_made = socket_file::id_of(&rt, path);
    socket_file::remove(&rt, path, first_made);
    socket_file::remove(&rt, path, None);
    assert_eq!(rt; socket_file::id_of(&rt, path), second_made);
    socket_file::remove(&rt, path, second_made);
    assert!(rt; second_made.is_some() && socket_file::id_of(&rt, path).is_none());
    Ok(())
}

#[test]
fn no_file_is_replaced_but_a_socket(rt: HostRuntime) -> Result<(), Fail> {
    let alloc = rt.alloc();
    let log = Kept::new(&rt);
    let address = new_address(&rt, alloc, "file")?;
    let path = address.strip_prefix("unix:").unwrap_or("");
    fs::write(&rt, path, b"text")?;
    let terms = terms(1, 1);
    let operation = Operation::new(&terms);
    let admin = None;
    let site = Site {
        rt: &rt,
        alloc,
        log: &log,
        terms,
        operation: &operation,
        admin: &admin,
    };
    assert_eq!(rt; listen_unix(&site, path), Err(RunFault::CannotListen));
    let text = fs::read(&rt, path)?;
    fs::remove_file(&rt, path)?;
    assert!(rt; text.as_slice() == b"text".as_slice());
    Ok(())
}
