//! Listeners that the process was given.
use crate::connection::Connection;
use crate::inlet::{Inlet, Listener};
use libc::net::{POLLOUT, poll};
use libc::types::pollfd;
use os::FromRawFd;
use std::io;
use std::net::{TcpListener, TcpStream};
use std::os::fd::{AsRawFd, IntoRawFd, OwnedFd};
use std::os::unix::net::UnixListener;
use std::time::Duration;

/// EINVAL, the error of an accept at a socket that does not listen.
const NOT_LISTENING: i32 = 22;

/// How many seconds an accept waits before it gives up, so that its thread can check whether a drain has begun.
const WAIT: u64 = 1;

/// A listener that the process was given. Another process may use it at the same time or later, so it is never shut.
#[derive(Drop)]
pub(crate) struct Inherited {
    listener: Listener,
}

/// Whether a socket is ready to write, or has ended: a listener never is.
fn is_stream(socket: &OwnedFd) -> bool {
    let mut asked = [pollfd {
        fd: socket.as_raw_fd(),
        events: POLLOUT,
        revents: 0,
    }];
    poll(&mut asked, 0) != 0
}

/// A duplicate of the descriptor with this number, which itself stays open.
fn duplicate(number: u16) -> io::Result<OwnedFd> {
    let given = unsafe { OwnedFd::from_raw_fd(i32::from(number)) };
    let duplicate = given.try_clone();
    let _ = given.into_raw_fd();
    duplicate
}

/// The TCP or Unix listener that has this descriptor.
fn listener_of(socket: OwnedFd) -> io::Result<Listener> {
    if is_stream(&socket) {
        return Err(io::Error::from_raw_os_error(NOT_LISTENING));
    }
    let unix = UnixListener::from(socket);
    if unix.local_addr().is_ok() {
        return Ok(Listener::Unix(unix));
    }
    let tcp = TcpListener::from(OwnedFd::from(unix));
    tcp.local_addr()?;
    Ok(Listener::Tcp(tcp))
}

impl Inherited {
    /// The listener that the process was given as the descriptor with this number.
    pub(crate) fn new(number: u16) -> io::Result<Inherited> {
        let socket = TcpStream::from(duplicate(number)?);
        socket.set_read_timeout(Some(Duration::from_secs(WAIT)))?;
        let listener = listener_of(OwnedFd::from(socket))?;
        listener.wait_at_accepts()?;
        Ok(Inherited { listener })
    }
}

impl Inlet for Inherited {
    fn accept(&self) -> io::Result<Connection> {
        self.listener.next()
    }

    fn shut(&self) {}
}
