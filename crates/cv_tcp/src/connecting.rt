//! Connects to servers.
ghost use Rattle.std.specs.Prelude.{◌≢◌, IfErr};
ghost use Rattle.std.specs.IoError.{error_kind};

use crate::address::Address;
use crate::connection::Connection;
use crate::retrying::{Deadline, is_interrupted, late};
use libc::net::{AF_UNIX, connect as connect_socket};
use std::io::{self, ErrorKind};
use std::net::{Net, TcpListener, TcpStream, ToSocketAddrs};
use std::os::fd::AsRawFd;
use std::os::unix::net::UnixStream;
use std::time::{Clock, Duration};

/// How many bytes the path of a Unix socket may have (unix(7)). A NUL follows it.
const LONGEST_PATH: usize = 107;

/// Where the path begins in the address of a Unix socket, after the family.
const PATH_AT: usize = 2;

/// Connects a Unix socket to a path. It waits as long as a write on the socket may (socket(7), SO_SNDTIMEO).
fn connect_once(socket: &UnixStream, path: &str) -> io::Result<()> {
    let path = path.as_bytes();
    if path.is_empty() || path.len() > LONGEST_PATH || path.contains(&0) {
        return Err(io::Error::from(ErrorKind::InvalidInput));
    }
    let mut address = [0; 128];
    address[..PATH_AT].copy_from_slice(&(AF_UNIX as u16).to_ne_bytes());
    address[PATH_AT..PATH_AT + path.len()].copy_from_slice(path);
    let length = (PATH_AT + path.len() + 1) as u32;
    if unsafe { connect_socket(socket.as_raw_fd(), &address, length) } == 0 {
        return Ok(());
    }
    Err(io::Error::from_raw_os_error(os::errno()))
}

/// Connects a Unix socket to a path, within a time that no signal ends or makes longer. If the clock cannot be read,
/// it gives up at the first signal.
fn connect_on<R: Clock>(rt: &R, socket: &UnixStream, path: &str, limit: Duration) -> io::Result<()>
    ensures retried { IfErr result (λ e. error_kind e ≢ ErrorKind.Interrupted) }
{
    let deadline = Deadline::new(rt, limit);
    let mut left = Some(limit);
    for _turn in 0..u64::MAX {
        let Some(time) = left else {
            return Err(late());
        };
        let _ = socket.set_write_timeout(Some(time));
        match connect_once(socket, path) {
            Ok(()) => return Ok(()),
            Err(failure) => {
                if !is_interrupted(&failure) {
                    return Err(failure);
                }
            }
        }
        left = match deadline {
            Some(deadline) => deadline.left(rt),
            None => None,
        };
    }
    Err(late())
}

/// Connects to a Unix socket. While the server's queue of connections is full, it waits, but not longer than `limit`.
/// Then the error is `WouldBlock`.
pub(crate) fn connect_unix<R: Net + Clock>(
    rt: &R,
    path: &str,
    limit: Duration,
) -> io::Result<UnixStream> {
    let socket = UnixStream::from(rt.unix_socket()?);
    connect_on(rt, &socket, path, limit)?;
    Ok(socket)
}

/// Connects to a TCP port. With a limit, it waits that long for each address that the host name has.
fn connect_tcp<R>(rt: &R, address: &str, limit: Option<Duration>) -> io::Result<TcpStream>
where
    R: Net<Listener = TcpListener, Stream = TcpStream>,
{
    let Some(limit) = limit else {
        return TcpStream::connect(rt, address);
    };
    let mut last = io::Error::from(ErrorKind::InvalidInput);
    for address in address.to_socket_addrs(rt)? {
        match TcpStream::connect_timeout(rt, &address, limit) {
            Ok(stream) => return Ok(stream),
            Err(failure) => last = failure,
        }
    }
    Err(last)
}

/// Connects to a server. With a limit, neither this nor a later read or write on the stream waits longer.
pub(crate) fn connect<R>(rt: &R, address: &str, limit: Option<Duration>) -> io::Result<Connection>
where
    R: Net<Listener = TcpListener, Stream = TcpStream> + Clock,
{
    let stream = match Address::of(address) {
        // Only a listener can be given, so `fd` is the name of a host.
        Address::Tcp(_) | Address::Given(_) => Connection::Tcp(connect_tcp(rt, address, limit)?),
        Address::Unix(path) => Connection::Unix(match limit {
            Some(limit) => connect_unix(rt, path, limit)?,
            None => UnixStream::connect(rt, path)?,
        }),
    };
    stream.send_at_once();
    stream.set_timeouts(limit)?;
    Ok(stream)
}
