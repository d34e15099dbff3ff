//! The listeners at which streams come in.
use crate::connection::Connection;
use std::io;
use std::net::{Shutdown, TcpListener, TcpStream};
use std::os::fd::OwnedFd;
use std::os::unix::net::UnixListener;

/// A listener that many threads may use at once.
pub(crate) trait Inlet {
    /// Waits for the next stream.
    fn accept(&self) -> io::Result<Connection>;

    /// Ends every `accept` from now on, also those that are waiting. A listener that the process was given is not shut:
    /// each accept there gives up after a second.
    fn shut(&self);
}

/// A listener over TCP or a Unix socket.
#[derive(Drop)]
pub(crate) enum Listener {
    Tcp(TcpListener),
    Unix(UnixListener),
}

impl Listener {
    /// Waits for the next stream.
    pub(crate) fn next(&self) -> io::Result<Connection> {
        match self {
            Listener::Tcp(listener) => {
                let (stream, _peer) = listener.accept()?;
                Ok(Connection::Tcp(stream))
            }
            Listener::Unix(listener) => {
                let (stream, _peer) = listener.accept()?;
                Ok(Connection::Unix(stream))
            }
        }
    }

    /// Has its accepts wait, also if it was made non-blocking.
    pub(crate) fn wait_at_accepts(&self) -> io::Result<()> {
        match self {
            Listener::Tcp(listener) => listener.set_nonblocking(false),
            Listener::Unix(listener) => listener.set_nonblocking(false),
        }
    }

    /// A second descriptor of the socket. std can shut down a socket only as a stream; for the system they are the
    /// same.
    fn socket(&self) -> io::Result<TcpStream> {
        let socket = match self {
            Listener::Tcp(listener) => OwnedFd::from(listener.try_clone()?),
            Listener::Unix(listener) => OwnedFd::from(listener.try_clone()?),
        };
        Ok(TcpStream::from(socket))
    }
}

/// A listener, and a second descriptor of its socket, which is used to shut it.
#[derive(Drop)]
pub(crate) struct Bound {
    listener: Listener,
    socket: TcpStream,
}

impl Bound {
    /// Takes the second descriptor now: when it is needed, none may be free.
    pub(crate) fn new(listener: Listener) -> io::Result<Bound> {
        let socket = listener.socket()?;
        Ok(Bound { listener, socket })
    }

    /// Another descriptor, which can also shut it.
    pub(crate) fn door(&self) -> io::Result<TcpStream> {
        self.socket.try_clone()
    }
}

impl Inlet for Bound {
    fn accept(&self) -> io::Result<Connection> {
        self.listener.next()
    }

    fn shut(&self) {
        let _ = self.socket.shutdown(Shutdown::Both);
    }
}
