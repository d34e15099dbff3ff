//! The stream between a server and a client.
use crate::retrying::Waits;
use cv_metrics::Peer;
use std::io::{self, Read, Write};
use std::net::{Shutdown, TcpStream};
use std::os::unix::net::UnixStream;
use std::time::Duration;

/// A stream between a server and a client, over TCP or a Unix socket.
#[derive(Drop)]
pub(crate) enum Connection {
    Tcp(TcpStream),
    Unix(UnixStream),
}

impl Connection {
    /// Has the system send each write at once (TCP_NODELAY). If it refuses, bytes only arrive later.
    pub(crate) fn send_at_once(&self) {
        match self {
            Connection::Tcp(stream) => {
                let _ = stream.set_nodelay(true);
            }
            Connection::Unix(_) => {}
        }
    }

    /// Limits how long each later read or write waits. `None`: no limit.
    pub(crate) fn set_timeouts(&self, limit: Option<Duration>) -> io::Result<()> {
        match self {
            Connection::Tcp(stream) => {
                stream.set_read_timeout(limit)?;
                stream.set_write_timeout(limit)
            }
            Connection::Unix(stream) => {
                stream.set_read_timeout(limit)?;
                stream.set_write_timeout(limit)
            }
        }
    }

    /// Tells the other end that no more bytes come.
    pub(crate) fn end_writing(&self) {
        let _ = match self {
            Connection::Tcp(stream) => stream.shutdown(Shutdown::Write),
            Connection::Unix(stream) => stream.shutdown(Shutdown::Write),
        };
    }

    /// Who is at the other end.
    pub(crate) fn peer(&self) -> Peer {
        match self {
            Connection::Tcp(stream) => match stream.peer_addr() {
                Ok(address) => Peer::At(address),
                Err(_) => Peer::Gone,
            },
            Connection::Unix(_) => Peer::Local,
        }
    }
}

impl Waits for &Connection {
    fn limit_waits(&self, limit: Option<Duration>) {
        let _ = self.set_timeouts(limit);
    }
}

impl Read for &Connection {
    fn read(&mut self, buf: &mut [u8]) -> io::Result<usize> {
        let connection = *self;
        match connection {
            Connection::Tcp(stream) => (&*stream).read(buf),
            Connection::Unix(stream) => (&*stream).read(buf),
        }
    }
}

impl Write for &Connection {
    fn write(&mut self, bytes: &[u8]) -> io::Result<usize> {
        let connection = *self;
        match connection {
            Connection::Tcp(stream) => (&*stream).write(bytes),
            Connection::Unix(stream) => (&*stream).write(bytes),
        }
    }

    fn flush(&mut self) -> io::Result<()> {
        Ok(())
    }
}
