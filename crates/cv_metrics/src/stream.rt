//! A stream that is being served.
use std::fmt::{self, Display, Formatter};
use std::net::SocketAddr;

/// Who is at the other end of a stream.
#[derive(Clone, Copy, Debug, PartialEq, Eq)]
pub enum Peer {
    At(SocketAddr),
    /// A process of this machine, over a Unix socket.
    Local,
    /// Unknown: the system no longer has an address, since the connection is gone.
    Gone,
}

impl Display for Peer {
    fn fmt<W: fmt::Write>(&self, f: &mut Formatter<W>) -> fmt::Result {
        match self {
            Peer::At(address) => write!(f, "{address}"),
            Peer::Local => f.write_str("unix"),
            Peer::Gone => f.write_str("gone"),
        }
    }
}

/// A stream that is being served, and the values of its slot's counters when it began.
#[derive(Clone, Copy, Debug, PartialEq, Eq)]
pub struct Stream {
    /// Its number among all streams of the server, from 1.
    pub number: u64,
    pub peer: Peer,
    /// When it began, in nanoseconds.
    pub start: u64,
    pub requests: u64,
    pub received: u64,
    pub sent: u64,
}
