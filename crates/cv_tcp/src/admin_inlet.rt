//! The listener of the admin pages.
use crate::address::Address;
use crate::inlet::{Bound, Listener};
use crate::socket_file::{self, FileId, SocketAt};
use std::alloc::Global;
use std::fmt::{self, Display, Formatter};
use std::fs::Files;
use std::io::{self, ErrorKind};
use std::net::{Net, SocketAddr, TcpListener, TcpStream};
use std::time::Clock;

/// Shows the address that was given for the admin pages.
#[derive(Clone, Copy, Debug)]
pub(crate) struct AdminAt<'a>(pub(crate) &'a str);

impl Display for AdminAt<'_> {
    fn fmt<W: fmt::Write>(&self, f: &mut Formatter<W>) -> fmt::Result {
        let AdminAt(address) = *self;
        write!(f, "admin {address}")
    }
}

/// The address of the admin pages.
#[derive(Drop)]
pub(crate) enum AdminAddress {
    At(SocketAddr),
    /// The path of a socket file.
    Unix(String),
}

impl Display for AdminAddress {
    fn fmt<W: fmt::Write>(&self, f: &mut Formatter<W>) -> fmt::Result {
        match self {
            AdminAddress::At(address) => write!(f, "{address}"),
            AdminAddress::Unix(path) => write!(f, "{}", SocketAt(path.as_str())),
        }
    }
}

/// The listener of the admin pages.
#[derive(Drop)]
pub(crate) struct AdminInlet {
    bound: Bound,
    address: AdminAddress,
    /// The socket file that the listener has made, if it is a Unix socket.
    made: Option<FileId>,
}

/// Listens at a TCP port.
fn open_tcp<R>(rt: &R, address: &str) -> io::Result<AdminInlet>
where
    R: Net<Listener = TcpListener, Stream = TcpStream>,
{
    let listener = TcpListener::bind(rt, address)?;
    let address = AdminAddress::At(listener.local_addr()?);
    Ok(AdminInlet {
        bound: Bound::new(Listener::Tcp(listener))?,
        address,
        made: None,
    })
}

/// Listens at a Unix socket.
fn open_unix<R: Net + Files + Clock>(rt: &R, alloc: Global, path: &str) -> io::Result<AdminInlet> {
    let address = AdminAddress::Unix(String::from_str(alloc, path)?);
    let listener = socket_file::bind(rt, path)?;
    let made = socket_file::id_of(rt, path);
    match Bound::new(Listener::Unix(listener)) {
        Ok(bound) => Ok(AdminInlet {
            bound,
            address,
            made,
        }),
        Err(failure) => {
            socket_file::remove(rt, path, made);
            Err(failure)
        }
    }
}

impl AdminInlet {
    /// Listens at an address. The socket file that a dead server left is replaced.
    pub(crate) fn open<R>(rt: &R, alloc: Global, address: &str) -> io::Result<AdminInlet>
    where
        R: Net<Listener = TcpListener, Stream = TcpStream> + Files + Clock,
    {
        match Address::of(address) {
            Address::Tcp(address) => open_tcp(rt, address),
            Address::Unix(path) => open_unix(rt, alloc, path),
            // A listener that the process was given is for streams.
            Address::Given(_) => Err(io::Error::from(ErrorKind::InvalidInput)),
        }
    }

    /// The listener.
    pub(crate) fn bound(&self) -> &Bound {
        &self.bound
    }

    /// Its address. If the port was 0, this is the one that the system chose.
    pub(crate) fn address(&self) -> &AdminAddress {
        &self.address
    }

    /// Removes the socket file, if there is one.
    pub(crate) fn remove<R: Files>(&self, rt: &R) {
        match &self.address {
            AdminAddress::At(_) => {}
            AdminAddress::Unix(path) => socket_file::remove(rt, path.as_str(), self.made),
        }
    }
}
