//! The file of a Unix socket.
use crate::connecting::connect_unix;
use std::fmt::{self, Display, Formatter};
use std::fs::{self, Files};
use std::io::{self, ErrorKind};
use std::net::Net;
use std::os::unix::fs::{FileTypeExt, MetadataExt};
use std::os::unix::net::UnixListener;
use std::time::{Clock, Duration};

/// Shows a path as the address of a socket.
#[derive(Clone, Copy, Debug)]
pub(crate) struct SocketAt<'a>(pub(crate) &'a str);

impl Display for SocketAt<'_> {
    fn fmt<W: fmt::Write>(&self, f: &mut Formatter<W>) -> fmt::Result {
        let SocketAt(path) = *self;
        write!(f, "unix:{path}")
    }
}

/// How many seconds it takes to know that a server listens whose queue of connections is full.
const WAIT: u64 = 1;

/// Whether the path names the socket of a dead server: a socket file at which no process listens.
fn is_stale<R: Files + Net + Clock>(rt: &R, path: &str) -> bool {
    let is_socket = match fs::symlink_metadata(rt, path) {
        Ok(metadata) => metadata.file_type().is_socket(),
        Err(_) => false,
    };
    is_socket
        && match connect_unix(rt, path, Duration::from_secs(WAIT)) {
            Ok(_) => false,
            Err(e) => e.kind() == ErrorKind::ConnectionRefused,
        }
}

/// Listens at a path. It replaces the socket file that a dead server left; any other file there is a fault. The
/// process's umask decides who may connect.
pub(crate) fn bind<R: Files + Net + Clock>(rt: &R, path: &str) -> io::Result<UnixListener> {
    if path.is_empty() {
        // The system would choose a name that no client knows.
        return Err(io::Error::from(ErrorKind::InvalidInput));
    }
    match UnixListener::bind(rt, path) {
        Err(e) if e.kind() == ErrorKind::AddrInUse && is_stale(rt, path) => {
            fs::remove_file(rt, path)?;
            UnixListener::bind(rt, path)
        }
        bound => bound,
    }
}

/// The numbers by which the system identifies a file. No other file has them while a descriptor of its socket is open.
#[derive(Clone, Copy, Debug, PartialEq, Eq)]
pub(crate) struct FileId {
    device: u64,
    number: u64,
}

/// The file at a path, if there is one.
pub(crate) fn id_of<R: Files>(rt: &R, path: &str) -> Option<FileId> {
    let metadata = fs::symlink_metadata(rt, path).ok()?;
    Some(FileId {
        device: metadata.dev(),
        number: metadata.ino(),
    })
}

/// Removes the socket file of a server that has ended, unless another file has replaced it: while the last streams of a
/// drain are served, the next server may listen at the same path.
pub(crate) fn remove<R: Files>(rt: &R, path: &str, made: Option<FileId>) {
    if made.is_some() && id_of(rt, path) == made {
        let _ = fs::remove_file(rt, path);
    }
}
