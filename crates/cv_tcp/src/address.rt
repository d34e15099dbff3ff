//! Addresses of servers.

/// The address of a server: that of a TCP port, the path of a Unix socket, or the number of a listener that the process
/// was given.
#[derive(Clone, Copy, Debug, PartialEq, Eq)]
pub(crate) enum Address<'a> {
    Tcp(&'a str),
    Unix(&'a str),
    /// `None`: no number from 0 to 65,535 follows `fd:`.
    Given(Option<u16>),
}

/// Returns whether a word can be the address of a listener: `HOST:PORT`, `unix:` and a path, or `fd:` and the number of
/// a descriptor. It does not check that the host or the descriptor exists.
pub fn is_address(word: &str) -> bool {
    match Address::of(word) {
        Address::Unix(path) => !path.is_empty(),
        Address::Given(number) => number.is_some(),
        Address::Tcp(address) => match address.rsplit_once(':') {
            Some((host, port)) => !host.is_empty() && port.parse::<u16>().is_ok(),
            None => false,
        },
    }
}

/// Returns whether a word can be the address of the admin pages: `HOST:PORT`, or `unix:` and a path.
pub fn is_admin_address(word: &str) -> bool {
    match Address::of(word) {
        Address::Given(_) => false,
        Address::Tcp(_) | Address::Unix(_) => is_address(word),
    }
}

impl<'a> Address<'a> {
    /// The address that a word of the command line means: a path after `unix:`, a number after `fd:`, else `HOST:PORT`.
    pub(crate) fn of(word: &'a str) -> Address<'a> {
        if let Some(path) = word.strip_prefix("unix:") {
            return Address::Unix(path);
        }
        match word.strip_prefix("fd:") {
            Some(number) => Address::Given(number.parse::<u16>().ok()),
            None => Address::Tcp(word),
        }
    }
}
