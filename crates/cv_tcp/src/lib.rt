//! Serves clients, and asks servers, over TCP and Unix sockets.
#![tactic(auto)]

mod accepting;
mod address;
mod admin;
mod admin_calling;
mod admin_inlet;
mod calling;
mod connecting;
mod connection;
mod counted;
mod counters;
mod draining;
mod fault;
mod inherited;
mod inlet;
mod listened;
mod listening;
mod metered;
mod one_stream;
mod operation;
mod overview;
mod places;
mod reply_count;
mod report;
mod retrying;
mod site;
mod socket_file;
mod stream_quota;
mod streams;
mod terms;
mod ticking;
mod timed;

pub use address::{is_address, is_admin_address};
pub use admin_calling::{AdminFault, call_admin};
pub use calling::call;
pub use cv_admin::{Health, Page};
pub use cv_log::{LogFormat, LogLines, Outlet, StandardError};
pub use fault::{CallFault, call_status};
pub use listened::Listened;
pub use listening::{Addresses, listen, listen_administered, listen_until_drained};
pub use operation::Operation;
pub use terms::{MOST_AT_ONCE, Terms, WhenFull};

#[cfg(test)]
mod tests;
