//! What a server counts of its streams: requests by op and status, bytes, times and faults. Also the texts that show
//! the counts.
#![tactic(auto)]

mod board;
mod causes;
mod cells;
mod exposition;
mod histogram;
mod meter;
mod op_kind;
mod op_status;
mod pending;
mod rows;
mod scan;
mod stream;
mod stream_slot;
mod sums;
mod text;

pub use board::Board;
pub use causes::{EndCause, FaultKind};
pub use histogram::{BOUNDS, bucket_of};
pub use meter::Meter;
pub use op_kind::OpKind;
pub use op_status::OpStatus;
pub use pending::Pending;
pub use scan::{Scan, Seen};
pub use stream::{Peer, Stream};
pub use stream_slot::StreamSlot;
pub use text::Told;

#[cfg(test)]
mod tests;
