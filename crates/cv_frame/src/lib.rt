//! Frames: how the bytes of requests and replies are read and written.
#![tactic(auto)]

mod ask;
mod bodies;
mod bytes;
pub mod laws;
pub mod ops;
mod reading;
mod reply;
mod request;
mod sizes;
mod status;
mod writing;

pub use ask::Ask;
pub use bodies::{OpenBody, read_conv, read_name, read_number, read_open, read_reset};
pub use bytes::Bytes;
pub use reading::{Frame, ReplyFrame, next_reply, next_request};
pub use reply::Reply;
pub use request::Request;
pub use sizes::{FRAME_HEAD, LEAST_LENGTH, MOST_BODY, MOST_LENGTH};
pub use status::Status;
pub use writing::{frame_head, write_reply, write_request};
