//! Serves a stream of frames: reads requests from a source, answers them by an engine, and writes the replies to a
//! sink.
#![tactic(auto)]

mod answering;
mod batch;
mod draining;
mod ends;
mod engine;
mod fault;
pub mod laws;
mod pushing;
mod read_buffer;
mod serving;
mod session;
mod spelling;
mod std_ends;
mod whole_bytes;
mod world_engine;

pub use ends::{Failed, Sink, Source};
pub use engine::Engine;
pub use fault::ServeFault;
pub use pushing::push_all;
pub use serving::{Served, serve};
pub use spelling::push_each;
pub use std_ends::{FromReader, ToWriter};
pub use whole_bytes::serve_bytes;
pub use world_engine::WorldWith;
