//! The jobs that users wait for. Each serves streams that it makes itself, one after another, and takes a digest of all that is written.

mod awkward;
mod gateway;
mod import;
mod legacy;
mod scripts;
mod uploads;

use crate::digest::Digest;
use crate::frames::{Frames, Reader};
pub use awkward::awkward;
use cv_cache::Cached;
use cv_commands::{RunFault, serve_stream_by};
use cv_loop::{FromReader, ToWriter};
pub use gateway::gateway;
pub use import::import;
pub use legacy::legacy;
pub use scripts::scripts;
use std::alloc::Global;
use std::sync::Wait;
use std::thread::Threads;
pub use uploads::uploads;

/// Serves a stream by one worker.
fn serve<R: Threads + Wait + Sync>(
    rt: &R,
    alloc: Global,
    cached: &Cached,
    frames: &Frames<'_>,
    digest: &mut Digest,
) -> Result<(), RunFault> {
    let mut source = FromReader::new(Reader::new(frames));
    let mut sink = ToWriter::new(*digest);
    serve_stream_by(rt, alloc, cached, &mut source, &mut sink, 1)?;
    *digest = sink.into_inner();
    Ok(())
}
