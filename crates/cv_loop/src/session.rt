//! What serving a stream keeps from batch to batch.

use cv_world::Replies;

/// What serving a stream keeps from batch to batch. The counts saturate.
#[derive(Drop)]
pub struct Session {
    /// The replies to a batch. The buffer is reused, so that its memory is not allocated anew for each.
    pub replies: Replies,
    /// How many requests were answered.
    pub requests: u64,
    /// How many bytes were written.
    pub written: u64,
}
