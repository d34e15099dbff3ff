//! What the pages show, and what they do.

use std::alloc::{AllocError, Global};

/// Whether a client that connects now is served at once.
#[derive(Clone, Copy, Debug, PartialEq, Eq)]
pub enum Health {
    /// It is served at once: a place is free.
    Free,
    /// It waits or is closed: all places are taken.
    Full,
    /// It is not served: a drain has begun, and the server will end.
    Draining,
}

/// A server as the pages see it. Several threads may use it at once.
pub trait Operated {
    /// Returns whether a client that connects now is served at once.
    fn health(&self) -> Health;

    /// Returns the metrics in Prometheus's text format. It fails if an allocation fails.
    fn metrics(&self, alloc: Global) -> Result<String, AllocError>;

    /// Returns a JSON array with an object for each stream. It fails if an allocation fails.
    fn streams(&self, alloc: Global) -> Result<String, AllocError>;

    /// Begins a drain: no new stream is served from now on. Further calls change nothing.
    fn drain(&self);
}
