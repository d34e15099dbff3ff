//! A batch to answer.

use crate::limits::Workers;
use cv_frame::Request;
use std::alloc::Global;

/// The requests of a batch, with what answering them takes: a runtime, an allocator, a compiler of uploads, the gate,
/// and the number of workers.
#[derive(Drop)]
pub(crate) struct BatchJob<'a, R, C, G> {
    pub(crate) rt: &'a R,
    pub(crate) alloc: Global,
    pub(crate) compiler: &'a C,
    pub(crate) gate: &'a G,
    pub(crate) requests: &'a [Request<'a>],
    pub(crate) workers: Workers,
}
