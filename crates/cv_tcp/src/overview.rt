//! What the admin pages show of a server, and how they drain it.
use crate::counters::Counters;
use crate::operation::Operation;
use crate::streams::Service;
use crate::terms::Terms;
use cv_admin::{Health, Operated};
use cv_cache::Cached;
use cv_metrics::Told;
use log::{Log, info};
use std::alloc::{AllocError, Global};
use std::sync::Wait;
use std::time::Clock;

/// A server as its admin pages see it.
#[derive(Drop)]
pub(crate) struct Overview<'a, R, G> {
    rt: &'a R,
    log: &'a G,
    terms: Terms,
    operation: &'a Operation,
    counters: &'a Counters,
    cached: &'a Cached,
}

impl<'a, R: Wait, G: Log> Overview<'a, R, G> {
    /// The overview of a service with these counters, whose streams share this cache.
    pub(crate) fn new<L>(
        service: &Service<'a, R, G, L>,
        cached: &'a Cached,
        counters: &'a Counters,
    ) -> Overview<'a, R, G> {
        Overview {
            rt: service.rt,
            log: service.log,
            terms: service.terms,
            operation: service.operation,
            counters,
            cached,
        }
    }

    /// The values in the metrics that the board does not count.
    fn told(&self) -> Told<'_> {
        let cache = self.cached.counts();
        Told {
            version: self.counters.version(),
            start_time: self.counters.start_time(),
            places: self.operation.places.count(self.rt),
            cache_charmaps: cache.charmaps,
            cache_bytes: cache.bytes,
            cache_hits: cache.hits,
            cache_misses: cache.misses,
            stream_memory_limit: self.terms.stream_memory,
            is_draining: self.operation.is_draining(),
            log_lines_dropped: self.operation.lost(),
        }
    }
}

impl<R: Wait + Clock, G: Log> Operated for Overview<'_, R, G> {
    fn health(&self) -> Health {
        self.operation.health(self.rt)
    }

    fn metrics(&self, alloc: Global) -> Result<String, AllocError> {
        let told = self.told();
        self.counters.board().metrics(self.rt, alloc, &told)
    }

    fn streams(&self, alloc: Global) -> Result<String, AllocError> {
        let now = self.counters.now(self.rt);
        self.counters.board().streams(self.rt, alloc, now)
    }

    fn drain(&self) {
        if !self.operation.is_draining() {
            let streams = self.operation.streams(self.rt);
            info!(self.log; streams; "draining: streams served now: {streams}");
        }
        self.operation.drain(self.rt);
    }
}
