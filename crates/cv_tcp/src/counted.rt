//! Counting a stream on the server's board.
use crate::counters::Counters;
use crate::metered::Counts;
use crate::one_stream::Counting;
use crate::report::report_lack;
use cv_commands::{NO_USAGE, Tally, Usage};
use cv_metrics::{Meter, Peer, StreamSlot};
use log::Log;
use std::alloc::Global;
use std::cell::{Cell, RefCell};
use std::time::Clock;

/// Counts a stream at one of the board's slots, and logs the first reply that says that an allocation failed.
#[derive(Drop)]
pub(crate) struct Counted<'a, R, G> {
    rt: &'a R,
    log: &'a G,
    counters: &'a Counters,
    slot: &'a StreamSlot,
    peer: Peer,
    meter: RefCell<Meter<'a>>,
    /// What its callers hold since the last batch.
    usage: Cell<Usage>,
}

impl<'a, R: Clock, G: Log> Counted<'a, R, G> {
    /// Nothing of the stream has passed yet.
    pub(crate) fn new(rt: &'a R, alloc: Global, counting: &Counting<'a, G>, peer: Peer) -> Self {
        Counted {
            rt,
            log: counting.log,
            counters: counting.counters,
            slot: counting.slot,
            peer,
            meter: RefCell::new(Meter::new(alloc, counting.slot)),
            usage: Cell::new(NO_USAGE),
        }
    }

    /// What time it is.
    fn now(&self) -> u64 {
        self.counters.now(self.rt)
    }
}

impl<'a, R: Clock, G: Log> Tally for Counted<'a, R, G> {
    fn note(&self, usage: Usage) {
        self.slot.hold(usage.bytes, u64::from(usage.callers));
        self.usage.set(usage);
        if let Ok(mut meter) = self.meter.try_borrow_mut() {
            meter.begin_batch(self.now());
        }
    }
}

impl<'a, R: Clock, G: Log> Counts for Counted<'a, R, G> {
    fn came(&self, bytes: &[u8]) {
        if let Ok(mut meter) = self.meter.try_borrow_mut() {
            meter.came(bytes, self.now());
        }
    }

    fn went(&self, bytes: &[u8], is_all: bool) {
        let Ok(mut meter) = self.meter.try_borrow_mut() else {
            return;
        };
        let lacked = meter.lacked_memory();
        meter.went(bytes, is_all);
        if is_all && meter.is_waiting() {
            meter.ready(self.now());
        }
        if meter.lacked_memory() && !lacked {
            report_lack(self.log, self.peer, self.usage.get());
        }
    }

    fn replies(&self) -> u64 {
        match self.meter.try_borrow() {
            Ok(meter) => meter.answered(),
            Err(_) => 0,
        }
    }
}
