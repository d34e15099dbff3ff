//! A slot at which one stream after another is served.
use crate::cells::{add, count_at, zeros};
use crate::histogram::{Histogram, Times};
use crate::op_status::OpStatus;
use crate::stream::{Peer, Stream};
use std::alloc::{AllocError, Global};
use std::sync::atomic::{AtomicU64, Ordering};
use std::sync::{Mutex, Wait};

/// The counters of a slot, over all streams that were served there, and the stream that is being served. The thread
/// that serves there writes them. Any thread may read them.
#[derive(Drop)]
pub struct StreamSlot {
    stream: Mutex<Option<Stream>>,
    /// When the stream began or its last byte came, in nanoseconds.
    active: AtomicU64,
    received: AtomicU64,
    sent: AtomicU64,
    outcomes: Vec<AtomicU64>,
    pub(crate) conv: Histogram,
    pub(crate) put: Histogram,
    /// How many requests of the present stream have come and have no whole reply yet.
    pending: AtomicU64,
    /// How many callers the present stream has, and how many bytes they hold.
    callers: AtomicU64,
    memory_bytes: AtomicU64,
}

/// The counters of a slot at one time, and the stream that is being served there.
#[derive(Clone, Copy, Debug)]
pub(crate) struct Now {
    pub(crate) stream: Stream,
    pub(crate) active: u64,
    pub(crate) requests: u64,
    pub(crate) received: u64,
    pub(crate) sent: u64,
    pub(crate) pending: u64,
    pub(crate) callers: u64,
    pub(crate) memory_bytes: u64,
}

impl StreamSlot {
    /// A slot with all counters 0 and no stream.
    pub(crate) fn new(alloc: Global) -> Result<StreamSlot, AllocError> {
        Ok(StreamSlot {
            stream: Mutex::new(None),
            active: AtomicU64::new(0),
            received: AtomicU64::new(0),
            sent: AtomicU64::new(0),
            outcomes: zeros(alloc, OpStatus::COUNT)?,
            conv: Histogram::new(alloc)?,
            put: Histogram::new(alloc)?,
            pending: AtomicU64::new(0),
            callers: AtomicU64::new(0),
            memory_bytes: AtomicU64::new(0),
        })
    }

    /// Notes that a stream begins here at this time.
    pub(crate) fn begin<R: Wait>(&self, rt: &R, number: u64, peer: Peer, now: u64) {
        let stream = Stream {
            number,
            peer,
            start: now,
            requests: self.requests(),
            received: self.received(),
            sent: self.sent(),
        };
        self.active.store(now, Ordering::Relaxed);
        self.clear();
        *self.stream.lock(rt) = Some(stream);
    }

    /// Notes that the stream here has ended.
    pub(crate) fn end<R: Wait>(&self, rt: &R) {
        *self.stream.lock(rt) = None;
        self.clear();
    }

    /// Sets the pending requests, the callers and the bytes of the present stream to 0.
    fn clear(&self) {
        self.pending.store(0, Ordering::Relaxed);
        self.hold(0, 0);
    }

    /// Notes that the present stream has `callers` callers, which together hold `bytes` bytes.
    pub fn hold(&self, bytes: u64, callers: u64) {
        self.memory_bytes.store(bytes, Ordering::Relaxed);
        self.callers.store(callers, Ordering::Relaxed);
    }

    /// Counts bytes that came at this time.
    pub(crate) fn came(&self, bytes: u64, now: u64) {
        self.received.fetch_add(bytes, Ordering::Relaxed);
        self.active.store(now, Ordering::Relaxed);
    }

    /// Notes how many requests have no whole reply yet.
    pub(crate) fn wait(&self, pending: u64) {
        self.pending.store(pending, Ordering::Relaxed);
    }

    /// Counts bytes that were sent.
    pub(crate) fn went(&self, bytes: u64) {
        self.sent.fetch_add(bytes, Ordering::Relaxed);
    }

    /// Counts `times` requests of this outcome.
    pub(crate) fn answered(&self, outcome: OpStatus, times: u64) {
        add(&self.outcomes, outcome.index(), times);
    }

    /// How many requests had the outcome with this index.
    pub(crate) fn count_of(&self, index: usize) -> u64 {
        count_at(&self.outcomes, index)
    }

    /// How many requests were answered.
    fn requests(&self) -> u64 {
        let mut sum: u64 = 0;
        for index in 0..OpStatus::COUNT {
            sum = sum.wrapping_add(self.count_of(index));
        }
        sum
    }

    /// How many bytes came.
    pub(crate) fn received(&self) -> u64 {
        self.received.load(Ordering::Relaxed)
    }

    /// How many bytes were sent.
    pub(crate) fn sent(&self) -> u64 {
        self.sent.load(Ordering::Relaxed)
    }

    /// The counters now, if a stream is being served here.
    pub(crate) fn now<R: Wait>(&self, rt: &R) -> Option<Now> {
        let guard = self.stream.lock(rt);
        let stream = (*guard)?;
        Some(Now {
            stream,
            active: self.active.load(Ordering::Relaxed),
            requests: self.requests(),
            received: self.received(),
            sent: self.sent(),
            pending: self.pending.load(Ordering::Relaxed),
            callers: self.callers.load(Ordering::Relaxed),
            memory_bytes: self.memory_bytes.load(Ordering::Relaxed),
        })
    }

    /// Adds the histograms of this slot to `conv` and `put`.
    pub(crate) fn add_times(&self, conv: &mut Times, put: &mut Times) {
        self.conv.add_to(conv);
        self.put.add_to(put);
    }
}
