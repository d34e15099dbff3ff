//! Counting a stream.
use crate::op_kind::OpKind;
use crate::op_status::OpStatus;
use crate::pending::Pending;
use crate::scan::Scan;
use crate::stream_slot::StreamSlot;
use std::alloc::Global;

/// Replies of the same outcome, one after another, which are counted at once.
#[derive(Clone, Copy, Debug)]
struct Streak {
    outcome: OpStatus,
    times: u64,
}

/// The replies that are written by one write of the server, and the time that they took together.
#[derive(Clone, Copy, Debug)]
struct Batch {
    /// When the read ended that brought the last of its requests, or the write of the batch before it.
    ready: u64,
    /// How long its replies took until they were to be written. `None`: they are not there yet.
    elapsed: Option<u64>,
    replies: u64,
    convs: u64,
    puts: u64,
}

impl Batch {
    /// None of its replies was written yet.
    fn new(ready: u64) -> Batch {
        Batch {
            ready,
            elapsed: None,
            replies: 0,
            convs: 0,
            puts: 0,
        }
    }

    /// So many replies of an op were written.
    fn note(&mut self, op: OpKind, times: u64) {
        self.replies = self.replies.wrapping_add(times);
        match op {
            OpKind::Conv => self.convs = self.convs.wrapping_add(times),
            OpKind::Put => self.puts = self.puts.wrapping_add(times),
            _ => {}
        }
    }
}

/// What is known of a stream that is being served. Times are in nanoseconds.
#[derive(Drop)]
pub struct Meter<'a> {
    slot: &'a StreamSlot,
    requests: Scan,
    replies: Scan,
    pending: Pending,
    batch: Batch,
    answered: u64,
    lacked_memory: bool,
}

impl<'a> Meter<'a> {
    /// Counts a stream at this slot. Nothing has come and gone yet.
    pub fn new(alloc: Global, slot: &'a StreamSlot) -> Meter<'a> {
        Meter {
            slot,
            requests: Scan::new(),
            replies: Scan::new(),
            pending: Pending::new(alloc),
            batch: Batch::new(0),
            answered: 0,
            lacked_memory: false,
        }
    }

    /// Notes bytes that a read brought, which ended at this time.
    pub fn came(&mut self, bytes: &[u8], now: u64) {
        self.slot.came(bytes.len() as u64, now);
        let mut at = 0;
        while at < bytes.len() {
            let Some(seen) = self.requests.next(&bytes[at..]) else {
                break;
            };
            self.pending.push(OpKind::of(seen.code));
            at += seen.n;
        }
        self.slot.wait(self.pending.len());
        self.batch.ready = now;
    }

    /// Notes when the replies of a batch are there, before the first is written.
    pub fn begin_batch(&mut self, now: u64) {
        self.batch.elapsed = Some(now.saturating_sub(self.batch.ready));
    }

    /// Notes bytes that a write elapsed, and whether these were all that were to be written.
    pub fn went(&mut self, bytes: &[u8], is_all: bool) {
        self.slot.went(bytes.len() as u64);
        let mut streak = Streak {
            outcome: OpStatus {
                op: OpKind::Other,
                status: 0,
            },
            times: 0,
        };
        let mut at = 0;
        while at < bytes.len() {
            let Some(seen) = self.replies.next(&bytes[at..]) else {
                break;
            };
            at += seen.n;
            let outcome = OpStatus {
                op: self.pending.pop(),
                status: seen.code,
            };
            if outcome == streak.outcome {
                streak.times = streak.times.wrapping_add(1);
            } else {
                self.count(streak);
                streak = Streak { outcome, times: 1 };
            }
        }
        self.count(streak);
        self.slot.wait(self.pending.len());
        if is_all {
            self.end_batch();
        }
    }

    /// Counts replies of one outcome.
    fn count(&mut self, streak: Streak) {
        let Streak { outcome, times } = streak;
        if times == 0 {
            return;
        }
        self.slot.answered(outcome, times);
        self.answered = self.answered.wrapping_add(times);
        self.batch.note(outcome.op, times);
        self.lacked_memory = self.lacked_memory || outcome.lacks_memory();
    }

    /// All replies of a batch were written: each took the same part of its time.
    fn end_batch(&mut self) {
        let Batch {
            ready,
            elapsed,
            replies,
            convs,
            puts,
        } = self.batch;
        self.batch = Batch::new(ready);
        let Some(elapsed) = elapsed else {
            return;
        };
        if replies == 0 {
            return;
        }
        let each = elapsed / replies;
        if convs > 0 {
            self.slot.conv.note(each, convs);
        }
        if puts > 0 {
            self.slot.put.note(each, puts);
        }
    }

    /// Whether requests that came have no reply yet: then the next batch is ready when the write of this one ends.
    pub fn is_waiting(&self) -> bool {
        !self.pending.is_empty()
    }

    /// Notes when the write of a batch ended.
    pub fn ready(&mut self, now: u64) {
        self.batch.ready = now;
    }

    /// How many requests had their whole reply written.
    pub fn answered(&self) -> u64 {
        self.answered
    }

    /// Whether a reply said that an allocation failed.
    pub fn lacked_memory(&self) -> bool {
        self.lacked_memory
    }
}
