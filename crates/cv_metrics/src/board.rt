//! The counters of all streams.
ghost use Rattle.std.specs.Prelude.{◌≡◌, ◌≤◌};

use crate::causes::{EndCause, FaultKind};
use crate::cells::{add, count_at, zeros};
use crate::op_status::OpStatus;
use crate::rows;
use crate::stream::Peer;
use crate::stream_slot::StreamSlot;
use crate::text::{self, Told};
use std::alloc::{AllocError, Global};
use std::sync::Wait;
use std::sync::atomic::{AtomicU64, Ordering};

/// What a server counts: the counters of each slot at which streams are served, and how streams ended. Any thread may
/// use it.
#[derive(Drop)]
pub struct Board {
    slots: Vec<StreamSlot>,
    started: AtomicU64,
    ended: Vec<AtomicU64>,
    faults: Vec<AtomicU64>,
    refused: AtomicU64,
}

impl Board {
    /// Returns a board with `count` slots and all counters 0. It fails if an allocation fails.
    pub fn new(alloc: Global, count: u32) -> Result<Board, AllocError> {
        let mut slots = Vec::new(alloc);
        for _slot in 0..count {
            slots.push(StreamSlot::new(alloc)?)?;
        }
        Ok(Board {
            slots,
            started: AtomicU64::new(0),
            ended: zeros(alloc, EndCause::COUNT)?,
            faults: zeros(alloc, FaultKind::COUNT)?,
            refused: AtomicU64::new(0),
        })
    }

    /// Returns the slot with this index. `None`: the board has no more than `index` slots.
    pub fn slot(&self, index: usize) -> Option<&StreamSlot> {
        self.slots.get(index)
    }

    pub(crate) fn slots(&self) -> &[StreamSlot] {
        &self.slots
    }

    /// Notes that a stream begins at a slot. `now` is the time in nanoseconds.
    pub fn begin<R: Wait>(&self, rt: &R, slot: &StreamSlot, peer: Peer, now: u64) {
        let number = self.started.fetch_add(1, Ordering::Relaxed).wrapping_add(1);
        slot.begin(rt, number, peer, now);
    }

    /// Notes that the stream at a slot has ended, and counts the cause and, if there was one, the fault.
    pub fn end<R: Wait>(
        &self,
        rt: &R,
        slot: &StreamSlot,
        cause: EndCause,
        fault: Option<FaultKind>,
    ) {
        slot.end(rt);
        add(&self.ended, cause.index(), 1);
        if let Some(kind) = fault {
            self.note_fault(kind);
        }
    }

    /// Counts a fault. It is of no stream, or of one that has ended.
    pub fn note_fault(&self, kind: FaultKind) {
        add(&self.faults, kind.index(), 1);
    }

    /// Counts a stream that was closed at once because all places were taken.
    pub fn note_refused(&self) {
        self.refused.fetch_add(1, Ordering::Relaxed);
    }

    /// How many streams began.
    pub(crate) fn started(&self) -> u64 {
        self.started.load(Ordering::Relaxed)
    }

    /// How many streams ended by this cause.
    pub(crate) fn ended(&self, cause: EndCause) -> u64 {
        count_at(&self.ended, cause.index())
    }

    /// How many faults of this kind there were.
    pub(crate) fn faults(&self, kind: FaultKind) -> u64 {
        count_at(&self.faults, kind.index())
    }

    /// How many streams were closed at once because all places were taken.
    pub(crate) fn refused(&self) -> u64 {
        self.refused.load(Ordering::Relaxed)
    }

    /// How many requests had this outcome.
    pub(crate) fn count_of(&self, outcome: OpStatus) -> u64 {
        let mut sum: u64 = 0;
        for slot in &self.slots {
            sum = sum.wrapping_add(slot.count_of(outcome.index()));
        }
        sum
    }

    /// Returns all metrics in Prometheus's text format, version 0.0.4. It fails if an allocation fails.
    pub fn metrics<R: Wait>(
        &self,
        rt: &R,
        alloc: Global,
        told: &Told<'_>,
    ) -> Result<String, AllocError> {
        text::metrics(rt, alloc, self, told)
    }

    /// Returns the streams that are being served as a JSON array with an object for each. `now` is the time in
    /// nanoseconds. It fails if an allocation fails.
    pub fn streams<R: Wait>(&self, rt: &R, alloc: Global, now: u64) -> Result<String, AllocError> {
        rows::streams(rt, alloc, self, now)
    }
}
