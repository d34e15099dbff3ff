//! Sums over all slots.
use crate::board::Board;
use crate::histogram::Times;
use crate::op_kind::OpKind;
use crate::op_status::OpStatus;
use cv_frame::Status;
use std::sync::Wait;

/// Sums over all slots, at one time.
#[derive(Clone, Copy, Debug)]
pub(crate) struct Sums {
    pub(crate) streams: u64,
    pub(crate) received: u64,
    pub(crate) sent: u64,
    pub(crate) memory_bytes: u64,
    pub(crate) memory_refused: u64,
    pub(crate) conv: Times,
    pub(crate) put: Times,
}

impl Sums {
    /// The sums now.
    pub(crate) fn of<R: Wait>(rt: &R, board: &Board) -> Sums {
        let mut sums = Sums {
            streams: 0,
            received: 0,
            sent: 0,
            memory_bytes: 0,
            memory_refused: memory_refused(board),
            conv: Times::none(),
            put: Times::none(),
        };
        for slot in board.slots() {
            sums.received = sums.received.wrapping_add(slot.received());
            sums.sent = sums.sent.wrapping_add(slot.sent());
            slot.add_times(&mut sums.conv, &mut sums.put);
            if let Some(now) = slot.now(rt) {
                sums.streams = sums.streams.wrapping_add(1);
                sums.memory_bytes = sums.memory_bytes.wrapping_add(now.memory_bytes);
            }
        }
        sums
    }
}

/// How many requests were answered ENOMEM.
fn memory_refused(board: &Board) -> u64 {
    let mut sum: u64 = 0;
    for op in OpKind::ALL {
        let status = Status::NoMemory.number();
        sum = sum.wrapping_add(board.count_of(OpStatus { op, status }));
    }
    sum
}
