//! The streams that are being served, as JSON.
use crate::board::Board;
use crate::stream_slot::Now;
use std::alloc::{AllocError, Global};
use std::fmt::{self, Display, Formatter};
use std::sync::Wait;

/// Shows nanoseconds as seconds with three digits after the point.
#[derive(Clone, Copy, Debug)]
struct Seconds(u64);

impl Display for Seconds {
    fn fmt<W: fmt::Write>(&self, f: &mut Formatter<W>) -> fmt::Result {
        let Seconds(nanos) = *self;
        let whole = nanos / 1_000_000_000;
        let part = nanos % 1_000_000_000 / 1_000_000;
        write!(f, "{whole}.{part:03}")
    }
}

/// The JSON object of one stream. Its only string is the peer, an address or a word, which needs no escape.
fn row(alloc: Global, now: u64, at: &Now) -> Result<String, AllocError> {
    let stream = at.stream;
    let peer = stream.peer;
    let age = Seconds(now.saturating_sub(stream.start));
    let idle = Seconds(now.saturating_sub(at.active));
    let requests = at.requests.wrapping_sub(stream.requests);
    let received = at.received.wrapping_sub(stream.received);
    let sent = at.sent.wrapping_sub(stream.sent);
    let (number, pending) = (stream.number, at.pending);
    let (callers, memory) = (at.callers, at.memory_bytes);
    let times = format!(in alloc; "\"age_seconds\":{age},\"idle_seconds\":{idle}")?;
    let counts = format!(in alloc;
        "\"requests\":{requests},\"pending\":{pending},\"received_bytes\":{received},\"sent_bytes\":{sent}"
    )?;
    format!(in alloc;
        "{{\"stream\":{number},\"peer\":\"{peer}\",{times},{counts},\"callers\":{callers},\"memory_bytes\":{memory}}}"
    )
}

/// The streams that are being served, in the order of their slots.
pub(crate) fn streams<R: Wait>(
    rt: &R,
    alloc: Global,
    board: &Board,
    now: u64,
) -> Result<String, AllocError> {
    let mut text = String::new(alloc);
    text.push_str("[")?;
    for slot in board.slots() {
        let Some(at) = slot.now(rt) else {
            continue;
        };
        if text.len() > 1 {
            text.push_str(",")?;
        }
        let row = row(alloc, now, &at)?;
        text.push_str(&row)?;
    }
    text.push_str("]\n")?;
    Ok(text)
}
