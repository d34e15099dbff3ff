//! Answers one batch.

ghost use Rattle.std.specs.Prelude.{◌≡◌, false, IfOk, IfErr, OnOk, drop};
ghost use Rattle.cv_loop.specs.Private.Draining.{Drained, Stopped, EndsBatch};

use crate::batch::{End, next_batch};
use crate::ends::Sink;
use crate::engine::Engine;
use crate::fault::ServeFault;
use crate::pushing::push_all;
use crate::session::Session;
use std::alloc::Global;

/// Answers the batch at the start of the bytes, writes the replies, and counts the requests and the bytes that were
/// written. The replies replace those that were in the session. Returns the batch's length in bytes and why it ended.
pub fn answer<R, E: Engine<R>, W: Sink>(
    engine: &mut E,
    rt: &R,
    alloc: Global,
    writer: &mut W,
    bytes: &[u8],
    session: &mut Session,
) -> Result<(usize, End), ServeFault>
    requires ready { E.ready engine.old }
    requires works { W.has_failed writer.old ≡ false }
    ensures ready { E.ready engine.new }
    ensures ok { IfOk result (λ r. Drained E.turn (E.tables engine.old) (W.held writer.old)
        (W.held writer.new) bytes.now r.0 (E.tables engine.new) session.old.written session.new.written
        session.old.requests session.new.requests) }
    ensures works { OnOk result (W.has_failed writer.new ≡ false) }
    ensures end { IfOk result (λ r. EndsBatch r.1 r.0 (drop r.0 bytes.now)) }
    ensures err { IfErr result (λ f. Stopped E.turn f (E.tables engine.old) (W.held writer.old)
        (W.held writer.new) bytes.now (E.tables engine.new) session.old.written (W.has_failed writer.new)) }
{
    let before = session.written;
    let batch = next_batch(alloc, bytes, engine.uploads_at_once())?;
    session.requests = session.requests.saturating_add(batch.requests.len() as u64);
    if batch.requests.is_empty() {
        return Ok((batch.used, batch.end));
    }
    session.replies.clear();
    engine.batch_into(rt, alloc, &batch.requests, &mut session.replies)?;
    let replies = session.replies.as_slice();
    match push_all(writer, replies) {
        Ok(()) => {
            session.written = before.saturating_add(replies.len() as u64);
            Ok((batch.used, batch.end))
        }
        Err(n) => {
            let written = before.saturating_add(n as u64);
            Err(ServeFault::Write { written })
        }
    }
}
