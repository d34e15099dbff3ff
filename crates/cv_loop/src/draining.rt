//! Answers all whole frames that are held.

ghost use Rattle.std.specs.Prelude.{◌≡◌, false, [], IfOk, IfErr, OnOk, drop};
ghost use Rattle.cv_frame.specs.Cut.{front_of};
ghost use Rattle.cv_frame.specs.declared.reading.Frame.TheVariants as frame;
ghost use Rattle.cv_loop.specs.Private.Draining.{Drained, Stopped};

use crate::answering::answer;
use crate::batch::End;
use crate::ends::Sink;
use crate::engine::Engine;
use crate::fault::ServeFault;
use crate::session::Session;
use std::alloc::Global;

/// Answers all whole frames at the start of the bytes, and returns their length in bytes.
pub fn drain<R, E: Engine<R>, W: Sink>(
    engine: &mut E,
    rt: &R,
    alloc: Global,
    writer: &mut W,
    bytes: &[u8],
    session: &mut Session,
) -> Result<usize, ServeFault>
    requires ready { E.ready engine.old }
    requires works { W.has_failed writer.old ≡ false }
    ensures ready { E.ready engine.new }
    ensures ok { IfOk result (λ used. Drained E.turn (E.tables engine.old) (W.held writer.old)
        (W.held writer.new) bytes.now used (E.tables engine.new) session.old.written session.new.written
        session.old.requests session.new.requests) }
    ensures works { OnOk result (W.has_failed writer.new ≡ false) }
    ensures cleared { OnOk result (session.new.replies ≡ []) }
    ensures end { IfOk result (λ used. front_of (drop used bytes.now) ≡ frame.Partial) }
    ensures err { IfErr result (λ f. Stopped E.turn f (E.tables engine.old) (W.held writer.old)
        (W.held writer.new) bytes.now (E.tables engine.new) session.old.written (W.has_failed writer.new)) }
{
    let mut used = 0;
    loop {
        let (n, end) = answer(engine, rt, alloc, writer, &bytes[used..], session)?;
        // Memory that the batch reserved and did not need is freed before the next read, which may wait.
        session.replies.clear();
        used += n;
        match end {
            End::More => {}
            End::Partial => return Ok(used),
            End::Bad { length } => return Err(ServeFault::BadLength { length }),
        }
    }
}
