//! Serves a stream of frames.

ghost use Rattle.std.specs.Prelude.{◌≡◌, ℕ, List, false};
ghost use Rattle.cv_loop.specs.Serving.{Serving, Gave, Took, IsHeadline, EndsSay, ending_of};

use crate::draining::drain;
use crate::ends::{Sink, Source};
use crate::engine::Engine;
use crate::fault::ServeFault;
use crate::read_buffer::ReadBuffer;
use crate::session::Session;
use cv_world::Replies;
use std::alloc::Global;

/// A stream was served to its end.
#[derive(Clone, Copy, Debug, PartialEq, Eq)]
pub struct Served {
    /// The number of its requests. It saturates.
    pub requests: u64,
}

fn serve_stream<R, E: Engine<R>, S: Source, W: Sink>(
    engine: &mut E,
    rt: &R,
    alloc: Global,
    reader: &mut S,
    writer: &mut W,
    max_reads: u64,
) -> Result<Served, ServeFault>
    requires pulls { S.pulls reader.old ≡ 0 }
    requires fresh_reader { (S.met_end reader.old ≡ false) × (S.has_failed reader.old ≡ false) }
    requires fresh_writer { W.has_failed writer.old ≡ false }
    requires ready { E.ready engine.old }
    ensures serves { Serving E.turn result (E.tables engine.old) (E.tables engine.new) (S.left reader.old)
        (S.left reader.new) (W.held writer.old) (W.held writer.new) (S.pulls reader.new) max_reads }
    ensures ends { EndsSay (ending_of result) (S.met_end reader.new) (S.has_failed reader.new) (W.has_failed writer.new)
        (S.left reader.new) (S.pulls reader.new) max_reads }
    ensures ready { E.ready engine.new }
{
    let mut buffer = ReadBuffer::new(alloc);
    let mut session = Session {
        replies: Replies::new(alloc),
        requests: 0,
        written: 0,
    };
    for _read in 0..max_reads {
        if !buffer.read_more(reader, &mut session.replies)? {
            if buffer.as_slice().is_empty() {
                let requests = session.requests;
                return Ok(Served { requests });
            }
            return Err(ServeFault::TruncatedFrame);
        }
        let bytes = buffer.as_slice();
        let used = drain(engine, rt, alloc, writer, bytes, &mut session)?;
        buffer.forget(used);
    }
    Err(ServeFault::TooManyReads)
}

/// Serves the frames that a source gives, and writes the replies to a sink, in batches of at most 64 requests. Uploads
/// are in batches of their own, of at most as many as the engine runs at once. It makes at most `max_reads` reads, each
/// of at most 65,536 bytes. All whole frames that were read are answered before the next read.
///
/// After a fault the engine has the tables that the requests so far left, and the replies of the batches before it are
/// written.
///
/// Something is served for every stream (`laws::some_service`), and only one thing (`one_service`). After a failed
/// write the replies that were written whole are the first of it, if none says that an allocation failed
/// (`laws::first_served`).
pub fn serve<R, E: Engine<R>, S: Source, W: Sink>(
    engine: &mut E,
    rt: &R,
    alloc: Global,
    reader: &mut S,
    writer: &mut W,
    max_reads: u64,
) -> Result<Served, ServeFault>
    // The source and the sink are new: neither was called.
    requires pulls { S.pulls reader.old ≡ 0 }
    requires fresh_reader { (S.met_end reader.old ≡ false) × (S.has_failed reader.old ≡ false) }
    requires fresh_writer { W.has_failed writer.old ≡ false }
    requires ready { E.ready engine.old }

    // What was written answers what was given, and what was written for each caller answers its frames alone.
    ensures headline { (given written : List ℕ) → Gave (S.left reader.old) (S.left reader.new) given
        → Took (W.held writer.old) (W.held writer.new) written
        → IsHeadline E.turn (ending_of result) (E.tables engine.old) given written }

    // When each result is returned, what was written, and the tables that the engine then has.
    ensures serves { Serving E.turn result (E.tables engine.old) (E.tables engine.new) (S.left reader.old)
        (S.left reader.new) (W.held writer.old) (W.held writer.new) (S.pulls reader.new) max_reads }

    // `Ok` and `TruncatedFrame` are returned if and only if the stream ended, `Read` if and only if a read failed, and
    // `Write` if and only if a write failed or took no byte.
    ensures ends { EndsSay (ending_of result) (S.met_end reader.new) (S.has_failed reader.new) (W.has_failed writer.new)
        (S.left reader.new) (S.pulls reader.new) max_reads }

    ensures ready { E.ready engine.new }
{
    engine.assert_valid();
    serve_stream(engine, rt, alloc, reader, writer, max_reads)
}
