//! Serves frames in memory.

ghost use Rattle.std.specs.Prelude.{◌≡◌, ◌≤◌, ℕ, List, false, IsTrue, Err, length};
ghost use Rattle.cv_frame.specs.Message.{Message};
ghost use Rattle.cv_loop.specs.Serving.{IsHeadline, IsUnbroken, EndsWhere, ServesFront, ending_of, met_the_end};
ghost use Rattle.cv_loop.specs.Serving.{write_failed};

use crate::engine::Engine;
use crate::fault::ServeFault;
use crate::serving::{Served, serve};
use crate::std_ends::{FromReader, ToWriter};
use std::alloc::Global;

/// A write into memory fails only if an allocation does, so `Write` becomes `Memory`.
fn in_memory(served: Result<Served, ServeFault>) -> Result<Served, ServeFault>
    ensures no_write { write_failed (ending_of result) ≡ false }
    ensures too_many { result ≡ Err ServeFault.TooManyReads → served ≡ Err ServeFault.TooManyReads }
    ensures end { met_the_end (ending_of result) ≡ met_the_end (ending_of served) }
    ensures unbroken { IsUnbroken (ending_of result) → IsUnbroken (ending_of served) }
    ensures same { (frames : List Message) (rest written : List ℕ) (pulls max_reads : ℕ)
        → EndsWhere served frames rest written pulls max_reads → EndsWhere result frames rest written pulls max_reads }
{
    match served {
        Err(ServeFault::Write { .. }) => Err(ServeFault::Memory),
        other => other,
    }
}

/// Serves frames in memory, and returns the result and what was written. It makes at most `max_reads` reads. `Write` is
/// never returned: if the memory for what is written cannot grow, the result is `Memory`.
pub fn serve_bytes<R, E: Engine<R>>(
    engine: &mut E,
    rt: &R,
    alloc: Global,
    frames: &[u8],
    max_reads: u64,
) -> (Result<Served, ServeFault>, Vec<u8>)
    requires { E.ready engine.old }

    // If the end was reached, the headline holds of all bytes.
    ensures headline { IsTrue (met_the_end (ending_of result.0))
        → IsHeadline E.turn (ending_of result.0) (E.tables engine.old) frames.now result.1.items }

    // `TooManyReads` is returned only if the frames have at least `max_reads` bytes.
    ensures enough { result.0 ≡ Err ServeFault.TooManyReads → max_reads ≤ length frames.now }

    ensures no_write { write_failed (ending_of result.0) ≡ false }

    // However it ended: when each result is returned, by the frames that were read, and what was written for them.
    ensures serves { ServesFront E.turn result.0 (E.tables engine.old) frames.now result.1.items max_reads }

    ensures ready { E.ready engine.new }
{
    let mut reader = FromReader::new(frames);
    let mut writer = ToWriter::new(Vec::new(alloc));
    let result = serve(engine, rt, alloc, &mut reader, &mut writer, max_reads);
    (in_memory(result), writer.into_inner())
}
