//! Engines of three kinds: a world, a world with a cache, and a pool of two workers.
ghost use Rattle.std.specs.Prelude.{◌≡◌, false};

use cv_cache::Cached;
use cv_loop::{ServeFault, Served, Sink, Source, WorldWith, serve};
use cv_pool::{Open, Pool};
use cv_world::World;
use std::alloc::Global;
use std::sync::Wait;
use std::thread::Threads;

/// A kind of engine.
#[derive(Clone, Copy)]
pub enum Kind {
    Alone,
    WithCache,
    TwoWorkers,
}

/// All kinds.
pub const KINDS: [Kind; 3] = [Kind::Alone, Kind::WithCache, Kind::TwoWorkers];

/// Serves a stream by a new engine of this kind, with at most `reads` reads.
pub fn serve_by<R: Threads + Wait + Sync, S: Source, W: Sink>(
    rt: &R,
    alloc: Global,
    kind: Kind,
    reader: &mut S,
    writer: &mut W,
    reads: u64,
) -> Result<Served, ServeFault>
    requires pulls { S.pulls reader.old ≡ 0 }
    requires fresh_reader { (S.met_end reader.old ≡ false) × (S.has_failed reader.old ≡ false) }
    requires fresh_writer { W.has_failed writer.old ≡ false }
{
    let Ok(cached) = Cached::new(alloc) else {
        return Err(ServeFault::Memory);
    };
    match kind {
        Kind::Alone => {
            let mut world = World::new(alloc);
            serve(&mut world, rt, alloc, reader, writer, reads)
        }
        Kind::WithCache => {
            let mut world = WorldWith::new(alloc, cached);
            serve(&mut world, rt, alloc, reader, writer, reads)
        }
        Kind::TwoWorkers => {
            let Ok(mut pool) = Pool::new(alloc, 2, cached, Open) else {
                return Err(ServeFault::Memory);
            };
            serve(&mut pool, rt, alloc, reader, writer, reads)
        }
    }
}
