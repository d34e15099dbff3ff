//! The calls of a gate if no thread is started.
ghost use Rattle.std.specs.Thread.{IsSync};

use super::watched::Watched;
use crate::asking::{WAYS, Way, told};
use cv_base::Memory;
use cv_cache::Plain;
use cv_frame::ops::CLOSE;
use cv_frame::{Reply, Request};
use cv_loop::Engine;
use cv_pool::{Gate, Pool};
use cv_world::Replies;
use std::alloc::Global;
use std::sync::Wait;
use std::sync::atomic::{AtomicU64, Ordering};
use std::test::Fail;
use std::thread::Threads;
use test_support::{request, sides};

/// A gate that records its calls as a decimal number: two digits for each, the shard and the turn. Nothing waits at it,
/// so no thread is started for little work.
#[derive(Drop)]
struct Noting<'a> {
    passes: &'a AtomicU64,
}

impl Gate for Noting<'_> {
    fn pass(&self, shard: usize, turn: usize) {
        let pass = 10 * (shard as u64 % 10) + turn as u64 % 10;
        let before = self.passes.load(Ordering::SeqCst) % 10_000_000_000_000_000;
        self.passes.store(100 * before + pass, Ordering::SeqCst);
    }

    fn may_wait(&self) -> bool {
        false
    }
}

impl<R: Threads + Wait + Sync> Engine<R> for Watched<Plain, Noting<'_>> {
    ghost ready = { λ _. IsSync R.row };

    fn batch(&mut self, rt: &R, alloc: Global, requests: &[Request]) -> Result<Vec<Reply>, Memory> {
        self.pool.batch(rt, alloc, requests)
    }

    fn batch_into(
        &mut self,
        rt: &R,
        alloc: Global,
        requests: &[Request],
        replies: &mut Replies,
    ) -> Result<(), Memory> {
        self.pool.batch_into(rt, alloc, requests, replies)
    }

    fn uploads_at_once(&self) -> usize {
        self.pool.workers()
    }
}

/// The number of workers, the callers of the requests of a batch, and the calls of the gate: a 9, and then the shard
/// and the turn of each.
const PASSES: &str = "
1 5: 90001
1 5 6 5: 900010203
2 4 5 4: 90010010211
3 8 8 3 2: 9202100220123
";

#[test]
fn each_request_passes_the_gate(rt: HostRuntime) -> Result<(), Fail> {
    for way in WAYS {
        for line in PASSES.trim().lines() {
            let (asked, wanted) = sides(line, ": ")?;
            let passes = passes_of(&rt, rt.alloc(), way, asked)?;
            assert_eq!(rt; passes, wanted.parse::<u64>()?, "{way:?} {line}");
        }
    }
    Ok(())
}

/// The calls of the gate of a pool for a batch of these callers. `asked` has the number of workers, and then the
/// callers.
fn passes_of<R: Threads + Wait + Sync>(
    rt: &R,
    alloc: Global,
    way: Way,
    asked: &str,
) -> Result<u64, Fail> {
    let (workers, callers) = sides(asked, " ")?;
    let workers = workers.parse::<u32>()?;
    if workers == 0 || workers > 16 {
        return Err("no pool has so many workers".into());
    }
    let passes = AtomicU64::new(9);
    let pool = Pool::new(alloc, workers, Plain, Noting { passes: &passes })?;
    let requests = closes(alloc, callers)?;
    let frames = told(rt, alloc, way, &mut Watched { pool }, &requests)?;
    if frames.len() != 13 * requests.len().min(64) {
        return Err("not one reply for each request".into());
    }
    Ok(passes.load(Ordering::SeqCst))
}

/// A CLOSE of each of these callers, with a malformed body.
fn closes(alloc: Global, callers: &str) -> Result<Vec<Request<'static>>, Fail> {
    let mut requests = Vec::new(alloc);
    for caller in callers.split(' ') {
        requests.push(request(caller.parse::<u32>()?, 1, CLOSE, b""))?;
    }
    Ok(requests)
}
