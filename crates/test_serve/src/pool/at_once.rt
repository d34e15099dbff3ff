//! Shards that wait for each other. A pool that ran them one after the other, or under one lock, would be late.
ghost use Rattle.std.specs.Thread.{IsSync};

use super::watched::Watched;
use crate::asking::{WAYS, Way, told};
use cv_base::Memory;
use cv_cache::{Compiler, Plain};
use cv_charmap::CompileFault;
use cv_frame::ops::{CONV, PUT};
use cv_frame::{Reply, Request};
use cv_loop::Engine;
use cv_pool::{Gate, Open, Pool};
use cv_trie::Charmap;
use cv_world::Replies;
use std::alloc::Global;
use std::sync::atomic::{AtomicU64, Ordering};
use std::sync::{Arc, Wait};
use std::test::Fail;
use std::thread::{self, Threads};
use test_support::{OK, push_frame, request, sides, text_of_size};

/// How often a flag is looked at before it counts as late.
const MOST_LOOKS: u32 = 1_000_000;

/// Waits until `flag` is set, or sets `late` after `MOST_LOOKS` looks.
fn wait_for(flag: &AtomicU64, late: &AtomicU64) {
    for _ in 0..MOST_LOOKS {
        if flag.load(Ordering::SeqCst) == 1 {
            return;
        }
        thread::yield_now();
    }
    late.store(1, Ordering::SeqCst);
}

/// A gate that holds the first request of one shard until the other shard has answered its own.
#[derive(Drop)]
struct Held<'a> {
    held: usize,
    /// Whether it tells the pool that a shard may wait for another.
    tells: bool,
    answered: &'a AtomicU64,
    late: &'a AtomicU64,
}

impl Gate for Held<'_> {
    fn pass(&self, shard: usize, turn: usize) {
        if shard == self.held && turn == 0 {
            wait_for(self.answered, self.late);
        }
        if shard != self.held && turn == 1 {
            self.answered.store(1, Ordering::SeqCst);
        }
    }

    fn may_wait(&self) -> bool {
        self.tells
    }
}

impl<R: Threads + Wait + Sync> Engine<R> for Watched<Plain, Held<'_>> {
    ghost ready = { λ _. IsSync R.row };

    fn batch(&mut self, rt: &R, alloc: Global, requests: &[Request]) -> Result<Vec<Reply>, Memory> {
        self.pool.batch(rt, alloc, requests)
    }

    fn batch_into(
        &mut self,
        rt: &R,
        alloc: Global,
        requests: &[Request],
        replies: &mut Replies,
    ) -> Result<(), Memory> {
        self.pool.batch_into(rt, alloc, requests, replies)
    }

    fn uploads_at_once(&self) -> usize {
        self.pool.workers()
    }
}

/// The number of workers and two callers: neighbours, those of the first and the last shard, and two whose numbers are
/// larger than the number of workers.
const PAIRS: &str = "2 0 1, 3 1 2, 16 3 4, 16 0 15, 5 12 19";

/// The requests are small. Threads are started because the gate says that a shard may wait.
#[test]
fn a_shard_runs_while_another_is_held(rt: HostRuntime) -> Result<(), Fail> {
    for way in WAYS {
        for pair in PAIRS.split(", ") {
            let late = one_is_late(&rt, rt.alloc(), way, pair, 12)?;
            assert!(rt; !late, "{way:?} {pair}");
        }
    }
    Ok(())
}

/// The requests are so large that threads are started although the gate says that no shard may wait. A stream is left
/// out, since it has no such batch: what one read brought is answered before the next read.
#[test]
fn much_is_answered_at_once(rt: HostRuntime) -> Result<(), Fail> {
    for way in [Way::Batch, Way::Appended] {
        for pair in PAIRS.split(", ") {
            let late = one_is_late(&rt, rt.alloc(), way, pair, 200_000)?;
            assert!(rt; !late, "{way:?} {pair}");
        }
    }
    Ok(())
}

/// Whether one of two callers waits in vain for the other, if the first or if the second is held. The bodies of their
/// requests have `size` bytes.
fn one_is_late<R: Threads + Wait + Sync>(
    rt: &R,
    alloc: Global,
    way: Way,
    pair: &str,
    size: usize,
) -> Result<bool, Fail> {
    let (workers, callers) = sides(pair, " ")?;
    let (first, second) = sides(callers, " ")?;
    let workers = workers.parse::<u32>()?;
    let first = first.parse::<u32>()?;
    let second = second.parse::<u32>()?;
    let body = vec![in alloc; 0u8; size]?;
    let requests = [
        request(first, 1, CONV, &body),
        request(second, 1, CONV, &body),
    ];
    Ok(
        is_late(rt, alloc, way, workers, &requests, first)?
            || is_late(rt, alloc, way, workers, &requests, second)?,
    )
}

/// Whether the shard of caller `held` waits in vain for the other one, in a pool of `workers` workers.
fn is_late<R: Threads + Wait + Sync>(
    rt: &R,
    alloc: Global,
    way: Way,
    workers: u32,
    requests: &[Request],
    held: u32,
) -> Result<bool, Fail> {
    if workers == 0 || workers > 16 {
        return Err("no pool has so many workers".into());
    }
    let answered = AtomicU64::new(0);
    let late = AtomicU64::new(0);
    let gate = Held {
        held: (held % workers) as usize,
        tells: requests.iter().all(|request| request.body.len() < 1_000),
        answered: &answered,
        late: &late,
    };
    let pool = Pool::new(alloc, workers, Plain, gate)?;
    let frames = told(rt, alloc, way, &mut Watched { pool }, requests)?;
    // The two replies have no bodies.
    Ok(frames.len() != 26 || late.load(Ordering::SeqCst) != 0)
}

/// A compiler that waits with a text until another one, of even size if the first is of odd size, is being compiled
/// too.
#[derive(Drop)]
struct Meeting<'a> {
    even: &'a AtomicU64,
    odd: &'a AtomicU64,
    late: &'a AtomicU64,
}

impl<R> Compiler<R> for Meeting<'_> {
    fn compile(&self, rt: &R, alloc: Global, text: &[u8]) -> Result<Arc<Charmap>, CompileFault> {
        let (own, other) = if text.len() % 2 == 0 {
            (self.even, self.odd)
        } else {
            (self.odd, self.even)
        };
        own.store(1, Ordering::SeqCst);
        wait_for(other, self.late);
        Plain.compile(rt, alloc, text)
    }
}

impl<R: Threads + Wait + Sync> Engine<R> for Watched<Meeting<'_>, Open> {
    ghost ready = { λ _. IsSync R.row };

    fn batch(&mut self, rt: &R, alloc: Global, requests: &[Request]) -> Result<Vec<Reply>, Memory> {
        self.pool.batch(rt, alloc, requests)
    }

    fn batch_into(
        &mut self,
        rt: &R,
        alloc: Global,
        requests: &[Request],
        replies: &mut Replies,
    ) -> Result<(), Memory> {
        self.pool.batch_into(rt, alloc, requests, replies)
    }

    fn uploads_at_once(&self) -> usize {
        self.pool.workers()
    }
}

#[test]
fn texts_are_compiled_at_once(rt: HostRuntime) -> Result<(), Fail> {
    for way in WAYS {
        let late = one_text_is_late(&rt, rt.alloc(), way)?;
        assert!(rt; !late, "{way:?}");
    }
    Ok(())
}

/// Whether one of the texts that two callers put waits in vain for the other, or a reply is wrong.
fn one_text_is_late<R: Threads + Wait + Sync>(
    rt: &R,
    alloc: Global,
    way: Way,
) -> Result<bool, Fail> {
    let text = text_of_size(alloc, 100)?;
    let longer = text_of_size(alloc, 101)?;
    let even = AtomicU64::new(0);
    let odd = AtomicU64::new(0);
    let late = AtomicU64::new(0);
    let meeting = Meeting {
        even: &even,
        odd: &odd,
        late: &late,
    };
    let pool = Pool::new(alloc, 2, meeting, Open)?;
    let requests = [request(0, 1, PUT, &text), request(1, 1, PUT, &longer)];
    let mut wanted = Vec::new(alloc);
    push_frame(&mut wanted, 0, 1, OK, b"\0\0\0\x01")?;
    push_frame(&mut wanted, 1, 1, OK, b"\0\0\0\x01")?;
    let frames = told(rt, alloc, way, &mut Watched { pool }, &requests)?;
    Ok(frames.as_slice() != wanted.as_slice() || late.load(Ordering::SeqCst) != 0)
}
