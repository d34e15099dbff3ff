//! Pools as engines.
ghost use Rattle.std.specs.Thread.{IsSync};
ghost use Rattle.cv_caller.specs.Tables.{Table as WorldTable};
ghost use Rattle.cv_world.specs.Requests.{turn};
ghost use Rattle.cv_pool.specs.Pools.{pool_tables};

use crate::gate::Open;
use crate::pool::Pool;
use cv_base::Memory;
use cv_cache::Cached;
use cv_frame::{Reply, Request};
use cv_loop::Engine;
use cv_machine::Machine;
use cv_world::Replies;
use cv_world::laws::{one_answer, some_answer};
use std::alloc::Global;
use std::sync::Wait;
use std::thread::Threads;

impl<C, G> Machine for Pool<C, G> {
    ghost Table = { WorldTable };

    ghost turn = { turn };

    ghost tables = { λ pool. pool_tables pool.shards.items };

    fn assert_valid(&self) {
        one_answer();
        some_answer();
    }
}

// A method of a trait may not send a type parameter of the engine to a thread. So `Engine` is implemented for two kinds
// of pools: with a cache of their own, and with one that they share with others, as the program's do. `Pool::batch` has
// the same contract for every compiler and gate.
impl<R: Threads + Wait + Sync> Engine<R> for Pool<Cached, Open> {
    ghost ready = { λ _. IsSync R.row };

    fn batch(&mut self, rt: &R, alloc: Global, requests: &[Request]) -> Result<Vec<Reply>, Memory> {
        self.batch(rt, alloc, requests)
    }

    fn batch_into(
        &mut self,
        rt: &R,
        alloc: Global,
        requests: &[Request],
        replies: &mut Replies,
    ) -> Result<(), Memory> {
        self.batch_into(rt, alloc, requests, replies)
    }

    fn uploads_at_once(&self) -> usize {
        self.workers()
    }
}

impl<R: Threads + Wait + Sync> Engine<R> for Pool<&Cached, Open> {
    ghost ready = { λ _. IsSync R.row };

    fn batch(&mut self, rt: &R, alloc: Global, requests: &[Request]) -> Result<Vec<Reply>, Memory> {
        self.batch(rt, alloc, requests)
    }

    fn batch_into(
        &mut self,
        rt: &R,
        alloc: Global,
        requests: &[Request],
        replies: &mut Replies,
    ) -> Result<(), Memory> {
        self.batch_into(rt, alloc, requests, replies)
    }

    fn uploads_at_once(&self) -> usize {
        self.workers()
    }
}
