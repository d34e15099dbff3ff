//! Reports what the callers of a pool hold.
ghost use Rattle.std.specs.Prelude.{◌≡◌};
ghost use Rattle.std.specs.Thread.{IsSync};
ghost use Rattle.cv_caller.specs.Tables.{Table as WorldTable};
ghost use Rattle.cv_world.specs.Requests.{turn};
ghost use Rattle.cv_pool.specs.Pools.{pool_tables};

use crate::gate::Open;
use crate::pool::Pool;
use cv_base::Memory;
use cv_cache::Cached;
use cv_frame::{Reply, Request};
use cv_loop::Engine;
use cv_machine::Machine;
use cv_world::laws::{one_answer, some_answer};
use cv_world::{Replies, Usage};
use std::alloc::Global;
use std::sync::Wait;
use std::thread::Threads;

/// Receives what the callers of a pool hold, after each batch and before the first of its replies is written.
pub trait Tally {
    /// Receives what they hold at this time. It changes no answer.
    fn note(&self, usage: Usage);
}

/// The tally that ignores what it receives.
impl Tally for () {
    fn note(&self, _usage: Usage) {}
}

/// A pool that reports to a tally what its callers hold.
#[derive(Drop)]
pub struct Tallied<'a, T> {
    pool: Pool<&'a Cached, Open>,
    tally: &'a T,
}

impl<'a, T> Tallied<'a, T> {
    /// Makes a pool that reports to this tally.
    pub fn new(pool: Pool<&'a Cached, Open>, tally: &'a T) -> Tallied<'a, T>
        ensures { result.pool ≡ pool.entry }
    {
        Tallied { pool, tally }
    }
}

impl<'a, T> Machine for Tallied<'a, T> {
    ghost Table = { WorldTable };

    ghost turn = { turn };

    ghost tables = { λ engine. pool_tables engine.pool.shards.items };

    fn assert_valid(&self) {
        one_answer();
        some_answer();
    }
}

impl<'a, R: Threads + Wait + Sync, T: Tally> Engine<R> for Tallied<'a, T> {
    ghost ready = { λ _. IsSync R.row };

    fn batch(&mut self, rt: &R, alloc: Global, requests: &[Request]) -> Result<Vec<Reply>, Memory> {
        let told = self.pool.batch(rt, alloc, requests);
        self.tally.note(self.pool.usage());
        told
    }

    fn batch_into(
        &mut self,
        rt: &R,
        alloc: Global,
        requests: &[Request],
        replies: &mut Replies,
    ) -> Result<(), Memory> {
        let told = self.pool.batch_into(rt, alloc, requests, replies);
        self.tally.note(self.pool.usage());
        told
    }

    fn uploads_at_once(&self) -> usize {
        self.pool.shards.len()
    }
}
