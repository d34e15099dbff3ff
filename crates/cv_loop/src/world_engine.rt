//! Worlds as engines, with a compiler for uploads.

ghost use Rattle.std.specs.Prelude.{◌≡◌, ℕ, List, [], IfOk, OnOk, OnErr};
ghost use Rattle.cv_caller.specs.Tables.{Table as WorldTable};
ghost use Rattle.cv_frame.specs.Message.{Message};
ghost use Rattle.cv_loop.specs.Replying.{AppendsReplies};
ghost use Rattle.cv_machine.specs.Machine.{Runs};
ghost use Rattle.cv_world.specs.Requests.{turn};
ghost use Rattle.cv_world.specs.Worlds.{world_tables, no_tables};

use crate::engine::Engine;
use cv_base::Memory;
use cv_cache::{Compiler, Plain};
use cv_frame::{Reply, Request};
use cv_machine::Machine;
use cv_world::{Replies, World};
use std::alloc::Global;

/// Answers requests in their order. The text of an upload is put together and compiled just before the upload runs.
fn answer_each<R, C: Compiler<R>>(
    world: &mut World,
    compiler: &C,
    rt: &R,
    alloc: Global,
    requests: &[Request],
) -> Result<Vec<Reply>, Memory>
    requires { C.ready compiler.now }
    ensures runs { IfOk result
        (λ replies. Runs turn (world_tables world.old) requests.now replies.items (world_tables world.new)) }
    ensures err { OnErr result (world_tables world.new ≡ world_tables world.old) }
{
    let mut replies = Vec::new(alloc);
    replies.reserve(requests.len())?;
    for request in requests {
        let reply = world.answer(compiler, rt, alloc, request);
        replies.push_reserved(reply);
    }
    Ok(replies)
}

/// Answers requests in their order, and appends the frame of each reply.
fn answer_each_into<R, C: Compiler<R>>(
    world: &mut World,
    compiler: &C,
    rt: &R,
    alloc: Global,
    requests: &[Request],
    replies: &mut Replies,
) -> Result<(), Memory>
    requires { C.ready compiler.now }
    ensures ok { OnOk result (AppendsReplies turn (world_tables world.old) requests.now [] replies.old replies.new []
        (world_tables world.new)) }
    ensures err { OnErr result ((later : List Message) × (missing : List ℕ) × AppendsReplies turn
        (world_tables world.old) requests.now later replies.old replies.new missing (world_tables world.new)) }
{
    for request in requests {
        world.answer_into(compiler, rt, alloc, request, replies)?;
    }
    Ok(())
}

impl<R> Engine<R> for World {
    fn batch(&mut self, rt: &R, alloc: Global, requests: &[Request]) -> Result<Vec<Reply>, Memory> {
        answer_each(self, &Plain, rt, alloc, requests)
    }

    fn batch_into(
        &mut self,
        rt: &R,
        alloc: Global,
        requests: &[Request],
        replies: &mut Replies,
    ) -> Result<(), Memory> {
        answer_each_into(self, &Plain, rt, alloc, requests, replies)
    }
}

/// A world whose uploads are compiled by a given compiler.
#[derive(Drop)]
pub struct WorldWith<C> {
    world: World,
    compiler: C,
}

impl<C> WorldWith<C> {
    /// Makes a world in which no caller has asked yet.
    pub fn new(alloc: Global, compiler: C) -> WorldWith<C>
        ensures tables { world_tables result.world ≡ no_tables }
        ensures compiler { result.compiler ≡ compiler }
    {
        WorldWith {
            world: World::new(alloc),
            compiler,
        }
    }
}

impl<C> Machine for WorldWith<C> {
    ghost Table = { WorldTable };

    ghost turn = { turn };

    ghost tables = { λ engine. world_tables engine.world };

    fn assert_valid(&self) {
        self.world.assert_valid();
    }
}

impl<R, C: Compiler<R>> Engine<R> for WorldWith<C> {
    ghost ready = { λ engine. C.ready engine.compiler };

    fn batch(&mut self, rt: &R, alloc: Global, requests: &[Request]) -> Result<Vec<Reply>, Memory> {
        answer_each(&mut self.world, &self.compiler, rt, alloc, requests)
    }

    fn batch_into(
        &mut self,
        rt: &R,
        alloc: Global,
        requests: &[Request],
        replies: &mut Replies,
    ) -> Result<(), Memory> {
        answer_each_into(
            &mut self.world,
            &self.compiler,
            rt,
            alloc,
            requests,
            replies,
        )
    }
}
