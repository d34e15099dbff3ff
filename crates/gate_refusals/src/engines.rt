//! Batches that each engine runs.

use crate::again::{Trouble, ample, say_lacking};
use crate::asked::{Texts, requests};
use cv_base::Memory;
use cv_cache::Cached;
use cv_commands::show_replies;
use cv_frame::{Reply, Request, Status, write_reply};
use cv_loop::{Engine, WorldWith};
use cv_pool::{Open, Pool};
use cv_world::World;
use std::alloc::Global;
use std::slice;
use std::sync::Wait;
use std::thread::Threads;

/// Returns the replies to a batch. If the whole batch failed for memory, none of its requests has run, and it is run
/// again.
fn batched<R: Eprint, E: Engine<R>>(
    rt: &R,
    alloc: Global,
    name: &str,
    engine: &mut E,
    batch: &[Request],
) -> Result<Vec<Reply>, Trouble>
    requires { E.ready engine.old }
    ensures { E.ready engine.new }
{
    match engine.batch(rt, alloc, batch) {
        Ok(replies) => Ok(replies),
        Err(Memory) => {
            say_lacking(rt, name);
            ample(engine.batch(rt, alloc, batch))
        }
    }
}

/// Appends the reply to a request. If it is ENOMEM, the request is made again alone, and its new reply is appended.
fn settle<R: Eprint, E: Engine<R>>(
    rt: &R,
    alloc: Global,
    name: &str,
    engine: &mut E,
    request: &Request,
    reply: &Reply,
    out: &mut Vec<u8>,
) -> Result<(), Trouble>
    requires { E.ready engine.old }
    ensures { E.ready engine.new }
{
    if reply.status != Status::NoMemory {
        write_reply(out, reply)?;
        return Ok(());
    }
    say_lacking(rt, name);
    for reply in batched(rt, alloc, name, engine, slice::from_ref(request))?.iter() {
        write_reply(out, reply)?;
    }
    Ok(())
}

/// Runs a batch, and appends the replies. No request of it depends on another, so one that is made again after it gets
/// the reply that it would have got in it.
fn answer<R: Eprint, E: Engine<R>>(
    rt: &R,
    alloc: Global,
    name: &str,
    engine: &mut E,
    batch: &[Request],
    out: &mut Vec<u8>,
) -> Result<(), Trouble>
    requires { E.ready engine.old }
    ensures { E.ready engine.new }
{
    let replies = batched(rt, alloc, name, engine, batch)?;
    for (request, reply) in batch.iter().zip(replies.iter()) {
        settle(rt, alloc, name, engine, request, reply, out)?;
    }
    Ok(())
}

/// Returns the reply lines of all requests, which run in batches of two.
fn lines<R: Eprint, E: Engine<R>>(
    rt: &R,
    alloc: Global,
    name: &str,
    engine: &mut E,
) -> Result<Vec<u8>, Trouble>
    requires { E.ready engine.old }
{
    let texts = Texts::new(alloc)?;
    let requests = requests(alloc, &texts)?;
    let mut out = Vec::new(alloc);
    for batch in requests.chunks(2) {
        answer(rt, alloc, name, engine, batch, &mut out)?;
    }
    Ok(show_replies(alloc, &out)?)
}

/// Returns the reply lines of a world that compiles each text.
pub fn tell_world<R: Eprint>(rt: &R, alloc: Global) -> Result<Vec<u8>, Trouble> {
    lines(rt, alloc, "World::batch", &mut World::new(alloc))
}

/// Returns the reply lines of a world with a cache.
pub fn tell_world_with<R: Eprint + Wait>(rt: &R, alloc: Global) -> Result<Vec<u8>, Trouble> {
    let cached = again!(rt, "Cached::new", Cached::new(alloc))?;
    let mut engine = WorldWith::new(alloc, cached);
    lines(rt, alloc, "WorldWith::batch", &mut engine)
}

/// A pool of two workers with a cache.
fn new_pool(alloc: Global) -> Result<Pool<Cached, Open>, Memory> {
    Pool::new(alloc, 2, Cached::new(alloc)?, Open)
}

/// Returns the reply lines of a pool, which compiles uploads on two threads.
pub fn tell_pool<R: Eprint + Threads + Wait + Sync>(
    rt: &R,
    alloc: Global,
) -> Result<Vec<u8>, Trouble> {
    let mut pool = again!(rt, "Pool::new", new_pool(alloc))?;
    lines(rt, alloc, "Pool::batch", &mut pool)
}
