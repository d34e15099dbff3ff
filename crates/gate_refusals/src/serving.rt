//! Batches whose replies are appended, and streams, with engines of each kind.

use crate::again::{Trouble, has_refusal, say_lacking};
use crate::asked::{Texts, requests};
use crate::kinds::{Kind, Lacking};
use cv_base::Memory;
use cv_cache::Cached;
use cv_commands::show_replies;
use cv_frame::{Ask, Request, write_request};
use cv_loop::{Engine, FromReader, ServeFault, ToWriter, WorldWith, serve, serve_bytes};
use cv_pool::{Open, Pool};
use cv_world::{Replies, World};
use std::alloc::Global;
use std::sync::Wait;
use std::thread::Threads;

/// The most reads of a stream.
const MAX_READS: u64 = 10;

/// At least the size of all replies in bytes.
const ROOM: usize = 1_000;

/// Whether an engine answered all requests, and the frames that it wrote.
type Outcome = (Result<(), ServeFault>, Vec<u8>);

/// The frames of requests.
fn frames(alloc: Global, requests: &[Request]) -> Result<Vec<u8>, Memory> {
    let mut frames = Vec::new(alloc);
    for request in requests {
        let ask = Ask::Raw {
            op: request.op,
            body: request.body,
        };
        write_request(&mut frames, request.caller, request.tag, &ask)?;
    }
    Ok(frames)
}

/// How an engine is asked.
#[derive(Clone, Copy)]
pub enum Way {
    /// By batches of two requests.
    Appended,
    /// By a stream from a reader to a writer that has its room already, so that no write fails.
    Through,
    /// By a stream in memory.
    InMemory,
}

/// Appends the replies of an engine to batches of two requests, up to a batch that fails for memory.
fn appended<R, E: Engine<R>>(
    rt: &R,
    alloc: Global,
    engine: &mut E,
    requests: &[Request],
    replies: &mut Replies,
) -> Result<(), Memory>
    requires { E.ready engine.old }
{
    for batch in requests.chunks(2) {
        engine.batch_into(rt, alloc, batch, replies)?;
    }
    Ok(())
}

impl Way {
    /// Asks an engine in this way.
    fn ask<R, E: Engine<R>>(
        self,
        rt: &R,
        alloc: Global,
        engine: &mut E,
        requests: &[Request],
    ) -> Result<Outcome, Trouble>
        requires { E.ready engine.old }
    {
        let frames = frames(alloc, requests)?;
        let mut written = Vec::new(alloc);
        written.reserve(ROOM)?;
        match self {
            Way::Appended => {
                let mut replies = Replies::new(alloc);
                let told = appended(rt, alloc, engine, requests, &mut replies);
                written.extend_from_slice(replies.as_slice())?;
                Ok((told.map_err(|_| ServeFault::Memory), written))
            }
            Way::Through => {
                let mut source = FromReader::new(frames.as_slice());
                let mut sink = ToWriter::new(written);
                let served = serve(engine, rt, alloc, &mut source, &mut sink, MAX_READS);
                Ok((served.map(|_| ()), sink.into_inner()))
            }
            Way::InMemory => {
                let (served, bytes) = serve_bytes(engine, rt, alloc, &frames, MAX_READS);
                Ok((served.map(|_| ()), bytes))
            }
        }
    }
}

/// Asks a new engine of this kind.
fn outcome<R: Threads + Wait + Sync>(
    rt: &R,
    alloc: Global,
    kind: Kind,
    way: Way,
    requests: &[Request],
) -> Result<Outcome, Trouble> {
    if matches!(kind, Kind::World) {
        return way.ask(rt, alloc, &mut World::new(alloc), requests);
    }
    let cached = Cached::new(alloc)?;
    kind.fill(rt, alloc, &cached)?;
    if kind.has_threads() {
        let mut pool = Pool::new(alloc, 2, &cached, Open)?;
        way.ask(rt, alloc, &mut pool, requests)
    } else {
        way.ask(rt, alloc, &mut WorldWith::new(alloc, &cached), requests)
    }
}

/// Returns the lines of what an engine writes. If an allocation failed, a new engine is asked the same. If the first
/// one broke off, what it wrote must be a prefix of what the new one writes.
pub fn tell<R: Eprint + Threads + Wait + Sync>(
    rt: &R,
    alloc: Global,
    kind: Kind,
    way: Way,
    name: &str,
) -> Result<Vec<u8>, Trouble> {
    let texts = Texts::new(alloc)?;
    let requests = requests(alloc, &texts)?;
    let (told, written) = outcome(rt, alloc, kind, way, &requests)?;
    let lines = show_replies(alloc, &written)?;
    let lacking = Lacking::of(told, has_refusal(&lines));
    match lacking {
        Lacking::Nothing => return Ok(lines),
        _ if !kind.may(way, lacking) => return Err(Trouble::Fault),
        _ => say_lacking(rt, name),
    }
    let (again, whole) = outcome(rt, alloc, kind, way, &requests)?;
    let is_front = told.is_ok() || whole.starts_with(&written);
    if again.is_err() || !is_front {
        return Err(Trouble::Fault);
    }
    Ok(show_replies(alloc, &whole)?)
}
