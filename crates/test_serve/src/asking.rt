//! Three ways to ask an engine.
use cv_base::Memory;
use cv_frame::{Reply, Request, write_reply};
use cv_loop::{Engine, FromReader, Served, ToWriter, serve};
use cv_world::Replies;
use std::alloc::{AllocError, Global};
use std::test::Fail;
use test_support::push_frame;

/// How an engine is asked.
#[derive(Clone, Copy, Debug)]
pub enum Way {
    /// By a batch that returns its replies, whose frames are written after it.
    Batch,
    /// By a batch that appends the frames of its replies.
    Appended,
    /// By serving a stream of the requests.
    Served,
}

/// All ways.
pub const WAYS: [Way; 3] = [Way::Batch, Way::Appended, Way::Served];

/// Returns the frames of an engine's replies to requests.
pub fn told<R, E: Engine<R>>(
    rt: &R,
    alloc: Global,
    way: Way,
    engine: &mut E,
    requests: &[Request],
) -> Result<Vec<u8>, Fail>
    requires { E.ready engine.old }
    ensures { E.ready engine.new }
{
    match way {
        Way::Batch => {
            let replies = engine.batch(rt, alloc, requests)?;
            Ok(spelled(alloc, &replies)?)
        }
        Way::Appended => {
            let mut replies = Replies::new(alloc);
            engine.batch_into(rt, alloc, requests, &mut replies)?;
            Ok(Vec::from_slice(alloc, replies.as_slice())?)
        }
        Way::Served => {
            let frames = frames_of(alloc, requests)?;
            let mut reader = FromReader::new(frames.as_slice());
            let mut writer = ToWriter::new(Vec::new(alloc));
            let served = serve(engine, rt, alloc, &mut reader, &mut writer, 1_000)?;
            all_served(served, requests.len())?;
            Ok(writer.into_inner())
        }
    }
}

/// The frames of replies.
fn spelled(alloc: Global, replies: &[Reply]) -> Result<Vec<u8>, Memory> {
    let mut frames = Vec::new(alloc);
    for reply in replies {
        write_reply(&mut frames, reply)?;
    }
    Ok(frames)
}

/// The frames of requests.
fn frames_of(alloc: Global, requests: &[Request]) -> Result<Vec<u8>, AllocError> {
    let mut frames = Vec::new(alloc);
    for request in requests {
        push_frame(
            &mut frames,
            request.caller,
            request.tag,
            request.op,
            request.body,
        )?;
    }
    Ok(frames)
}

fn all_served(served: Served, count: usize) -> Result<(), Fail> {
    if served.requests != count as u64 {
        return Err("not so many requests".into());
    }
    Ok(())
}
