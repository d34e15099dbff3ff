//! Serves a script by a new pool.
ghost use Rattle.std.specs.Prelude.{◌≤◌, IfOk, IfErr};
ghost use Rattle.cv_world.specs.Requests.{turn};
ghost use Rattle.cv_world.specs.Worlds.{no_tables};
ghost use Rattle.cv_loop.specs.Serving.{AnswersEach};
ghost use Rattle.cv_commands.specs.Faults.{IsNoFailedWrite, IsNoLine, SaysOfLines};
ghost use Rattle.cv_commands.specs.Served.{AnswersScript};

use crate::fault::RunFault;
use crate::input::MAX_READS;
use crate::replies::show_replies;
use crate::script::ask_script;
use crate::server::new_pool;
use cv_cache::{Cached, HashKeys};
use cv_loop::serve_bytes;
use cv_pool::keep_memory;
use std::alloc::Global;
use std::random::RandomSource;
use std::sync::Wait;
use std::thread::Threads;

/// Serves frames by a new pool, and returns the replies. The frames are freed on return.
fn serve_frames<R: RandomSource + Threads + Wait + Sync>(
    rt: &R,
    alloc: Global,
    frames: Vec<u8>,
    workers: u32,
) -> Result<Vec<u8>, RunFault>
    requires { (1 ≤ workers) × (workers ≤ 16) }
    ensures answered { IfOk result (λ replies. AnswersEach turn no_tables frames.items replies.items) }
    ensures err { IfErr result IsNoFailedWrite }
    ensures line { IfErr result IsNoLine }
{
    keep_memory(alloc);
    let cached = Cached::with_keys(alloc, HashKeys::drawn(rt))?;
    let mut pool = new_pool(alloc, &cached, workers)?;
    let (served, replies) = serve_bytes(&mut pool, rt, alloc, &frames, MAX_READS);
    match served {
        Ok(_) => Ok(replies),
        Err(fault) => Err(RunFault::Serve(fault)),
    }
}

/// Serves a script by a new pool of 1 to 16 workers, and returns the reply lines. They do not depend on the number of
/// workers, unless an allocation fails.
pub fn run_script<R: RandomSource + Threads + Wait + Sync>(
    rt: &R,
    alloc: Global,
    script: &[u8],
    workers: u32,
) -> Result<Vec<u8>, RunFault>
    requires { (1 ≤ workers) × (workers ≤ 16) }
    ensures answers { IfOk result (λ lines. AnswersScript script.now lines.items) }
    ensures fault { SaysOfLines result script.now }
    ensures err { IfErr result IsNoFailedWrite }
{
    let replies = serve_frames(rt, alloc, ask_script(alloc, script)?, workers)?;
    show_replies(alloc, &replies)
}
