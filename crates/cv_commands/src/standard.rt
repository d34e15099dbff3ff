//! The commands that read standard input and write standard output.
ghost use Rattle.std.specs.Prelude.{◌≤◌};

use crate::fault::RunFault;
use crate::input::read_all;
use crate::output::write_all;
use crate::patient::Patient;
use crate::replies::show_replies;
use crate::script::ask_script;
use crate::served_script::run_script;
use crate::stream::{StreamTerms, serve_stream_within};
use cv_cache::{Cached, HashKeys};
use cv_loop::{FromReader, ToWriter};
use cv_pool::keep_memory;
use cv_world::{Budget, UNLIMITED};
use std::io;
use std::random::RandomSource;
use std::sync::Wait;
use std::thread::Threads;

/// Runs `run`: reads a script from standard input, serves it by a new pool of 1 to 16 workers, and prints the reply
/// lines.
pub fn run<R: Input + Print + AllocGlobal + RandomSource + Threads + Wait + Sync>(
    rt: &R,
    workers: u32,
) -> Result<(), RunFault>
    requires { (1 ≤ workers) × (workers ≤ 16) }
{
    let script = read_all(rt.alloc(), rt.reader())?;
    run_given(rt, &script, workers)
}

/// Runs `run` with a script that was already read.
pub fn run_given<R: Print + AllocGlobal + RandomSource + Threads + Wait + Sync>(
    rt: &R,
    script: &[u8],
    workers: u32,
) -> Result<(), RunFault>
    requires { (1 ≤ workers) × (workers ≤ 16) }
{
    let lines = run_script(rt, rt.alloc(), script, workers)?;
    write_all(io::writer(rt), &lines)?;
    Ok(())
}

/// Runs `ask`: reads a script from standard input, and writes its request frames.
pub fn ask<R: Input + Print + AllocGlobal>(rt: &R) -> Result<(), RunFault> {
    let script = read_all(rt.alloc(), rt.reader())?;
    ask_given(rt, &script)
}

/// Runs `ask` with a script that was already read.
pub fn ask_given<R: Print + AllocGlobal>(rt: &R, script: &[u8]) -> Result<(), RunFault> {
    let frames = ask_script(rt.alloc(), script)?;
    write_all(io::writer(rt), &frames)?;
    Ok(())
}

/// Runs `pipe`: serves the request frames of standard input by a new pool of 1 to 16 workers, and writes the reply
/// frames. The replies to all whole frames that were read are written before it reads on. Standard input and output may
/// be non-blocking.
pub fn pipe<R: Input + Print + AllocGlobal + RandomSource + Threads + Wait + Sync>(
    rt: &R,
    workers: u32,
) -> Result<(), RunFault>
    requires { (1 ≤ workers) × (workers ≤ 16) }
{
    pipe_within(rt, workers, UNLIMITED)
}

/// Runs `pipe` with a budget for what its callers hold.
pub fn pipe_within<R: Input + Print + AllocGlobal + RandomSource + Threads + Wait + Sync>(
    rt: &R,
    workers: u32,
    budget: Budget,
) -> Result<(), RunFault>
    requires { (1 ≤ workers) × (workers ≤ 16) }
{
    let alloc = rt.alloc();
    keep_memory(alloc);
    let cached = Cached::with_keys(alloc, HashKeys::drawn(rt))?;
    let mut source = FromReader::new(Patient::input(rt.reader()));
    let mut sink = ToWriter::new(Patient::output(io::writer(rt)));
    let terms = StreamTerms {
        workers,
        budget,
        tally: &(),
    };
    serve_stream_within(rt, alloc, &cached, &mut source, &mut sink, terms)?;
    Ok(())
}

/// Runs `show`: reads reply frames from standard input, and prints their lines.
pub fn show<R: Input + Print + AllocGlobal>(rt: &R) -> Result<(), RunFault> {
    let alloc = rt.alloc();
    let replies = read_all(alloc, rt.reader())?;
    let lines = show_replies(alloc, &replies)?;
    write_all(io::writer(rt), &lines)?;
    Ok(())
}
