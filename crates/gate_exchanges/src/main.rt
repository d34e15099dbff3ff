//! Runs the scripts on standard input. There is an empty line between them, and each begins with a comment that says
//! what it shows. It prints the comment and the reply lines of each script, which the gate compares. It prints a line
//! more if several workers, or a stream that is served, give other replies.
#![tactic(auto)]

ghost use Rattle.std.specs.Prelude.{◌≤◌};

use cv_commands::{
    RunFault, ask_script, read_all, run_script, serve_stream, show_replies, status, write_all,
};
use cv_loop::{FromReader, ToWriter};
use std::alloc::Global;
use std::io;
use std::process::ExitCode;
use std::random::RandomSource;
use std::sync::Wait;
use std::thread::Threads;

/// The reply lines of a script whose frames are served as a stream by `workers` workers.
fn streamed<R: RandomSource + Threads + Wait + Sync>(
    rt: &R,
    alloc: Global,
    script: &[u8],
    workers: u32,
) -> Result<Vec<u8>, RunFault>
    requires { (1 ≤ workers) × (workers ≤ 16) }
{
    let requests = ask_script(alloc, script)?;
    let mut source = FromReader::new(requests.as_slice());
    let mut sink = ToWriter::new(Vec::new(alloc));
    serve_stream(rt, alloc, &mut source, &mut sink, workers)?;
    show_replies(alloc, &sink.into_inner())
}

/// Whether `workers` workers answer a script with these lines, as a script and as a stream.
fn answers<R: RandomSource + Threads + Wait + Sync>(
    rt: &R,
    alloc: Global,
    script: &[u8],
    lines: &[u8],
    workers: u32,
) -> Result<bool, RunFault>
    requires { (1 ≤ workers) × (workers ≤ 16) }
{
    let at_once = run_script(rt, alloc, script, workers)?;
    let read = streamed(rt, alloc, script, workers)?;
    Ok(at_once.as_slice() == lines && read.as_slice() == lines)
}

/// What is printed for a script.
fn told<R: RandomSource + Threads + Wait + Sync>(
    rt: &R,
    alloc: Global,
    script: &str,
) -> Result<Vec<u8>, RunFault> {
    let lines = run_script(rt, alloc, script.as_bytes(), 1)?;
    let mut told = Vec::new(alloc);
    told.extend_from_slice(script.lines().next().unwrap_or("").as_bytes())?;
    told.push(b'\n')?;
    told.extend_from_slice(&lines)?;
    for workers in [1, 2, 16] {
        if !answers(rt, alloc, script.as_bytes(), &lines, workers)? {
            told.extend_from_slice(b"otherwise by several workers, or as a stream\n")?;
        }
    }
    Ok(told)
}

fn tell<R: Input + Print + AllocGlobal + RandomSource + Threads + Wait + Sync>(
    rt: &R,
) -> Result<(), RunFault> {
    let alloc = rt.alloc();
    let text = read_all(alloc, rt.reader())?;
    let scripts = str::from_utf8(&text).unwrap_or("");
    for script in scripts.split("\n\n") {
        write_all(io::writer(rt), &told(rt, alloc, script)?)?;
    }
    Ok(())
}

fn main(rt: HostRuntime) -> ExitCode {
    match tell(&rt) {
        Ok(()) => ExitCode::SUCCESS,
        Err(fault) => ExitCode::from(status(&fault)),
    }
}
