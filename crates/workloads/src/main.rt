//! Jobs that users wait for, on inputs that it makes itself from a seed: `workloads JOB COUNT SEED` does a job so many times, and prints how
//! many bytes were written and a digest of them. The job `each` is all of them. `bench/run` times it.
#![tactic(auto)]

mod alphabet;
mod charmap;
mod digest;
mod form;
mod frames;
mod jobs;
mod language;
mod maps;
mod random;
mod stock;

use cv_commands::{RunFault, status};
use cv_pool::keep_memory;
use digest::Digest;
use jobs::{awkward, gateway, import, legacy, scripts, uploads};
use random::Random;
use std::process::ExitCode;
use std::random::RandomSource;
use std::rt::Env;
use std::sync::Wait;
use std::thread::Threads;
use std::{env, io};

/// What is to be done, how often, and on which input.
#[derive(Clone, Copy)]
struct Asked<'a> {
    job: &'a str,
    count: u32,
    seed: u32,
}

fn read_words(words: &[String]) -> Option<Asked<'_>> {
    let [_, job, count, seed] = words else {
        return None;
    };
    Some(Asked {
        job: job.as_str(),
        count: count.parse::<u32>().ok()?,
        seed: seed.parse::<u32>().ok()?,
    })
}

/// Does a job. `None`: there is no such job.
fn done<R: AllocGlobal + RandomSource + Threads + Wait + Sync>(
    rt: &R,
    asked: Asked<'_>,
) -> Result<Option<Digest>, RunFault> {
    let alloc = rt.alloc();
    keep_memory(alloc);
    let random = &mut Random::new(asked.seed, 1);
    let digest = match asked.job {
        "gateway" => gateway(rt, alloc, asked.count, random)?,
        "import" => import(rt, alloc, asked.count, random)?,
        "uploads" => uploads(rt, alloc, asked.count, random)?,
        "legacy" => legacy(rt, alloc, asked.count, random)?,
        "scripts" => scripts(rt, alloc, asked.count, random)?,
        "awkward" => awkward(rt, alloc, asked.count, random)?,
        _ => return Ok(None),
    };
    Ok(Some(digest))
}

/// All jobs.
const JOBS: [&str; 6] = [
    "gateway", "import", "uploads", "legacy", "scripts", "awkward",
];

/// Does a job, prints what came of it, and gives the exit status.
fn tell<R: Print + AllocGlobal + RandomSource + Threads + Wait + Sync>(
    rt: &R,
    asked: Asked<'_>,
) -> io::Result<u8> {
    match done(rt, asked) {
        Ok(Some(digest)) => {
            let (job, length, sum) = (asked.job, digest.length(), digest.sum());
            println!(rt; "{job}: {length} bytes, {sum:016x}")?;
            Ok(0)
        }
        Ok(None) => {
            println!(rt; "no such job")?;
            Ok(2)
        }
        Err(fault) => {
            println!(rt; "{fault}")?;
            Ok(status(&fault))
        }
    }
}

/// Does what its words ask: a job, or each of them. It gives the exit status of the last.
fn run<R: Env + Print + AllocGlobal + RandomSource + Threads + Wait + Sync>(
    rt: &R,
) -> io::Result<u8> {
    let words: Vec<String> = env::args(rt)?.collect(rt.alloc())?;
    let Some(asked) = read_words(&words) else {
        println!(rt; "workloads gateway|import|uploads|legacy|scripts|awkward|each COUNT SEED")?;
        return Ok(2);
    };
    if asked.job != "each" {
        return tell(rt, asked);
    }
    let mut status = 0;
    for job in JOBS {
        status = tell(rt, Asked { job, ..asked })?;
    }
    Ok(status)
}

fn main(rt: HostRuntime) -> io::Result<ExitCode> {
    Ok(ExitCode::from(run(&rt)?))
}
