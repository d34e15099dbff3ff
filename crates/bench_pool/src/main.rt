//! Measures how long a pool of 1, 2 and 4 workers takes for a batch. It prints figures only if its argument is a number
//! of rounds: for each kind of batch the microseconds of the fastest round, the first time and again.
#![tactic(auto)]

ghost use Rattle.std.specs.Prelude.{◌≤◌};

mod batches;

use batches::{Kind, byes, opens};
use cv_cache::Cached;
use cv_frame::{Request, Status};
use cv_pool::{Open, Pool, keep_memory};
use std::process::ExitCode;
use std::rt::{Clock, Env};
use std::sync::Wait;
use std::thread::Threads;
use std::time::Instant;
use std::{cmp, env, io};

/// The numbers of workers that are compared.
const WORKERS: [u32; 3] = [1, 2, 4];

/// The nanoseconds that a batch takes. Fails if a reply is not OK.
fn timed<R: Threads + Wait + Sync + Clock + AllocGlobal>(
    rt: &R,
    pool: &mut Pool<Cached, Open>,
    requests: &[Request],
) -> io::Result<u128> {
    let start = Instant::now(rt)?;
    let replies = pool
        .batch(rt, rt.alloc(), requests)
        .map_err(|_| io::ErrorKind::OutOfMemory)?;
    let spent = start.elapsed(rt)?.as_nanos();
    if replies.iter().all(|reply| reply.status == Status::Ok) {
        Ok(spent)
    } else {
        Err(io::ErrorKind::InvalidData.into())
    }
}

/// The nanoseconds that a new pool takes for a batch of one kind: the first time, and again after all callers sent BYE.
fn round<R: Threads + Wait + Sync + Clock + AllocGlobal>(
    rt: &R,
    workers: u32,
    kind: Kind,
) -> io::Result<(u128, u128)>
    requires { (1 ≤ workers) × (workers ≤ 16) }
{
    let alloc = rt.alloc();
    keep_memory(alloc);
    let cached = Cached::new(alloc).map_err(|_| io::ErrorKind::OutOfMemory)?;
    let mut pool = Pool::new(alloc, workers, cached, Open).map_err(|_| io::ErrorKind::OutOfMemory)?;
    let bodies = kind.bodies(alloc)?;
    let requests = kind.requests(alloc, &bodies)?;
    timed(rt, &mut pool, &opens(alloc)?)?;
    let first = timed(rt, &mut pool, &requests)?;
    timed(rt, &mut pool, &byes(alloc)?)?;
    timed(rt, &mut pool, &opens(alloc)?)?;
    let again = timed(rt, &mut pool, &requests)?;
    Ok((first, again))
}

/// The nanoseconds of the fastest of `rounds` rounds.
fn fastest<R: Threads + Wait + Sync + Clock + AllocGlobal>(
    rt: &R,
    workers: u32,
    kind: Kind,
    rounds: u64,
) -> io::Result<(u128, u128)>
    requires { (1 ≤ workers) × (workers ≤ 16) }
{
    let mut least = (u128::MAX, u128::MAX);
    for _round in 0..rounds {
        let (first, again) = round(rt, workers, kind)?;
        least = (cmp::min(least.0, first), cmp::min(least.1, again));
    }
    Ok(least)
}

fn rounds_of(words: &[String]) -> Option<u64> {
    let [_, rounds] = words else {
        return None;
    };
    rounds.parse::<u64>().ok()
}

fn bench<R: Threads + Wait + Sync + Env + Clock + Print + AllocGlobal>(rt: &R) -> io::Result<()> {
    let words: Vec<String> = env::args(rt)?.collect(rt.alloc())?;
    let Some(rounds) = rounds_of(&words) else {
        return println!(rt; "bench_pool ROUNDS: how long a pool takes for a batch");
    };
    for kind in [Kind::Small, Kind::Large, Kind::Uploads] {
        for workers in WORKERS {
            let (first, again) = fastest(rt, workers, kind, rounds)?;
            let (first, again) = (first / 1_000, again / 1_000);
            println!(rt; "{kind}, {workers} workers: {first} microseconds, again {again}")?;
        }
    }
    Ok(())
}

fn main(rt: HostRuntime) -> io::Result<ExitCode> {
    bench(&rt)?;
    Ok(ExitCode::SUCCESS)
}
