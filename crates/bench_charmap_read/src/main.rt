//! Measures how long it takes to read a charmap. It prints figures only if its argument is a number of rounds. See
//! `bench/charmaps`.
#![tactic(auto)]

use cv_charmap::read;
use std::alloc::{AllocError, Global};
use std::io::Read;
use std::process::ExitCode;
use std::rt::{Clock, Env};
use std::time::Instant;
use std::{env, io};

fn rounds_of(words: &[&str]) -> Option<u64> {
    let [_, rounds] = words else {
        return None;
    };
    rounds.parse::<u64>().ok()
}

fn words_of(alloc: Global, owned: &[String]) -> Result<Vec<&str>, AllocError> {
    owned.iter().map(|word| word.as_str()).collect(alloc)
}

/// Prints, for each round, the nanoseconds that reading takes, and the number of pairs or the fault.
fn measure<R: Clock + Input + Print + AllocGlobal>(rt: &R, rounds: u64) -> io::Result<()> {
    let alloc = rt.alloc();
    let mut text = Vec::new(alloc);
    rt.reader().read_to_end(&mut text)?;
    for _round in 0..rounds {
        let start = Instant::now(rt)?;
        let outcome = read(alloc, &text);
        let spent = start.elapsed(rt)?.as_nanos();
        match outcome {
            Ok(pairs) => {
                let count = pairs.len();
                println!(rt; "{spent} {count}")?;
            }
            Err(fault) => println!(rt; "{spent} {fault}")?,
        }
    }
    Ok(())
}

fn bench<R: Env + Clock + Input + Print + AllocGlobal>(rt: &R) -> io::Result<()> {
    let alloc = rt.alloc();
    let owned: Vec<String> = env::args(rt)?.collect(alloc)?;
    let words = words_of(alloc, &owned)?;
    match rounds_of(&words) {
        Some(rounds) => measure(rt, rounds),
        None => println!(rt; "bench_charmap_read ROUNDS: the charmap on standard input"),
    }
}

fn main(rt: HostRuntime) -> io::Result<ExitCode> {
    bench(&rt)?;
    Ok(ExitCode::SUCCESS)
}
