//! Measures how long conversions take. It prints figures only if it is given its arguments. See `bench/pairs`.
#![tactic(auto)]

mod measure;

use cv_base::Policy;
use measure::{Asked, measure};
use std::alloc::{AllocError, Global};
use std::process::ExitCode;
use std::rt::{Clock, Env};
use std::{env, io};

fn number(word: &str) -> Option<u64> {
    word.parse::<u64>().ok()
}

fn policy(word: &str) -> Option<Policy> {
    match word {
        "substitute" => Some(Policy::Substitute),
        "strict" => Some(Policy::Strict),
        _ => None,
    }
}

fn size(word: &str) -> Option<usize> {
    usize::try_from(number(word)?).ok()
}

fn asked<'a>(words: &[&'a str]) -> Option<Asked<'a>> {
    let [_, to, from, call, rounds, how, charmap] = words else {
        return None;
    };
    Some(Asked {
        to,
        from,
        policy: policy(how)?,
        call: size(call)?,
        rounds: number(rounds)?,
        charmap: size(charmap)?,
    })
}

fn words_of(alloc: Global, owned: &[String]) -> Result<Vec<&str>, AllocError> {
    owned.iter().map(|word| word.as_str()).collect(alloc)
}

fn bench<R: Env + Clock + Input + Print + AllocGlobal>(rt: &R) -> io::Result<()> {
    let alloc = rt.alloc();
    let owned: Vec<String> = env::args(rt)?.collect(alloc)?;
    let words = words_of(alloc, &owned)?;
    let Some(asked) = asked(&words) else {
        return println!(rt;
            "bench_convert TO FROM CALL ROUNDS substitute|strict SIZE: on standard input SIZE bytes of a charmap, \
            which TO or FROM 'charmap' is, and the text"
        );
    };
    match measure(rt, &asked)? {
        Some(spent) => println!(rt; "{spent}"),
        None => println!(rt; "no such conversion"),
    }
}

fn main(rt: HostRuntime) -> io::Result<ExitCode> {
    bench(&rt)?;
    Ok(ExitCode::SUCCESS)
}
