//! Each library call that allocates memory. A call is made again if an allocation failed in it. Whichever allocation
//! fails, standard output is the same as if none does. Standard error has the name of the call that was made again. See
//! `tools/refuse/sweep.py`.
#![tactic(auto)]

/// Makes a call, and makes it once more if an allocation failed. There is memory then, so any error is a fault. The
/// result is a `Result` whose error is a `Trouble`.
macro_rules! again {
    ($rt:expr, $name:expr, $call:expr) => {
        match $call {
            Ok(told) => Ok(told),
            Err(e) => match Trouble::from(e) {
                Trouble::Fault => Err(Trouble::Fault),
                Trouble::Memory => {
                    say_lacking($rt, $name);
                    match $call {
                        Ok(told) => Ok(told),
                        Err(_) => Err(Trouble::Fault),
                    }
                }
            },
        }
    };
}

mod again;
mod asked;
mod cache;
mod charmaps;
mod commands;
mod convs;
mod engines;
mod frames;
mod kinds;
mod lines;
mod serving;
mod texts;
mod worlds;

use again::{Trouble, say_lacking};
use kinds::Kind;
use serving::Way;
use std::alloc::Global;
use std::io::{self, Write};
use std::process::ExitCode;
use std::random::RandomSource;
use std::sync::Wait;
use std::thread::Threads;

/// The calls that one part of the output is about.
#[derive(Clone, Copy)]
enum Layer {
    Frames,
    Charmaps,
    Cache,
    Steps,
    Answers,
    World,
    WorldWith,
    Pool,
    Convs,
    /// An engine of this kind, which is asked in this way.
    Asked(Kind, Way),
    AskScript,
    ShowReplies,
    RunScript,
    RunByTwo,
    CheckText,
}

const LAYERS: [(Layer, &str); 24] = [
    (Layer::Frames, "frames"),
    (Layer::Charmaps, "charmaps"),
    (Layer::Cache, "cache"),
    (Layer::Steps, "World, by steps"),
    (Layer::Answers, "World, by requests"),
    (Layer::World, "World, by batches"),
    (Layer::WorldWith, "WorldWith"),
    (Layer::Pool, "Pool"),
    (Layer::Convs, "World, CONVs appended"),
    (
        Layer::Asked(Kind::World, Way::Appended),
        "World::batch_into",
    ),
    (
        Layer::Asked(Kind::WithCache, Way::Appended),
        "WorldWith::batch_into",
    ),
    (
        Layer::Asked(Kind::TwoWorkers, Way::Appended),
        "Pool::batch_into",
    ),
    (Layer::Asked(Kind::World, Way::Through), "serve"),
    (
        Layer::Asked(Kind::WithCache, Way::Through),
        "serve, WorldWith",
    ),
    (Layer::Asked(Kind::TwoWorkers, Way::Through), "serve, Pool"),
    (Layer::Asked(Kind::World, Way::InMemory), "serve_bytes"),
    (
        Layer::Asked(Kind::HoldingOne, Way::Appended),
        "WorldWith::batch_into, a text held",
    ),
    (
        Layer::Asked(Kind::HoldingTwo, Way::Appended),
        "Pool::batch_into, a text held",
    ),
    (
        Layer::Asked(Kind::HoldingOne, Way::Through),
        "serve, a text held",
    ),
    (Layer::AskScript, "ask_script"),
    (Layer::ShowReplies, "show_replies"),
    (Layer::RunScript, "run_script"),
    (Layer::RunByTwo, "run_script, two workers"),
    (Layer::CheckText, "check_text"),
];

fn tell<R: Eprint + RandomSource + Threads + Wait + Sync>(
    rt: &R,
    alloc: Global,
    layer: Layer,
    name: &str,
) -> Result<Vec<u8>, Trouble> {
    match layer {
        Layer::Frames => frames::tell(rt, alloc),
        Layer::Charmaps => charmaps::tell(rt, alloc),
        Layer::Cache => cache::tell(rt, alloc),
        Layer::Steps => worlds::tell_steps(rt, alloc),
        Layer::Answers => worlds::tell_answers(rt, alloc),
        Layer::World => engines::tell_world(rt, alloc),
        Layer::WorldWith => engines::tell_world_with(rt, alloc),
        Layer::Pool => engines::tell_pool(rt, alloc),
        Layer::Convs => convs::tell(alloc),
        Layer::Asked(kind, way) => serving::tell(rt, alloc, kind, way, name),
        Layer::AskScript => commands::tell_ask(rt, alloc),
        Layer::ShowReplies => commands::tell_show(rt, alloc),
        Layer::RunScript => commands::tell_run(rt, alloc, 1),
        Layer::RunByTwo => commands::tell_run(rt, alloc, 2),
        Layer::CheckText => commands::tell_check(rt, alloc),
    }
}

/// Prints the result of a layer. If an allocation failed for what its calls are given, the whole layer is run again.
fn show<R: Print + Eprint + RandomSource + Threads + Wait + Sync>(
    rt: &R,
    alloc: Global,
    layer: Layer,
    name: &str,
) -> io::Result<()> {
    let mut told = tell(rt, alloc, layer, name);
    if matches!(&told, Err(Trouble::Memory)) {
        say_lacking(rt, "what calls are given");
        told = tell(rt, alloc, layer, name);
    }
    println!(rt; "{name}:")?;
    match told {
        Ok(lines) => io::writer(rt).write_all(&lines),
        Err(_) => println!(rt; "another answer"),
    }
}

fn show_all<R: Print + Eprint + RandomSource + Threads + Wait + Sync + AllocGlobal>(
    rt: &R,
) -> io::Result<()> {
    let alloc = rt.alloc();
    for (layer, name) in LAYERS {
        show(rt, alloc, layer, name)?;
    }
    Ok(())
}

fn main(rt: HostRuntime) -> io::Result<ExitCode> {
    show_all(&rt)?;
    Ok(ExitCode::SUCCESS)
}
