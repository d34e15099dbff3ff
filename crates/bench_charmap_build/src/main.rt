//! Measures how long it takes to build a charmap, and to read and write with it. It prints figures only if its argument
//! is a number of rounds. For each round it prints the nanoseconds of building and the number of pairs, and then the
//! nanoseconds of reading and of writing half a million pseudorandom characters of the charmap.
#![tactic(auto)]

use cv_base::{BlockCodec, Policy, ReadState, Scalar, WriteState};
use cv_charmap::{CompileFault, Pairs, read};
use cv_trie::Charmap;
use std::alloc::{AllocError, Global};
use std::io::Read;
use std::process::ExitCode;
use std::rt::{Clock, Env};
use std::time::Instant;
use std::{env, io};

/// How many characters are read and written.
const CHARACTERS: u32 = 500_000;

/// Pseudorandom characters, and the bytes of their pairs.
#[derive(Drop)]
struct Sample {
    bytes: Vec<u8>,
    characters: Vec<Scalar>,
}

fn drawn(alloc: Global, pairs: &Pairs) -> Result<Sample, AllocError> {
    let mut bytes = Vec::new(alloc);
    let mut characters = Vec::new(alloc);
    let mut chance = 1u64;
    for _ in 0..CHARACTERS {
        chance = chance
            .wrapping_mul(6_364_136_223_846_793_005)
            .wrapping_add(1_442_695_040_888_963_407);
        let place = (chance >> 33) as usize % pairs.len().max(1);
        if let Some(pair) = pairs.get(place) {
            bytes.extend_from_slice(pair.bytes())?;
            characters.push(pair.character())?;
        }
    }
    Ok(Sample { bytes, characters })
}

/// Reads all bytes by blocks, and returns how many characters they are.
fn read_all(map: &Charmap, bytes: &[u8]) -> usize {
    let mut rest = bytes;
    let mut buffer = [Scalar::substitute(); 64];
    let mut count = 0usize;
    for _ in 0..bytes.len() {
        let block = map.read_block(ReadState::Start, rest, &mut buffer);
        if block.n == 0 {
            break;
        }
        count = count.saturating_add(block.n);
        rest = rest.get(block.used..).unwrap_or(&[]);
    }
    count
}

/// Writes all characters by blocks of 64, and returns how many bytes they have. The last block is filled up with
/// characters of the one before.
fn write_all(map: &Charmap, characters: &[Scalar]) -> usize {
    let mut block = [Scalar::substitute(); 64];
    let mut out = [0u8; 512];
    let mut count = 0usize;
    for chunk in characters.chunks(64) {
        for (place, character) in block.iter_mut().zip(chunk) {
            *place = *character;
        }
        let written = map.write_block(Policy::Substitute, WriteState::Start, &block, &mut out, 0);
        count = count.saturating_add(written.map_or(0, |block| block.wrote));
    }
    count
}

fn pairs_of(alloc: Global, text: &[u8]) -> io::Result<Pairs> {
    match read(alloc, text) {
        Ok(pairs) => Ok(pairs),
        Err(CompileFault::Map(_)) => Err(io::ErrorKind::InvalidData.into()),
        Err(CompileFault::Memory) => Err(io::ErrorKind::OutOfMemory.into()),
    }
}

fn map_of(alloc: Global, pairs: Pairs) -> io::Result<Charmap> {
    Charmap::build(alloc, pairs).map_err(|_| io::ErrorKind::OutOfMemory.into())
}

/// Builds the charmap, and prints the nanoseconds and the number of pairs before it is dropped.
fn build<R: Clock + Print + AllocGlobal>(rt: &R, text: &[u8]) -> io::Result<()> {
    let pairs = pairs_of(rt.alloc(), text)?;
    let start = Instant::now(rt)?;
    let map = map_of(rt.alloc(), pairs)?;
    let spent = start.elapsed(rt)?.as_nanos();
    println!(rt; "build {spent} {}", map.len())
}

/// The nanoseconds of reading and of writing a sample.
fn convert<R: Clock + AllocGlobal>(rt: &R, text: &[u8]) -> io::Result<(u128, u128)> {
    let pairs = pairs_of(rt.alloc(), text)?;
    let sample = drawn(rt.alloc(), &pairs)?;
    let map = map_of(rt.alloc(), pairs)?;
    let start = Instant::now(rt)?;
    let count = read_all(&map, &sample.bytes);
    let read = start.elapsed(rt)?.as_nanos();
    let start = Instant::now(rt)?;
    let wrote = write_all(&map, &sample.characters);
    let written = start.elapsed(rt)?.as_nanos();
    if count != sample.characters.len() || wrote == 0 {
        return Err(io::ErrorKind::InvalidData.into());
    }
    Ok((read, written))
}

fn round<R: Clock + Print + AllocGlobal>(rt: &R, text: &[u8]) -> io::Result<()> {
    build(rt, text)?;
    let (read, written) = convert(rt, text)?;
    println!(rt; "read {read} write {written}")
}

fn rounds_of(words: &[String]) -> Option<u64> {
    let [_, rounds] = words else {
        return None;
    };
    rounds.parse::<u64>().ok()
}

fn bench<R: Env + Clock + Input + Print + AllocGlobal>(rt: &R) -> io::Result<()> {
    let words: Vec<String> = env::args(rt)?.collect(rt.alloc())?;
    let Some(rounds) = rounds_of(&words) else {
        return println!(rt; "bench_charmap_build ROUNDS: the charmap on standard input");
    };
    let mut text = Vec::new(rt.alloc());
    rt.reader().read_to_end(&mut text)?;
    for _round in 0..rounds {
        round(rt, &text)?;
    }
    Ok(())
}

fn main(rt: HostRuntime) -> io::Result<ExitCode> {
    bench(&rt)?;
    Ok(ExitCode::SUCCESS)
}
