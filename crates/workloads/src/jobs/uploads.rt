//! Uploads: charmaps that nobody sent before, and one that another caller sent before.

use super::serve;
use crate::alphabet::Kind;
use crate::charmap::{charmap_head, charmap_mappings};
use crate::digest::Digest;
use crate::frames::Frames;
use crate::random::Random;
use cv_cache::{Cached, HashKeys};
use cv_commands::RunFault;
use std::alloc::{AllocError, Global};
use std::random::RandomSource;
use std::sync::Wait;
use std::thread::Threads;

/// Who uploads what.
const KINDS: [(u32, &str, Kind); 9] = [
    (1, "WINDOWS", Kind::Western),
    (1, "CYRILLIC", Kind::Cyrillic),
    (1, "KOREAN", Kind::Korean),
    (1, "WINDOWS-2", Kind::Western),
    (2, "CYRILLIC", Kind::Cyrillic),
    (2, "CHINESE", Kind::Chinese),
    (2, "WINDOWS", Kind::Western),
    (2, "JAPANESE", Kind::Japanese),
    (UNIFIED, "UNIFIED", Kind::Unified),
];

/// The caller that sends what others sent.
const LATE: u32 = 3;

/// The caller of the charmap with all characters.
const UNIFIED: u32 = 4;

/// How many charmaps of each kind there are.
const TURNS: usize = 4;

/// The mappings of charmaps of a kind.
#[derive(Drop)]
struct Mappings {
    caller: u32,
    name: &'static str,
    kind: Kind,
    texts: Vec<Vec<u8>>,
}

fn mappings_of(
    alloc: Global,
    random: &mut Random,
    caller: u32,
    name: &'static str,
    kind: Kind,
) -> Result<Mappings, AllocError> {
    let mut texts = Vec::new(alloc);
    for _turn in 0..TURNS {
        let turn = random.number();
        texts.push(charmap_mappings(alloc, random, kind, turn)?)?;
    }
    Ok(Mappings {
        caller,
        name,
        kind,
        texts,
    })
}

fn all_mappings(alloc: Global, random: &mut Random) -> Result<Vec<Mappings>, AllocError> {
    let mut all = Vec::new(alloc);
    for (caller, name, kind) in KINDS {
        all.push(mappings_of(alloc, random, caller, name, kind)?)?;
    }
    Ok(all)
}

/// A new head for each of them. Its version is one that no other has, so that nobody has seen the text.
fn new_heads(
    alloc: Global,
    random: &mut Random,
    all: &[Mappings],
) -> Result<Vec<Vec<u8>>, AllocError> {
    let mut heads = Vec::new(alloc);
    for mappings in all {
        heads.push(charmap_head(alloc, mappings.kind, mappings.name, random.number())?)?;
    }
    Ok(heads)
}

/// Two callers upload charmaps, and a third one some of them again. In one stream of three a caller uploads one with all characters, in parts.
fn stream<'a>(
    alloc: Global,
    random: &mut Random,
    all: &'a [Mappings],
    heads: &'a [Vec<u8>],
    large: bool,
) -> Result<Frames<'a>, AllocError> {
    let mut frames = Frames::new(alloc);
    for (mappings, head) in all.iter().zip(heads) {
        let (caller, name) = (mappings.caller, mappings.name);
        let Some(text) = mappings.texts.get(random.below(TURNS)) else {
            continue;
        };
        if caller == UNIFIED && !large {
            continue;
        }
        frames.put(caller, head, text)?;
        if caller != UNIFIED && random.is_one_in(4) {
            frames.put(LATE, head, text)?;
            frames.open(alloc, LATE, "UTF-8", name, false)?;
            frames.close(LATE)?;
            frames.drop_map(alloc, LATE, name)?;
        }
    }
    for caller in [1, 2, LATE, UNIFIED] {
        frames.bye(caller)?;
    }
    Ok(frames)
}

/// So many streams of uploads.
pub fn uploads<R: RandomSource + Threads + Wait + Sync>(
    rt: &R,
    alloc: Global,
    count: u32,
    random: &mut Random,
) -> Result<Digest, RunFault> {
    let all = all_mappings(alloc, random)?;
    let cached = Cached::with_keys(alloc, HashKeys::drawn(rt))?;
    let mut digest = Digest::new();
    for number in 0..count {
        let heads = new_heads(alloc, random, &all)?;
        let frames = stream(alloc, random, &all, &heads, number % 3 == 2)?;
        serve(rt, alloc, &cached, &frames, &mut digest)?;
    }
    Ok(digest)
}
