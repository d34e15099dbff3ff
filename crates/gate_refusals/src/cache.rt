//! Charmaps that are kept with their texts.

use crate::again::{Trouble, ample, say_lacking};
use crate::lines::add_count;
use crate::texts::{WHOLE, joined};
use cv_base::Memory;
use cv_cache::{Cached, Compiler, Maps, Plain};
use std::alloc::Global;
use std::sync::{Arc, Wait};

/// Keeps the charmap of a text. If an allocation fails, the charmap is dropped, and what was kept stays.
fn keep<R: Eprint>(rt: &R, alloc: Global, maps: &mut Maps, text: &[u8]) -> Result<(), Trouble> {
    let charmap = again!(rt, "Plain::compile", Plain.compile(&(), alloc, text))?;
    let shared = Arc::try_clone(&charmap)?;
    match maps.keep(alloc, text, charmap) {
        Ok(()) => Ok(()),
        Err(Memory) => {
            say_lacking(rt, "Maps::keep");
            ample(maps.keep(alloc, text, shared))
        }
    }
}

/// How many mappings the charmap has that is kept for a text, or 0 if none is kept.
fn look<R: Eprint>(rt: &R, maps: &mut Maps, text: &[u8]) -> Result<usize, Trouble> {
    match again!(rt, "Maps::look", maps.look(text))? {
        Some(charmap) => Ok(charmap.len()),
        None => Ok(0),
    }
}

/// Keeps two texts, and finds them.
fn tell_maps<R: Eprint>(
    rt: &R,
    alloc: Global,
    text: &[u8],
    lines: &mut Vec<u8>,
) -> Result<(), Trouble> {
    let mut maps = again!(rt, "Maps::new", Maps::new(alloc))?;
    keep(rt, alloc, &mut maps, text)?;
    keep(rt, alloc, &mut maps, WHOLE)?;
    add_count(alloc, lines, "Maps, first", look(rt, &mut maps, text)?)?;
    add_count(alloc, lines, "Maps, second", look(rt, &mut maps, WHOLE)?)?;
    add_count(alloc, lines, "Maps, found", maps.found() as usize)?;
    Ok(())
}

/// Compiles a text with a cache, and returns how many mappings it has.
fn compiled<R: Eprint + Wait>(
    rt: &R,
    alloc: Global,
    cached: &Cached,
    text: &[u8],
) -> Result<usize, Trouble> {
    let charmap = again!(rt, "Cached::compile", cached.compile(rt, alloc, text))?;
    Ok(charmap.len())
}

/// Compiles a text until the cache holds it, and tells how often it was found. A cache that has no memory to keep a
/// text returns its charmap all the same, and keeps it the next time.
fn tell_cached<R: Eprint + Wait>(
    rt: &R,
    alloc: Global,
    text: &[u8],
    lines: &mut Vec<u8>,
) -> Result<(), Trouble> {
    let cached = again!(rt, "Cached::new", Cached::new(alloc))?;
    let mut len = compiled(rt, alloc, &cached, text)?;
    for _turn in 0..2 {
        if cached.found(rt) == 0 {
            len = compiled(rt, alloc, &cached, text)?.min(len);
        }
    }
    add_count(alloc, lines, "Cached", len)?;
    add_count(alloc, lines, "Cached, found", cached.found(rt) as usize)?;
    Ok(())
}

/// Returns the lines about `Maps` and about `Cached`.
pub fn tell<R: Eprint + Wait>(rt: &R, alloc: Global) -> Result<Vec<u8>, Trouble> {
    let mut lines = Vec::new(alloc);
    let text = joined(alloc)?;
    tell_maps(rt, alloc, &text, &mut lines)?;
    tell_cached(rt, alloc, &text, &mut lines)?;
    Ok(lines)
}
