//! Reading and building charmaps.

use crate::again::{Trouble, ample, say_lacking};
use crate::lines::{add_bytes, add_count};
use crate::texts::{FAULTY, roomy};
use cv_base::Memory;
use cv_cache::{Compiler, Plain};
use cv_charmap::{CompileFault, MapFault, Pairs, read};
use cv_trie::Charmap;
use std::alloc::Global;

/// Builds the charmap of the pairs of a text. Building consumes the pairs, so they are read again if an allocation
/// failed.
fn built<R: Eprint>(rt: &R, alloc: Global, pairs: Pairs, text: &[u8]) -> Result<Charmap, Trouble> {
    match Charmap::build(alloc, pairs) {
        Ok(charmap) => Ok(charmap),
        Err(Memory) => {
            say_lacking(rt, "Charmap::build");
            let pairs = ample(read(alloc, text))?;
            ample(Charmap::build(alloc, pairs))
        }
    }
}

/// The fault of a text that is no charmap.
fn fault_of(alloc: Global) -> Result<MapFault, Trouble> {
    match read(alloc, FAULTY) {
        Ok(_) => Err(Trouble::Fault),
        Err(CompileFault::Memory) => Err(Trouble::Memory),
        Err(CompileFault::Map(fault)) => Ok(fault),
    }
}

/// Reads a text, builds its charmap, and tells what they have.
fn tell_built<R: Eprint>(
    rt: &R,
    alloc: Global,
    text: &[u8],
    lines: &mut Vec<u8>,
) -> Result<(), Trouble> {
    let pairs = again!(rt, "read", read(alloc, text))?;
    add_count(alloc, lines, "read", pairs.len())?;
    let charmap = built(rt, alloc, pairs, text)?;
    add_bytes(alloc, lines, "build", charmap.name())?;
    add_count(alloc, lines, "build", charmap.len())?;
    Ok(())
}

/// Compiles a text, and tells what its charmap has.
fn tell_compiled<R: Eprint>(
    rt: &R,
    alloc: Global,
    text: &[u8],
    lines: &mut Vec<u8>,
) -> Result<(), Trouble> {
    let charmap = again!(rt, "Plain::compile", Plain.compile(&(), alloc, text))?;
    add_bytes(alloc, lines, "compile", charmap.name())?;
    add_count(alloc, lines, "compile", charmap.len())?;
    Ok(())
}

/// Returns the lines about a charmap, and about the first fault of a text that is none.
pub fn tell<R: Eprint>(rt: &R, alloc: Global) -> Result<Vec<u8>, Trouble> {
    let mut lines = Vec::new(alloc);
    let text = roomy(alloc)?;
    tell_built(rt, alloc, &text, &mut lines)?;
    tell_compiled(rt, alloc, &text, &mut lines)?;
    let fault = again!(rt, "read, of a fault", fault_of(alloc))?;
    add_count(alloc, &mut lines, "fault", fault.line as usize)?;
    Ok(lines)
}
