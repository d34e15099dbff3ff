//! The result of reading a charmap text.

use cv_byte_trie::Entry;
use cv_charmap::{CompileFault, Pairs, read};
use std::io;

fn show_pair<R: Print + AllocGlobal>(rt: &R, pair: &Entry) -> io::Result<()> {
    let mut digits = String::new(rt.alloc());
    for byte in pair.bytes() {
        digits.push_str(&format!(in rt.alloc(); "{byte:02x}")?)?;
    }
    println!(rt; "{digits} U+{:04X}", pair.character().value())
}

fn show_pairs<R: Print + AllocGlobal>(rt: &R, pairs: &Pairs) -> io::Result<()> {
    println!(rt; "{} {}", pairs.name().escape_ascii(), pairs.len())?;
    for place in 0..pairs.len() {
        if let Some(pair) = pairs.get(place) {
            show_pair(rt, pair)?;
        }
    }
    Ok(())
}

/// Prints the name of a charmap and its mappings, or the first fault of a text that is not a charmap.
pub fn show<R: Print + AllocGlobal>(rt: &R, text: &[u8]) -> io::Result<()> {
    match read(rt.alloc(), text) {
        Ok(pairs) => show_pairs(rt, &pairs),
        Err(CompileFault::Map(fault)) => println!(rt; "{fault}"),
        Err(CompileFault::Memory) => Err(io::ErrorKind::OutOfMemory.into()),
    }
}
