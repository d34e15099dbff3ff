//! Converting a text several times.

use cv_base::Policy;
use cv_charmap::{CompileFault, read};
use cv_pivot::{Conversion, Encoding, builtin};
use cv_trie::Charmap;
use std::alloc::Global;
use std::io;
use std::io::Read;
use std::rt::Clock;
use std::sync::Arc;
use std::time::Instant;

/// What is to be measured.
#[derive(Clone, Copy, Debug)]
pub struct Asked<'a> {
    pub to: &'a str,
    pub from: &'a str,
    pub policy: Policy,
    /// How many bytes of the text each call is given.
    pub call: usize,
    /// How often the text is converted.
    pub rounds: u64,
    /// How many bytes at the start of standard input are the text of a charmap. The text that is converted follows
    /// them.
    pub charmap: usize,
}

/// The encoding with a name: `charmap` is that of the charmap's text, and all others are built in. `None`: the name is
/// unknown, or the text has a fault.
fn encoding(alloc: Global, name: &str, charmap: &[u8]) -> io::Result<Option<Encoding>> {
    if name != "charmap" {
        return Ok(builtin(name.as_bytes()));
    }
    let pairs = match read(alloc, charmap) {
        Ok(pairs) => pairs,
        Err(CompileFault::Map(_)) => return Ok(None),
        Err(CompileFault::Memory) => return Err(io::ErrorKind::OutOfMemory.into()),
    };
    let Ok(map) = Charmap::build(alloc, pairs) else {
        return Err(io::ErrorKind::OutOfMemory.into());
    };
    match Arc::new(alloc, map) {
        Ok(shared) => Ok(Some(Encoding::Charmap(shared))),
        Err(_) => Err(io::ErrorKind::OutOfMemory.into()),
    }
}

/// The part of a text that a call is given.
fn part(text: &[u8], at: usize, call: usize) -> &[u8] {
    let rest = text.get(at..).unwrap_or(&[]);
    rest.get(..call).unwrap_or(rest)
}

/// Converts all of a text once, `call` bytes at a time. What a call leaves is given to the next. It stops at a call
/// that uses no bytes.
fn convert_all(conversion: &mut Conversion, text: &[u8], call: usize, out: &mut [u8]) {
    let mut at: usize = 0;
    for _call in 0..u64::MAX {
        let given = part(text, at, call);
        let outcome = conversion.convert(given, out);
        let used = given.len().saturating_sub(outcome.left);
        if used == 0 {
            break;
        }
        at = at.saturating_add(used);
    }
}

fn read_text<R: Input + AllocGlobal>(rt: &R, alloc: Global) -> io::Result<Vec<u8>> {
    let mut text = Vec::new(alloc);
    rt.reader().read_to_end(&mut text)?;
    Ok(text)
}

/// Returns the nanoseconds that the fastest round takes. `None`: an encoding is unknown, or the charmap's text has a
/// fault.
pub fn measure<R: Clock + Input + AllocGlobal>(
    rt: &R,
    asked: &Asked<'_>,
) -> io::Result<Option<u128>> {
    let alloc = rt.alloc();
    let input = read_text(rt, alloc)?;
    let charmap = input.get(..asked.charmap).unwrap_or(&[]);
    let text = input.get(asked.charmap..).unwrap_or(&[]);
    let to = encoding(alloc, asked.to, charmap)?;
    let from = encoding(alloc, asked.from, charmap)?;
    let (Some(to), Some(from)) = (to, from) else {
        return Ok(None);
    };
    let mut out = vec![in alloc; 0u8; asked.call.saturating_mul(8)]?;
    let mut fastest = u128::MAX;
    for _round in 0..asked.rounds {
        let mut conversion = Conversion::new(to.clone()?, from.clone()?, asked.policy);
        let start = Instant::now(rt)?;
        convert_all(&mut conversion, text, asked.call, &mut out);
        fastest = fastest.min(start.elapsed(rt)?.as_nanos());
    }
    Ok(Some(fastest))
}
