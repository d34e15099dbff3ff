//! Reading a charmap text.
ghost use Rattle.std.specs.Prelude.{◌≡◌, ◌==◌};
ghost use Rattle.std.specs.List.{list_any};
ghost use Rattle.cv_base.specs.Scalars.{question};
ghost use Rattle.cv_charmap.specs.Meaning.{meaning};
ghost use Rattle.cv_charmap.specs.Results.{Reads};
ghost use Rattle.cv_charmap.specs.Private.Seen.{header_seen, finished};
ghost use Rattle.cv_charmap.specs.declared.fault.CompileFault.TheVariants.{Map};

use crate::fault::{CompileFault, MapFault};
use crate::header::Header;
use crate::pair_list::PairList;
use crate::pairs::Pairs;
use crate::phase::{Phase, ReaderState};
use crate::reading::read_next;
use cv_byte_trie::Entry;
use cv_lex::{Cause, lines};
use std::alloc::Global;

/// Tells whether a pair has the question mark.
fn has_substitute(pairs: &[Entry]) -> bool
    ensures { result ≡ list_any (λ q. q.1 == question) pairs.now }
{
    pairs.iter().any(|pair| pair.character().value() == 0x3F)
}

/// Makes the fault of a text that lacks something, with line 0.
fn lacking(cause: Cause) -> CompileFault
    ensures { result ≡ Map (record { line = 0; cause = cause }) }
{
    CompileFault::Map(MapFault { line: 0, cause })
}

/// Returns what a charmap text means after its lines are read.
fn finish(
    alloc: Global,
    header: Header<'_>,
    phase: Phase,
    pairs: PairList,
) -> Result<Pairs, CompileFault>
    ensures { Reads (finished phase (header_seen header.entry) pairs) result }
{
    match phase {
        Phase::Above => return Err(lacking(Cause::NoMap)),
        Phase::Inside => return Err(lacking(Cause::NoEnd)),
        Phase::Behind => {}
    }
    let Some(name) = header.name else {
        return Err(lacking(Cause::NoName));
    };
    let entries = pairs.into_trie();
    if !has_substitute(entries.entries()) {
        return Err(lacking(Cause::NoSubstitute));
    }
    match Vec::from_slice(alloc, name) {
        Ok(name) => Ok(Pairs::of(name, entries)),
        Err(_) => Err(CompileFault::Memory),
    }
}

/// Reads a charmap text. Returns its name and pairs, or its first fault, or that an allocation failed. What follows the
/// line `END CHARMAP` is not read.
pub fn read(alloc: Global, text: &[u8]) -> Result<Pairs, CompileFault>
    ensures { Reads (meaning text.now) result }
{
    let mut pairs = match PairList::new(alloc, text.len()) {
        Ok(pairs) => pairs,
        Err(_) => return Err(CompileFault::Memory),
    };
    let mut state = ReaderState {
        header: Header::new(),
        phase: Phase::Above,
    };
    let mut number: u32 = 0;
    for line in lines(text) {
        number = number.saturating_add(1);
        match read_next(&mut pairs, &mut state, line, number) {
            Ok(()) => {}
            Err(fault) => return Err(fault),
        }
        if let Phase::Behind = state.phase {
            return finish(alloc, state.header, state.phase, pairs);
        }
    }
    finish(alloc, state.header, state.phase, pairs)
}
