//! Calls whose results are compared with those of their items.

use crate::chain::{Chain, Expected};
use crate::trials::{Part, Trial};
use cv_pivot::{Conversion, Outcome, States};
use std::alloc::{AllocError, Global};

/// The value of each byte of an output before a call.
pub const UNWRITTEN: u8 = 0xC1;

/// The least size in bytes of a text that may have a long block.
const LONG: usize = 256;

/// By how many bytes an ample output is larger than what is written, so that no short block ends because the output is
/// full: it has 64 characters of at most eight bytes.
const AMPLE: usize = 64 * 8;

/// The same for the output of a long text, so that no long block ends because the output is full.
const AMPLE_FOR_LONG: usize = 256 * 8;

/// How the result of a call differs from that of its items.
#[derive(Clone, Copy, Debug)]
pub enum Found {
    Outcome(Outcome),
    States,
    Bytes,
}

/// A call whose result differs from that of its items.
#[derive(Clone, Copy, Debug)]
pub struct Difference {
    /// How many bytes the call was given.
    pub given: usize,
    pub room: usize,
    pub expected: Outcome,
    pub found: Found,
}

/// Why calls were not compared to the end.
#[derive(Debug, Drop)]
pub enum Fault {
    Differs(Difference),
    Memory(AllocError),
}

impl From<AllocError> for Fault {
    fn from(error: AllocError) -> Fault {
        Fault::Memory(error)
    }
}

/// Whether an output begins with these bytes, and is unwritten after them.
fn has(room: &[u8], written: &[u8]) -> bool {
    room.strip_prefix(written)
        .is_some_and(|behind| behind.iter().all(|byte| *byte == UNWRITTEN))
}

/// The first difference between the results of a call and those that it must have, or `None`.
fn compare(
    expected: &Expected<'_>,
    outcome: Outcome,
    states: States,
    room: &[u8],
) -> Option<Found> {
    if outcome != expected.outcome {
        Some(Found::Outcome(outcome))
    } else if states != expected.states {
        Some(Found::States)
    } else if !has(room, expected.written) {
        Some(Found::Bytes)
    } else {
        None
    }
}

/// The size of the output of a call that is given a text for whose items `most` bytes are written.
fn size_of(room: Part, input: &[u8], most: usize) -> usize {
    match room {
        Part::All if input.len() < LONG => most.saturating_add(AMPLE),
        Part::All => most.saturating_add(AMPLE_FOR_LONG),
        part => part.of(most),
    }
}

/// Makes a call, compares its results, and returns how many bytes of the input it leaves. The buffer is unwritten
/// before the call, and is made so after it.
fn call(
    alloc: Global,
    conversion: &mut Conversion,
    input: &[u8],
    room: Part,
    buffer: &mut [u8],
) -> Result<usize, Fault> {
    let chain = Chain::of(alloc, conversion, input)?;
    let size = size_of(room, input, chain.most()).min(buffer.len());
    let out = buffer.get_mut(..size).unwrap_or(&mut []);
    let expected = chain.within(input, size);
    let outcome = conversion.convert(input, out);
    if let Some(found) = compare(&expected, outcome, conversion.states, out) {
        return Err(Fault::Differs(Difference {
            given: input.len(),
            room: size,
            expected: expected.outcome,
            found,
        }));
    }
    out.fill(UNWRITTEN);
    Ok(outcome.left)
}

/// Makes the calls of a trial, and returns how many they are. The first gets the text up to the cut. If bytes were left
/// or cut off, a second gets these, with an ample output.
pub fn make_calls(
    alloc: Global,
    mut conversion: Conversion,
    text: &[u8],
    trial: &Trial,
    buffer: &mut [u8],
) -> Result<usize, Fault> {
    let given = text.get(..trial.cut.of(text.len())).unwrap_or(text);
    let left = call(alloc, &mut conversion, given, trial.room, buffer)?;
    let used = given.len().saturating_sub(left);
    match text.get(used..) {
        None | Some([]) => Ok(1),
        Some(rest) => {
            call(alloc, &mut conversion, rest, Part::All, buffer)?;
            Ok(2)
        }
    }
}
