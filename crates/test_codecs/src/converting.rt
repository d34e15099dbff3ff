//! Tables of conversions. A line is `SOURCE TARGET: CALL; CALL ..`, and the calls are made one after the other. A call
//! is `INPUT ROOM = STOP LEFT COUNT OUTPUT` or `reset ROOM = CLOSING`. CLOSING is `TooBig` if the bytes don't fit.
use crate::charmap_texts::charmap;
use cv_base::{Memory, Policy};
use cv_pivot::{Conversion, Encoding, builtin};
use std::alloc::Global;
use std::process::Abort;
use std::sync::Arc;
use std::test::Fail;
use test_support::{bytes_of, sides};

/// Makes the calls of each line, and compares their results.
pub fn convert<R: Abort + AllocGlobal>(rt: &R, policy: Policy, table: &str) -> Result<(), Fail> {
    for line in table.trim().lines() {
        let (names, calls) = sides(line, ": ")?;
        let (from, to) = sides(names, " ")?;
        let mut conversion = conversion(rt.alloc(), from, to, policy)?;
        for call in calls.split("; ") {
            let answer = answers(rt.alloc(), &mut conversion, call)?;
            assert!(rt; answer, "{call} in {line}");
        }
    }
    Ok(())
}

/// Returns a new conversion between the encodings with these names.
pub fn conversion(alloc: Global, from: &str, to: &str, policy: Policy) -> Result<Conversion, Fail> {
    let from = encoding(alloc, from)?;
    let to = encoding(alloc, to)?;
    Ok(Conversion::new(to, from, policy))
}

/// Returns the built-in encoding with this name, or else the charmap of `charmap_texts`.
pub fn encoding(alloc: Global, name: &str) -> Result<Encoding, Fail> {
    if let Some(encoding) = builtin(name.as_bytes()) {
        return Ok(encoding);
    }
    let shared = Arc::new(alloc, charmap(alloc, name)?).map_err(|_| Memory)?;
    Ok(Encoding::Charmap(shared))
}

/// Whether a call has the expected result.
fn answers(alloc: Global, conversion: &mut Conversion, call: &str) -> Result<bool, Fail> {
    let (given, wanted) = sides(call, " = ")?;
    let (input, room) = sides(given, " ")?;
    let room = room.parse::<usize>()?;
    if input == "reset" {
        closes(alloc, conversion, room, wanted)
    } else {
        converts(alloc, conversion, input, room, wanted)
    }
}

/// Whether a reset writes the expected bytes.
fn closes(
    alloc: Global,
    conversion: &mut Conversion,
    room: usize,
    wanted: &str,
) -> Result<bool, Fail> {
    match conversion.reset(room) {
        Ok(piece) => {
            let closing = bytes_of(alloc, wanted)?;
            Ok(piece.as_slice() == closing.as_slice())
        }
        Err(_) => Ok(wanted == "TooBig"),
    }
}

/// Whether input is converted to the expected bytes.
fn converts(
    alloc: Global,
    conversion: &mut Conversion,
    input: &str,
    room: usize,
    wanted: &str,
) -> Result<bool, Fail> {
    let (ending, output) = wanted.rsplit_once(' ').ok_or("no output")?;
    let input = bytes_of(alloc, input)?;
    let output = bytes_of(alloc, output)?;
    let mut out = vec![in alloc; 0u8; room]?;
    let outcome = conversion.convert(&input, &mut out);
    let ended = format!(in alloc; "{:?} {} {}", outcome.stop, outcome.left, outcome.count)?;
    let written = out.get(..room.saturating_sub(outcome.room_left));
    Ok(ended.as_str() == ending && written == Some(output.as_slice()))
}
