//! Tables of characters that are written. A line is `CHARACTERS: BYTES STATE CLOSING`: the numbers of characters, the
//! bytes that they are written as, the writer's state after them, and the bytes that close the text. In a line
//! `CHARACTERS: lacking` the encoding lacks one of the characters.
use crate::words::scalar_of;
use cv_base::{Codec, Put, Scalar, WriteState};
use std::alloc::Global;
use std::process::Abort;
use std::test::Fail;
use test_support::{bytes_of, sides};

/// Writes the characters of each line, and compares the bytes. The writer is in `state` before the first character of a
/// line.
pub fn write_lines<R: Abort + AllocGlobal, C: Codec>(
    rt: &R,
    codec: &C,
    state: WriteState,
    table: &str,
) -> Result<(), Fail> {
    for line in table.trim().lines() {
        let (characters, wanted) = sides(line, ": ")?;
        let written = is_written(rt.alloc(), codec, state, characters, wanted)?;
        assert!(rt; written, "{line}");
    }
    Ok(())
}

/// Whether characters are written as expected.
fn is_written<C: Codec>(
    alloc: Global,
    codec: &C,
    mut state: WriteState,
    characters: &str,
    wanted: &str,
) -> Result<bool, Fail> {
    let mut written = Vec::new(alloc);
    for character in characters.split_whitespace() {
        let c = scalar_of(character)?;
        let Some(next) = written_both_ways(codec, state, c, &mut written)? else {
            return Ok(wanted == "lacking");
        };
        state = next;
    }
    let (bytes, ending) = sides(wanted, " ")?;
    let (name, closing) = sides(ending, " ")?;
    let bytes = bytes_of(alloc, bytes)?;
    let closing = bytes_of(alloc, closing)?;
    Ok(
        written.as_slice() == bytes.as_slice()
            && name == state_name(state)
            && codec.close(state).as_slice() == closing.as_slice(),
    )
}

/// Appends the bytes of a character, and returns the state after it, or `None` if the encoding lacks it. Fails if `put`
/// and `put_at` differ, or if the bytes are more than `most_bytes` says.
fn written_both_ways<C: Codec>(
    codec: &C,
    state: WriteState,
    c: Scalar,
    written: &mut Vec<u8>,
) -> Result<Option<WriteState>, Fail> {
    let mut out = [0; 8];
    let put = codec.put_at(state, c, &mut out, 0);
    let Some((piece, next)) = codec.put(state, c) else {
        return Ok(None);
    };
    let bytes = piece.as_slice();
    let n = bytes.len();
    if put != (Put::Wrote { n, next }) || !out.starts_with(bytes) || n > codec.most_bytes() {
        return Err("the two forms of writing differ".into());
    }
    written.extend_from_slice(bytes)?;
    Ok(Some(next))
}

/// Returns a state in the words of a line.
pub fn state_name(state: WriteState) -> &'static str {
    match state {
        WriteState::Start => "Start",
        WriteState::Marked => "Marked",
        WriteState::Shifted(_) => "Shifted",
    }
}
