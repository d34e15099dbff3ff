//! Texts of a few characters, which are written from the start and closed, and read from the start.

use cv_base::{Codec, Item, ReadState, Scalar, WriteState};
use cv_pivot::Encoding;
use std::alloc::AllocError;

/// Writes characters to `text`, and closes it. Leaves it empty if the encoding lacks one of them.
pub fn write_text(
    encoding: &Encoding,
    characters: &[Scalar],
    text: &mut Vec<u8>,
) -> Result<(), AllocError> {
    let mut state = WriteState::Start;
    text.clear();
    for c in characters {
        let Some((piece, next)) = encoding.put(state, *c) else {
            text.clear();
            return Ok(());
        };
        text.extend_from_slice(piece.as_slice())?;
        state = next;
    }
    text.extend_from_slice(encoding.close(state).as_slice())
}

/// Returns whether a text is read to its end as these characters.
pub fn is_read_as(encoding: &Encoding, text: &[u8], characters: &[Scalar]) -> bool {
    let mut state = ReadState::Start;
    let mut rest = text;
    let mut wanted = characters.iter();
    for _item in 0..=text.len() {
        let (n, after) = match encoding.item(state, rest) {
            Item::Char { c, n, next } => {
                if wanted.next() != Some(&c) {
                    return false;
                }
                (n, next)
            }
            Item::Shift { n, next } => (n, next),
            Item::End => return wanted.next().is_none(),
            _ => return false,
        };
        rest = rest.get(n..).unwrap_or(&[]);
        state = after;
    }
    false
}
