//! A text of all scalar values, converted and converted back.

use cv_base::Policy;
use cv_pivot::{Conversion, Encoding, builtin};
use std::alloc::{AllocError, Global};

/// How many bytes each call is given.
const CALL: usize = 10_007;

/// Returns all scalar values in their order, as UTF-32BE.
pub fn every_scalar(alloc: Global) -> Result<Vec<u8>, AllocError> {
    let mut text = Vec::with_capacity(alloc, 4_448_256)?;
    for value in (0..0xD800u32).chain(0xE000..0x11_0000) {
        text.extend_from_slice(&value.to_be_bytes())?;
    }
    Ok(text)
}

/// Converts the whole text, in calls of a size that cuts characters at any byte, and closes it.
fn converted(
    alloc: Global,
    to: Encoding,
    from: Encoding,
    text: &[u8],
) -> Result<Vec<u8>, AllocError> {
    let mut conversion = Conversion::new(to, from, Policy::Substitute);
    let mut room = vec![in alloc; 0u8; 8 * CALL]?;
    let mut output = Vec::new(alloc);
    let mut rest = text;
    for _call in 0..u64::MAX {
        let given = rest.get(..CALL).unwrap_or(rest);
        let outcome = conversion.convert(given, &mut room);
        let wrote = room.len().saturating_sub(outcome.room_left);
        output.extend_from_slice(room.get(..wrote).unwrap_or(&[]))?;
        let used = given.len().saturating_sub(outcome.left);
        if used == 0 {
            break;
        }
        rest = rest.get(used..).unwrap_or(&[]);
    }
    if let Ok(closing) = conversion.reset(room.len()) {
        output.extend_from_slice(closing.as_slice())?;
    }
    Ok(output)
}

/// Returns how many scalar values of a text are the same after it is converted to an encoding and back.
pub fn read_back(alloc: Global, encoding: Encoding, text: &[u8]) -> Result<usize, AllocError> {
    let Some(wide) = builtin(b"UTF-32BE") else {
        return Ok(0);
    };
    let there = converted(alloc, encoding.clone()?, wide.clone()?, text)?;
    let back = converted(alloc, wide, encoding, &there)?;
    let pairs = text.chunks(4).zip(back.chunks(4));
    Ok(pairs.filter(|(a, b)| *a == *b).count())
}
