//! What the calls are given.

use std::alloc::{AllocError, Global};

/// The first part of a charmap whose strings have one, two and three bytes.
pub const HEAD: &[u8] = b"<code_set_name> TOY\n<mb_cur_max> 3\nCHARMAP\n<question-mark> \\x3F\n";

/// The rest of it: strings that are adjacent, and strings that share a prefix.
pub const REST: &[u8] =
    b"<U0100>...<U0145> \\x80\\x30\n<U0200> \\x81\\x40\\x41\n<U0201> \\x81\\x42\\x43\nEND CHARMAP\n";

/// A charmap.
pub const WHOLE: &[u8] =
    b"<code_set_name> OTHER\nCHARMAP\n<question-mark> \\x3F\n<U0142> \\x80\nEND CHARMAP\n";

/// A text with a fault.
pub const FAULTY: &[u8] = b"CHARMAP\n<U0041> \\x41\n<U0042> \\x41\nEND CHARMAP\n";

/// The size in bytes of each of two uploads. Two workers compile them on a thread each if they are in one batch.
const LONG: usize = 20_000;

/// The size in bytes of a text for whose pairs much room is reserved.
const GUESSED: usize = 100_000;

/// Returns the whole text of the first charmap.
pub fn joined(alloc: Global) -> Result<Vec<u8>, AllocError> {
    let mut text = Vec::from_slice(alloc, HEAD)?;
    text.extend_from_slice(REST)?;
    Ok(text)
}

/// Returns the text of the first charmap with a comment after it that is so long that room is reserved for many more
/// pairs than there are.
pub fn roomy(alloc: Global) -> Result<Vec<u8>, AllocError> {
    let mut text = joined(alloc)?;
    text.resize(GUESSED.max(text.len()), b'#')?;
    Ok(text)
}

/// Returns a charmap's text with a long comment after it.
pub fn long(alloc: Global, text: &[u8]) -> Result<Vec<u8>, AllocError> {
    let mut text = Vec::from_slice(alloc, text)?;
    text.resize(LONG.max(text.len()), b'#')?;
    Ok(text)
}
