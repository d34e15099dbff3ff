//! Charmap texts, and what `check_text` reports for them. In a text `|` means a line feed. A text that begins with a
//! quotation mark is written as `bytes_of` reads it.
use cv_commands::check_text;
use std::alloc::Global;
use std::test::Fail;
use test_support::bytes_of;

/// Returns whether `check_text` reports these words for a prefix and the text after it, and refuses them exactly if the
/// words begin with `line `.
pub fn is_said(alloc: Global, front: &str, text: &str, words: &str) -> Result<bool, Fail> {
    let text = text_behind(alloc, front, text)?;
    let checked = check_text(alloc, &text)?;
    let line = checked.line.as_slice().strip_suffix(b"\n");
    Ok(line == Some(words.as_bytes()) && checked.good != words.starts_with("line "))
}

/// The bytes of a prefix and the text after it.
fn text_behind(alloc: Global, front: &str, text: &str) -> Result<Vec<u8>, Fail> {
    let mut bytes = Vec::from_slice(alloc, front.as_bytes())?;
    if text.starts_with('"') {
        bytes.extend_from_slice(&bytes_of(alloc, text)?)?;
    } else {
        bytes.extend_from_slice(text.as_bytes())?;
    }
    for byte in bytes.iter_mut() {
        if *byte == b'|' {
            *byte = b'\n';
        }
    }
    Ok(bytes)
}
