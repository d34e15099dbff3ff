//! Texts of charmaps.
use std::alloc::{AllocError, Global};

/// Returns the text of a charmap with this name, `?` and the mappings of this line.
pub fn charmap_text(alloc: Global, name: &str, line: &str) -> Result<String, AllocError> {
    format!(in alloc;
        "<code_set_name> {name}\nCHARMAP\n<question-mark> \\x3F\n{line}\nEND CHARMAP\n"
    )
}

/// Returns a charmap text of `size` bytes, which ends in a comment. The charmap is TOY, and has only `?`.
pub fn text_of_size(alloc: Global, size: usize) -> Result<Vec<u8>, AllocError> {
    let mut text = Vec::new(alloc);
    text.extend_from_slice(b"<code_set_name> TOY\nCHARMAP\n<question-mark> \\x3F\nEND CHARMAP\n")?;
    text.resize(size, b'#')?;
    Ok(text)
}
