//! The words of tables. A table is a text in which each line is a case.
use cv_base::Policy;
use std::alloc::Global;
use std::test::Fail;

/// Returns the policy of an `open` from the word after its names.
pub fn policy_of(word: &str) -> Policy {
    if word == "strict" {
        Policy::Strict
    } else {
        Policy::Substitute
    }
}

/// Returns a text with a line feed for each `|` of a line.
pub fn text_of(alloc: Global, line: &str) -> Result<Vec<u8>, Fail> {
    let mut text = Vec::new(alloc);
    for byte in line.bytes() {
        text.push(if byte == b'|' { b'\n' } else { byte })?;
    }
    Ok(text)
}
