//! The lines that are printed.

use std::alloc::{AllocError, Global};

/// Appends a line of a name and of bytes, as text.
pub fn add_bytes(
    alloc: Global,
    lines: &mut Vec<u8>,
    name: &str,
    bytes: &[u8],
) -> Result<(), AllocError> {
    let line = format!(in alloc; "{name} {}\n", bytes.escape_ascii())?;
    lines.extend_from_slice(line.as_bytes())
}

/// Appends a line of a name and a number.
pub fn add_count(
    alloc: Global,
    lines: &mut Vec<u8>,
    name: &str,
    count: usize,
) -> Result<(), AllocError> {
    let line = format!(in alloc; "{name} {count}\n")?;
    lines.extend_from_slice(line.as_bytes())
}
