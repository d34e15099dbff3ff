//! Each scalar value, written and read by itself.

use crate::spelling::{is_read_as, write_text};
use cv_base::Scalar;
use cv_pivot::Encoding;
use std::alloc::{AllocError, Global};

/// Returns how many scalar values are written as a text of their own, and read back as themselves.
pub fn read_back(alloc: Global, encoding: &Encoding) -> Result<usize, AllocError> {
    let mut text = Vec::new(alloc);
    let mut count: usize = 0;
    for c in (0..0x11_0000).filter_map(Scalar::new) {
        write_text(encoding, &[c], &mut text)?;
        if is_read_as(encoding, &text, &[c]) {
            count = count.saturating_add(1);
        }
    }
    Ok(count)
}
