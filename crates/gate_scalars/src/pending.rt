//! Each scalar value in UTF-7, after characters that leave a shifted sequence in each of its possible states.
ghost use Rattle.std.specs.Prelude.{◌<◌, ◌≤◌};

use crate::spelling::{is_read_as, write_text};
use cv_base::Scalar;
use cv_pivot::Encoding;
use std::alloc::{AllocError, Global};

/// How many characters of one code unit each leave a shifted sequence in state `k` of 21, and the last four bits of the
/// last of them. The pending bits are its last bits: four after one character, two after two, none after three.
fn front(k: u32) -> (usize, u32)
    ensures length { result.0 ≤ 3 }
    ensures last { k < 21 → result.1 < 16 }
{
    match k {
        0..16 => (1, k),
        16..20 => (2, k - 16),
        _ => (3, 0),
    }
}

/// Returns how many scalar values are read back after each of the 21 prefixes, in all.
pub fn read_back(alloc: Global, encoding: &Encoding) -> Result<usize, AllocError> {
    let mut text = Vec::new(alloc);
    let mut count: usize = 0;
    for k in 0..21 {
        let (length, last) = front(k);
        let Some(unit) = Scalar::new(0x3040 + last) else {
            continue;
        };
        let mut characters = [unit; 4];
        for c in (0..0x11_0000).filter_map(Scalar::new) {
            characters[length] = c;
            let whole = characters.get(..length + 1).unwrap_or(&[]);
            write_text(encoding, whole, &mut text)?;
            if is_read_as(encoding, &text, whole) {
                count = count.saturating_add(1);
            }
        }
    }
    Ok(count)
}
