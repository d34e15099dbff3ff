//! ISO-8859-1.

use crate::single_byte::SingleByte;

/// ISO-8859-1 (ISO/IEC 8859-1): each byte is the character with its value.
#[derive(Clone, Copy, Debug, PartialEq, Eq)]
pub struct Latin1;

impl SingleByte for Latin1 {
    ghost LIMIT = { 256 };

    const LIMIT: u32 = 256;

    #[inline(always)]
    fn assert_limit() {}
}
