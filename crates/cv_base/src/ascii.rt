//! US-ASCII.

use crate::single_byte::SingleByte;

/// US-ASCII (ISO/IEC 646): a byte below 128 is the character with its value. Bytes from 128 on are ill-formed.
#[derive(Clone, Copy, Debug, PartialEq, Eq)]
pub struct Ascii;

impl SingleByte for Ascii {
    ghost LIMIT = { 128 };

    const LIMIT: u32 = 128;

    #[inline(always)]
    fn assert_limit() {}
}
