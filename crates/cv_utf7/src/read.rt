//! Reading UTF-7: its items, and blocks of characters.

pub(crate) mod base64_unit;
pub(crate) mod blocks;
pub(crate) mod digit_bytes;
pub(crate) mod items;
pub(crate) mod runs;
pub(crate) mod sequences;
pub(crate) mod sixteen_digits;
