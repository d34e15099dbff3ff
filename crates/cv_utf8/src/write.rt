//! Writing UTF-8, many characters at once.

pub(crate) mod one_byte;
pub(crate) mod size_masks;
pub(crate) mod three_byte;
pub(crate) mod two_byte;
pub(crate) mod units;
