//! Writing UTF-7: the digits of characters, and blocks of characters.

pub(crate) mod base64_digits;
pub(crate) mod blocks;
pub(crate) mod digit_lanes;
pub(crate) mod direct_runs;
pub(crate) mod groups;
pub(crate) mod lone;
pub(crate) mod runs;
pub(crate) mod sequences;
pub(crate) mod shifted_bytes;
