//! Reading UTF-8, many characters at once and one by one.

pub(crate) mod ascii;
pub(crate) mod character;
pub(crate) mod four_byte;
pub(crate) mod latin1_lanes;
pub(crate) mod masks;
pub(crate) mod put_lanes;
pub(crate) mod short;
pub(crate) mod three_byte;
pub(crate) mod utf16_lanes;
pub(crate) mod well_formed;
pub(crate) mod windows;
