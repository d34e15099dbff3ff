//! The encoding form UTF-8 (Unicode Standard, section 3.9).
#![tactic(auto)]

mod blocks;
pub mod laws;
mod read;
mod stateless_utf8;
mod utf8;
mod write;

pub use read::character::supplementary_at;
pub use read::latin1_lanes::read_latin1_lanes;
pub use read::utf16_lanes::{Utf16Lanes, read_utf16_lanes};
pub use utf8::Utf8;
pub use write::one_byte::write_one_byte;
pub use write::three_byte::write_three_byte;
pub use write::two_byte::{write_latin1, write_two_byte};
