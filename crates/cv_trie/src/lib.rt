//! Charmaps as encodings: read by a trie and tables of their byte strings, and written by pages of their characters.
#![tactic(auto)]

mod ascii;
mod blocks;
mod buffer_writing;
mod charmap;
mod decoder;
mod encoder;
mod firsts;
mod items;
mod keys;
pub mod laws;
mod longest;
mod mixed;
mod progress;
mod quad_blocks;
mod reading;
mod reading_singles;
mod row_offsets;
mod rows;
mod singles;
mod triple_blocks;
mod windows;
mod writing;

pub use charmap::Charmap;
