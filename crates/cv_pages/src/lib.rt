//! Pages of characters, by which a charmap is written: they give the index of a character's first entry.
#![tactic(auto)]

mod inline_bytes;
mod lanes;
mod page_table;

pub use inline_bytes::{InlineBytes, MAX_INLINE, NOT_INLINE};
pub use lanes::{LANES, any_bits};
pub use page_table::{PageTable, UNMAPPED};
