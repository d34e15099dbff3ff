//! How encodings read and write many characters at once: stateless forms and their loops, code units and byte
//! orders, surrogates, packed words, and runs of characters below a limit.
#![tactic(auto)]

mod ascii_bytes;
mod ascii_runs;
mod byte_order;
mod code_limit;
mod code_runs;
mod form_reading;
mod form_writing;
mod limited_units;
mod packed_words;
mod stateless_form;
mod surrogates;
mod unit;
mod unit_blocks;
mod unit_prefixes;
mod unit_runs;

pub use ascii_bytes::is_ascii_block;
pub use ascii_runs::unit_bytes;
pub use byte_order::{BigEndian, ByteOrder, LittleEndian};
pub use code_runs::{take_ascii_run, take_latin1_run};
pub use form_reading::read_stateless;
pub use form_writing::write_stateless;
pub use packed_words::{PackedWords, write_words};
pub use stateless_form::{Converted, LANES, StatelessForm};
pub use surrogates::{
    from_surrogates, is_high, is_low, is_surrogate, lead_surrogate, trail_surrogate,
};
pub use unit::{Byte, Four, Two, Unit};
pub use unit_prefixes::unit_prefix_len;
pub use unit_runs::{put_characters, read_units, write_units};
