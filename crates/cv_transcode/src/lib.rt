//! Conversions from one encoding to another without a buffer of characters between them.
#![tactic(auto)]

mod ascii_runs;
mod conversions;
mod from_utf8;
mod last_window;
mod latin1;
mod mixed;
mod room_end;
mod room_end_utf16;
mod run;
mod to_latin1;
mod utf16;
mod utf32;
mod utf8;
mod window_reader;
mod window_writer;
mod windows;

pub use conversions::{
    latin1_to_utf8, utf16_swapped, utf16_to_utf8, utf32_to_utf8, utf32_to_utf16,
};
pub use from_utf8::{begins_with_supplementary, utf8_to_utf16};
pub use run::Run;
pub use to_latin1::{may_begin_latin1, utf8_to_latin1};
pub use utf16::has_surrogates;
