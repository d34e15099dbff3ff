//! The lines of a charmap text, and what each of them says (POSIX XBD 6.4, character set description file).
#![tactic(auto)]

mod cause;
mod declarations;
mod digit_table;
mod encoding;
mod feeds;
mod line;
mod mappings;
mod names;
mod plain;
mod splitting;
mod symbols;
mod text_lines;
mod words;

pub use cause::Cause;
pub use encoding::constants;
pub use line::{Line, Marks, Setting, read_line};
pub use names::name_of;
pub use plain::read_plain;
pub use splitting::lines;
pub use text_lines::Lines;
