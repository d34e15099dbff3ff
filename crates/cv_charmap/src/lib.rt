//! Reading charmap texts (POSIX XBD 6.4, character set description file).
#![tactic(auto)]

mod covered;
mod entry;
mod fault;
mod header;
pub mod laws;
mod pair_list;
mod pairs;
mod phase;
mod range;
mod range_start;
mod reader;
mod reading;

pub use fault::{CompileFault, MapFault};
pub use pairs::Pairs;
pub use reader::read;
