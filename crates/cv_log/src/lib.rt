//! The log of a server: lines of text or of JSON that wait for nobody, and of each second at most 100 faults.
#![tactic(auto)]

mod cut;
mod dropped_lines;
mod fault_limit;
mod json_line;
mod log_lines;
mod outlet;
mod text_line;

pub use log_lines::{LogFormat, LogLines};
pub use outlet::{Outlet, StandardError};

#[cfg(test)]
mod tests;
