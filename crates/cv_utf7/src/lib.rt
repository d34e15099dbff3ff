//! UTF-7 (RFC 2152).
#![tactic(auto)]

mod blocks;
mod direct_bytes;
pub mod laws;
mod read;
mod sets;
mod utf7;
mod write;

pub use utf7::Utf7;
