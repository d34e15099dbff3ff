//! A machine with one private table for each caller, and laws of its runs that hold whatever its requests do.
#![tactic(auto)]

pub mod laws;
mod machine;

pub use machine::Machine;
