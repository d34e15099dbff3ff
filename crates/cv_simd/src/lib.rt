//! Kernels over vectors of bytes and numbers. They know nothing of encodings.
#![tactic(auto)]

mod byte_class;
mod double_bytes;
mod number_indices;
mod numbers;
mod pair_indices;
mod pairs;
mod split_tables;
mod triple_indices;
mod triples;

pub use byte_class::{ByteClass, SIXTEEN, prefix_in, run_in};
pub use double_bytes::{SPLIT_WINDOW, Split, split_double_bytes};
pub use numbers::compress_u16;
pub use pairs::compress_pairs;
pub use triples::compress_triples;
