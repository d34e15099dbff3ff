//! The encoding forms whose units are wider than a byte, UTF-16 and UTF-32, in their byte orders.
#![tactic(auto)]

mod blocks;
mod encoding_scheme;
mod in_order;
pub mod laws;
mod order;
mod stateless_utf16;
mod stateless_utf32;
mod surrogate_pairs;
mod utf16;
mod utf32;
mod wide_form;

pub use encoding_scheme::EncodingScheme;
pub use order::Order;
pub use utf16::Utf16;
pub use utf32::Utf32;
