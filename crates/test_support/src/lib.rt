//! What the test crates share: the words of tables, texts of charmaps, requests and their frames, and a reader that
//! gives its bytes in parts.
#![tactic(auto)]

mod charmap_texts;
mod requests;
mod slow;
mod streams;
mod words;

pub use charmap_texts::{charmap_text, text_of_size};
pub use requests::{OK, push_frame, request};
pub use slow::Slow;
pub use streams::{REPLIES, REQUESTS};
pub use words::{bytes_of, first_word, sides};
