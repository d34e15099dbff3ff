//! Byte strings, each with its character, found by their bytes in a trie.
#![tactic(auto)]

mod added;
mod byte_trie;
mod comparing;
mod entering;
mod entry;
mod fork;
mod growing;
mod lookup;
mod node;
mod running;
mod setting_edges;
mod steps;
mod walking;

pub use added::Added;
pub use byte_trie::ByteTrie;
pub use entry::Entry;
pub use lookup::Lookup;
pub use node::{Edge, Node};
pub use steps::{NODE, NONE, Steps, TAIL};
