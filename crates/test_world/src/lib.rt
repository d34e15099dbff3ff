//! Tests of frames, callers' tables, the cache and worlds. A crate with tests is proved twice. So the tests of crates
//! that others use are here, and use only their public items. Proofs about nested arrays are expensive, so a table is a
//! text: `words` and `test_support` read its words.
#![tactic(auto)]

#[cfg(test)]
mod cache;
#[cfg(test)]
mod callers;
#[cfg(test)]
mod frames;
#[cfg(test)]
mod giving_up;
#[cfg(test)]
mod numbers;
#[cfg(test)]
mod replies;
#[cfg(test)]
mod words;
#[cfg(test)]
mod world;
