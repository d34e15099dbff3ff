//! Tests of serving and of pools: streams of frames, and batches by several workers. They use only the public items of
//! cv_loop and cv_pool. They are in a crate of their own, since a crate with tests is proved twice.
#![tactic(auto)]

#[cfg(test)]
mod asking;
#[cfg(test)]
mod engines;
#[cfg(test)]
mod one_cache;
#[cfg(test)]
mod pool;
#[cfg(test)]
mod serving;
#[cfg(test)]
mod streams;
