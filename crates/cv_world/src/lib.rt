//! The callers of a shard, each with its own charmaps and descriptors, and what one request does.
#![tactic(auto)]

mod answer;
mod budget;
mod callers;
mod changing;
mod closing;
mod conversions;
mod counted;
mod events;
mod framing;
mod kept;
pub mod laws;
mod op;
mod opening;
mod outcomes;
mod replies;
mod serving;
mod stages;
mod tables;
mod world;

pub use answer::Answer;
pub use budget::{Budget, NO_USAGE, UNLIMITED, Usage};
pub use op::Op;
pub use replies::Replies;
pub use world::World;
