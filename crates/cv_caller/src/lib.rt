//! One caller's table: the charmaps that it holds, its descriptors by number, and the part of an upload.
#![tactic(auto)]

mod charmaps;
mod faults;
mod limits;
mod place;
mod places;
mod store;
mod table;
mod uploads;
mod weighed;

pub use faults::{AddFault, DropFault, PartFault};
pub use limits::{CALLER_BYTES, CHARMAPS, DESCRIPTOR_BYTES, DESCRIPTORS, MOST_MAPPINGS, MOST_PART};
pub use place::{Found, Place};
pub use table::Table;
