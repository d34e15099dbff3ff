//! Pools, with ample memory.
mod appended;
mod at_once;
mod budgets;
mod gates;
mod in_order;
mod uploads;
mod watched;

use cv_cache::Cached;
use cv_pool::{Open, Pool};
use std::alloc::Global;
use std::test::Fail;

/// A pool of `workers` workers, with a cache of its own.
fn pool_of(alloc: Global, workers: u32) -> Result<Pool<Cached, Open>, Fail> {
    if workers == 0 || workers > 16 {
        return Err("no pool has so many workers".into());
    }
    let cached = Cached::new(alloc)?;
    Ok(Pool::new(alloc, workers, cached, Open)?)
}
