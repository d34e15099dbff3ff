//! Counters that threads may write and read at the same time.
ghost use Rattle.std.specs.Prelude.{◌≡◌, IfOk, vec_len};

use std::alloc::{AllocError, Global};
use std::sync::atomic::{AtomicU64, Ordering};

/// Allocates `count` counters, all 0.
pub(crate) fn zeros(alloc: Global, count: usize) -> Result<Vec<AtomicU64>, AllocError>
    ensures { IfOk result (λ cells. vec_len cells ≡ count) }
{
    let mut cells = Vec::with_capacity(alloc, count)?;
    for _cell in 0..count {
        cells.push(AtomicU64::new(0))?;
    }
    Ok(cells)
}

/// Adds `more` to the counter at an index, modulo 2^64. Without such a counter it does nothing.
pub(crate) fn add(cells: &Vec<AtomicU64>, index: usize, more: u64) {
    if let Some(cell) = cells.get(index) {
        cell.fetch_add(more, Ordering::Relaxed);
    }
}

/// The counter at an index, or 0 without such a counter.
pub(crate) fn count_at(cells: &Vec<AtomicU64>, index: usize) -> u64 {
    match cells.get(index) {
        Some(cell) => cell.load(Ordering::Relaxed),
        None => 0,
    }
}
