//! For each byte the index of its row or cell, in one table for single bytes and for pairs.
ghost use Rattle.std.specs.Prelude.{◌≡◌, ◌≤◌, ◌<◌, ◌+◌, ◌-◌, ℕ, List, length, slice_index, IfOk};
ghost use Rattle.cv_charmap.specs.Entries.{Pair};
ghost use Rattle.cv_trie.specs.Private.Twos.{AreTwos, row_of};
ghost use Rattle.cv_trie.specs.Private.Starts.{AreStarts};

use crate::firsts::Firsts;
use crate::reading_singles::NO_CHARACTER;
use crate::rows::{Rows, SINGLES};
use crate::singles::Singles;
use std::alloc::{AllocError, Global};

/// Puts what each byte below 128 is by itself into the cells after the rows.
fn put_singles(singles: &Singles, rows: &mut Rows)
    requires { 128 ≤ length rows.old.cells.items }
    ensures size { length rows.new.cells.items ≡ length rows.old.cells.items }
    ensures rows { (pairs : List Pair) → AreTwos pairs singles.now.cells.items rows.old.cells.items
        → AreTwos pairs singles.now.cells.items rows.new.cells.items }
    ensures singles { (b : ℕ) → b < 128
        → slice_index rows.new.cells.items (length rows.new.cells.items - 128 + b)
        ≡ slice_index singles.now.cells.items b }
{
    let start = rows.cells.len() - SINGLES;
    for byte in 0..SINGLES {
        rows.cells[start + byte] = singles.cells[byte];
    }
}

/// Returns the index of a byte's own cell if it is below 128, or else that of its row.
fn offset_of(singles: &Singles, rows: &Rows, byte: u8) -> u32
    ensures single { byte < 128 → result ≡ length rows.now.cells.items - 128 + byte }
    ensures first { 128 ≤ byte → result ≡ row_of singles.now.cells.items byte }
{
    if (byte as usize) < SINGLES {
        (rows.cells.len().saturating_sub(SINGLES) + byte as usize) as u32
    } else {
        singles.cells[byte as usize].saturating_sub(NO_CHARACTER)
    }
}

/// Returns for each byte below 128 the index of its own cell, and for any other the index of its row. The table is
/// empty if no byte has a row, or if eight characters at once are not to be tried.
pub(crate) fn row_offsets_of(
    alloc: Global,
    firsts: &Firsts,
    singles: &Singles,
    rows: &mut Rows,
) -> Result<Vec<u32>, AllocError>
    ensures size { length rows.new.cells.items ≡ length rows.old.cells.items }
    ensures rows { (pairs : List Pair) → AreTwos pairs singles.now.cells.items rows.old.cells.items
        → AreTwos pairs singles.now.cells.items rows.new.cells.items }
    ensures offsets { IfOk result (λ offsets. 0 < length offsets.items
        → AreStarts singles.now.cells.items rows.new.cells.items offsets.items) }
{
    if rows.cells.len() < SINGLES || !firsts.try_eight() {
        return Ok(Vec::new(alloc));
    }
    put_singles(singles, rows);
    let mut offsets = vec![in alloc; 0; 256]?;
    for byte in 0..256 {
        offsets[byte] = offset_of(singles, rows, byte as u8);
    }
    Ok(offsets)
}
