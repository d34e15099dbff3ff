//! Reads the tables of callers.
ghost use Rattle.std.specs.Prelude.{◌≡◌, ◌<◌, ◌≤◌, ◌++◌, [], false, length, IfSome, IfOk, IfErr};
ghost use Rattle.cv_caller.specs.Keyed.{place_at, IsKeyed};
ghost use Rattle.cv_caller.specs.declared.limits.TheConstants.{DESCRIPTORS};
ghost use Rattle.cv_world.specs.Private.Opening.{DeclinesOpen, IsOpening};
ghost use Rattle.cv_world.specs.Private.Changes.{ClosedWhereNot};
ghost use Rattle.cv_world.specs.Worlds.{keyed_in};

use crate::kept::Kept;
use crate::opening::{Opening, prepare};
use cv_base::{Memory, Policy};
use cv_caller::{DESCRIPTORS, Place, Table};
use cv_frame::Status;
use std::alloc::Global;
use std::collections::BTreeMap;

/// Returns what a caller's number is bound to.
pub(crate) fn place_in(callers: &BTreeMap<u32, Kept>, caller: u32, number: u32) -> Option<Place>
    ensures place { result ≡ place_at (keyed_in callers.now caller) number }
    ensures within { IfSome result (λ _. number < DESCRIPTORS) }
{
    match callers.get(&caller) {
        Some(kept) => kept.table.place(number),
        None => None,
    }
}

/// Returns for each number of a table whether it is bound.
fn bound_of(table: &Table) -> [bool; DESCRIPTORS]
    ensures { ClosedWhereNot (place_at table.now) result }
{
    let mut bound = [false; DESCRIPTORS];
    for (number, is_bound) in bound.iter_mut().enumerate() {
        *is_bound = table.place(number as u32).is_some();
    }
    bound
}

/// Returns for each number of a caller whether it is bound.
pub(crate) fn bound_in(callers: &BTreeMap<u32, Kept>, caller: u32) -> [bool; DESCRIPTORS]
    ensures { ClosedWhereNot (place_at (keyed_in callers.now caller)) result }
{
    match callers.get(&caller) {
        Some(kept) => bound_of(&kept.table),
        None => bound_of(&Table::new()),
    }
}

/// States the invariant of a caller's table. It does nothing.
pub(crate) fn assert_keyed(callers: &BTreeMap<u32, Kept>, caller: u32)
    ensures { IsKeyed (keyed_in callers.now caller) }
{
    match callers.get(&caller) {
        Some(kept) => kept.table.assert_keyed(),
        None => Table::new().assert_keyed(),
    }
}

/// Returns what a caller's OPEN needs, or the status if it is refused. Changes nothing.
pub(crate) fn prepare_in(
    callers: &BTreeMap<u32, Kept>,
    caller: u32,
    to: &[u8],
    from: &[u8],
    policy: Policy,
) -> Result<Opening, Status>
    ensures declines { IfErr result (λ s. DeclinesOpen (keyed_in callers.now caller) to.now from.now s) }
    ensures opening { IfOk result (λ o. IsOpening (keyed_in callers.now caller) to.now from.now policy o) }
{
    match callers.get(&caller) {
        Some(kept) => prepare(&kept.table, to, from, policy),
        None => prepare(&Table::new(), to, from, policy),
    }
}

/// Returns how many bytes the part of a caller's upload has.
pub(crate) fn part_len_in(callers: &BTreeMap<u32, Kept>, caller: u32) -> u64
    ensures { result ≡ length (keyed_in callers.now caller).part }
{
    match callers.get(&caller) {
        Some(kept) => kept.table.part().len() as u64,
        None => 0,
    }
}

/// Returns whether a part of an upload is held for a caller.
pub(crate) fn has_part_in(callers: &BTreeMap<u32, Kept>, caller: u32) -> bool
    ensures { result ≡ false → (keyed_in callers.now caller).part ≡ [] }
{
    match callers.get(&caller) {
        Some(kept) => !kept.table.part().is_empty(),
        None => false,
    }
}

/// Returns two texts as one, by one allocation.
fn concatenated(alloc: Global, first: &[u8], second: &[u8]) -> Result<Vec<u8>, Memory>
    ensures { IfOk result (λ text. text.items ≡ first.now ++ second.now) }
{
    let mut text = Vec::with_capacity(alloc, first.len().saturating_add(second.len()))?;
    text.extend_from_slice(first)?;
    text.extend_from_slice(second)?;
    Ok(text)
}

/// Returns a caller's part of an upload, followed by these bytes.
pub(crate) fn gather_in(
    alloc: Global,
    callers: &BTreeMap<u32, Kept>,
    caller: u32,
    body: &[u8],
) -> Result<Vec<u8>, Memory>
    ensures { IfOk result (λ text. text.items ≡ (keyed_in callers.now caller).part ++ body.now) }
{
    match callers.get(&caller) {
        Some(kept) => concatenated(alloc, kept.table.part(), body),
        None => concatenated(alloc, b"", body),
    }
}
