//! Changes the tables of callers, and counts each change against the budget.
ghost use Rattle.std.specs.Prelude.{◌≡◌, ◌≢◌, ◌≤◌, ◌<◌, ◌+◌, ℕ, Some, None, IfOk, OnOk, OnErr};
ghost use Rattle.std.specs.Arc.{arc_value};
ghost use Rattle.cv_caller.specs.Keyed.{no_keys, place_at, with_place, AreHeld};
ghost use Rattle.cv_caller.specs.Results.{IsDropped, IsPart};
ghost use Rattle.cv_caller.specs.declared.limits.TheConstants.{DESCRIPTORS, DESCRIPTOR_BYTES};
ghost use Rattle.cv_world.specs.Private.Changes.{HasTable, IsAbsent, IsPut, SetsKeyed};
ghost use Rattle.cv_world.specs.Worlds.{keyed_in};

use crate::callers::part_len_in;
use crate::counted::{Callers, exchanged};
use crate::tables::{bind, drop_map, insert, part, put, put_one, remove, unbind};
use cv_base::Memory;
use cv_caller::{
    AddFault, CALLER_BYTES, DESCRIPTOR_BYTES, DESCRIPTORS, DropFault, PartFault, Place, Table,
};
use cv_trie::Charmap;
use std::alloc::Global;
use std::sync::Arc;

/// Makes an empty table if the caller has none. On success the budget has room for one more descriptor.
pub(crate) fn make_room(callers: &mut Callers, alloc: Global, caller: u32) -> Result<(), Memory>
    ensures same { (c : ℕ) → keyed_in callers.new.map c ≡ keyed_in callers.old.map c }
    ensures there { OnOk result (HasTable callers.new.map caller) }
    ensures room { OnOk result (callers.new.held + DESCRIPTOR_BYTES ≤ callers.new.budget.bytes) }
    ensures budget { callers.new.budget ≡ callers.old.budget }
{
    if callers.map.contains_key(&caller) {
        if callers.may_take(DESCRIPTOR_BYTES) {
            return Ok(());
        }
        return Err(Memory);
    }
    if !callers.may_enter(CALLER_BYTES + DESCRIPTOR_BYTES) {
        return Err(Memory);
    }
    insert(&mut callers.map, alloc, caller, Table::new())?;
    callers.held += CALLER_BYTES;
    Ok(())
}

/// Binds a number of a caller that has a table.
pub(crate) fn bind_in(callers: &mut Callers, caller: u32, number: u32, place: Place)
    requires there { HasTable callers.old.map caller }
    requires within { number < DESCRIPTORS }
    requires free { place_at (keyed_in callers.old.map caller) number ≡ None }
    requires held { AreHeld (keyed_in callers.old.map caller).charmaps place }
    requires room { callers.old.held + DESCRIPTOR_BYTES ≤ callers.old.budget.bytes }
    ensures sets { SetsKeyed (keyed_in callers.old.map) (keyed_in callers.new.map) caller
        (with_place (keyed_in callers.old.map caller) number (Some place)) }
    ensures budget { callers.new.budget ≡ callers.old.budget }
{
    bind(&mut callers.map, caller, number, place);
    callers.held += DESCRIPTOR_BYTES;
}

/// Frees a number of a caller that has a table.
pub(crate) fn unbind_in(callers: &mut Callers, caller: u32, number: u32)
    requires { HasTable callers.old.map caller }
    ensures sets { SetsKeyed (keyed_in callers.old.map) (keyed_in callers.new.map) caller
        (with_place (keyed_in callers.old.map caller) number None) }
    ensures budget { callers.new.budget ≡ callers.old.budget }
{
    if unbind(&mut callers.map, caller, number) {
        callers.held -= DESCRIPTOR_BYTES;
    }
}

/// Gives a caller that has no table this one, in which no number is bound.
fn keep(callers: &mut Callers, alloc: Global, caller: u32, table: Table) -> Result<(), Memory>
    requires absent { IsAbsent callers.old.map caller }
    requires unbound { table.places ≡ no_keys.places }
    ensures ok { OnOk result (SetsKeyed (keyed_in callers.old.map) (keyed_in callers.new.map) caller table) }
    ensures err { OnErr result ((c : ℕ) → keyed_in callers.new.map c ≡ keyed_in callers.old.map c) }
    ensures budget { callers.new.budget ≡ callers.old.budget }
{
    let bytes = CALLER_BYTES + table.upload_bytes();
    if !callers.may_enter(bytes) {
        return Err(Memory);
    }
    insert(&mut callers.map, alloc, caller, table)?;
    callers.held += bytes;
    Ok(())
}

/// Holds the first charmap of a caller that has no table. The table is complete before it is kept, so that nothing has
/// to be undone if that is refused.
fn put_first(
    callers: &mut Callers,
    alloc: Global,
    caller: u32,
    charmap: Arc<Charmap>,
) -> Result<u32, AddFault>
    requires { IsAbsent callers.old.map caller }
    ensures own { IsPut (keyed_in callers.old.map caller) (arc_value charmap) result (keyed_in callers.new.map caller) }
    ensures others { (other : ℕ) → other ≢ caller → keyed_in callers.new.map other ≡ keyed_in callers.old.map other }
    ensures budget { callers.new.budget ≡ callers.old.budget }
{
    let mut table = Table::new();
    let bytes = put_one(&mut table, alloc, charmap, u64::MAX)?;
    match keep(callers, alloc, caller, table) {
        Ok(()) => Ok(bytes),
        Err(_) => Err(AddFault::Memory),
    }
}

/// Holds a charmap for a caller, in place of the part of its upload. Returns the number of bytes that the charmap is
/// counted for.
pub(crate) fn put_in(
    callers: &mut Callers,
    alloc: Global,
    caller: u32,
    charmap: Arc<Charmap>,
) -> Result<u32, AddFault>
    ensures own { IsPut (keyed_in callers.old.map caller) (arc_value charmap) result (keyed_in callers.new.map caller) }
    ensures others { (other : ℕ) → other ≢ caller → keyed_in callers.new.map other ≡ keyed_in callers.old.map other }
    ensures budget { callers.new.budget ≡ callers.old.budget }
{
    callers.is_full = false;
    if !callers.map.contains_key(&caller) {
        return put_first(callers, alloc, caller, charmap);
    }
    let before = part_len_in(&callers.map, caller);
    let left = callers.left().saturating_add(before);
    match put(&mut callers.map, alloc, caller, charmap, left) {
        Ok(bytes) => {
            callers.held = exchanged(callers.held, before, u64::from(bytes));
            Ok(bytes)
        }
        Err(fault) => {
            callers.is_full = matches!(fault, AddFault::Full);
            Err(fault)
        }
    }
}

/// Drops a caller's charmap. Returns the number of bytes that it was counted for.
pub(crate) fn drop_in(callers: &mut Callers, caller: u32, name: &[u8]) -> Result<u32, DropFault>
    ensures own { IsDropped (keyed_in callers.old.map caller) name.now result (keyed_in callers.new.map caller) }
    ensures others { (other : ℕ) → other ≢ caller → keyed_in callers.new.map other ≡ keyed_in callers.old.map other }
    ensures budget { callers.new.budget ≡ callers.old.budget }
{
    let bytes = drop_map(&mut callers.map, caller, name)?;
    callers.held -= u64::from(bytes);
    Ok(bytes)
}

/// Takes the first part of an upload of a caller that has no table. The table is complete before it is kept, so that
/// nothing has to be undone if that is refused.
fn part_first(
    callers: &mut Callers,
    alloc: Global,
    caller: u32,
    bytes: &[u8],
) -> Result<u32, PartFault>
    requires { IsAbsent callers.old.map caller }
    ensures own { IsPart (keyed_in callers.old.map caller) bytes.now result (keyed_in callers.new.map caller) }
    ensures others { (other : ℕ) → other ≢ caller → keyed_in callers.new.map other ≡ keyed_in callers.old.map other }
    ensures budget { callers.new.budget ≡ callers.old.budget }
{
    if bytes.is_empty() {
        return Ok(0);
    }
    let mut table = Table::new();
    let count = table.add_part(alloc, bytes, u64::MAX)?;
    match keep(callers, alloc, caller, table) {
        Ok(()) => Ok(count),
        Err(_) => Err(PartFault::Memory),
    }
}

/// Appends to the part of a caller's upload, and returns how many bytes it has. An empty body drops the part, and needs
/// no memory.
pub(crate) fn part_in(
    callers: &mut Callers,
    alloc: Global,
    caller: u32,
    bytes: &[u8],
) -> Result<u32, PartFault>
    ensures own { IsPart (keyed_in callers.old.map caller) bytes.now result (keyed_in callers.new.map caller) }
    ensures others { (other : ℕ) → other ≢ caller → keyed_in callers.new.map other ≡ keyed_in callers.old.map other }
    ensures budget { callers.new.budget ≡ callers.old.budget }
{
    callers.is_full = false;
    if !callers.map.contains_key(&caller) {
        return part_first(callers, alloc, caller, bytes);
    }
    let before = part_len_in(&callers.map, caller);
    let left = callers.left();
    match part(&mut callers.map, alloc, caller, bytes, left) {
        Ok(count) => {
            callers.held = exchanged(callers.held, before, u64::from(count));
            Ok(count)
        }
        Err(fault) => {
            callers.is_full = matches!(fault, PartFault::Full);
            Err(fault)
        }
    }
}

/// How many bytes any charmap is counted for at least: its table of single bytes.
const LEAST_MAP: u64 = 1_024;

/// Returns whether the budget may have room for a charmap of a caller, if it is small enough.
pub(crate) fn may_hold_map(callers: &Callers, caller: u32) -> bool {
    let left = callers.left();
    if callers.map.contains_key(&caller) {
        return LEAST_MAP <= left.saturating_add(part_len_in(&callers.map, caller));
    }
    callers.map.len() < callers.budget.callers as usize && CALLER_BYTES + LEAST_MAP <= left
}

/// Removes a caller that has no bound number.
pub(crate) fn remove_in(callers: &mut Callers, caller: u32)
    requires { (number : ℕ) → place_at (keyed_in callers.old.map caller) number ≡ None }
    ensures sets { SetsKeyed (keyed_in callers.old.map) (keyed_in callers.new.map) caller no_keys }
    ensures budget { callers.new.budget ≡ callers.old.budget }
{
    let bytes = remove(&mut callers.map, caller);
    callers.held -= bytes;
}

/// Frees the memory of a caller whose table is empty.
pub(crate) fn forget_empty(callers: &mut Callers, caller: u32)
    ensures same { (c : ℕ) → keyed_in callers.new.map c ≡ keyed_in callers.old.map c }
    ensures budget { callers.new.budget ≡ callers.old.budget }
{
    let Some(kept) = callers.map.get(&caller) else {
        return;
    };
    if kept.table.is_empty() {
        remove_in(callers, caller);
    }
}

/// Returns whether the budget has room for one more descriptor of a caller.
pub(crate) fn may_open(callers: &Callers, caller: u32) -> bool {
    if callers.map.contains_key(&caller) {
        return DESCRIPTOR_BYTES <= callers.left();
    }
    CALLER_BYTES + DESCRIPTOR_BYTES <= callers.left()
        && callers.map.len() < callers.budget.callers as usize
}
