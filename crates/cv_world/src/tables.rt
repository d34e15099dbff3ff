//! Changes the tables in the map of callers, and says by how many bytes their count changes.
ghost use Rattle.std.specs.Prelude.{◌≡◌, ◌≢◌, ◌≤◌, ◌<◌, ◌+◌, ℕ, true, Some, None, IfOk, OnErr, OnOk, length};
ghost use Rattle.std.specs.Prelude.{if◌then◌else◌};
ghost use Rattle.std.specs.Arc.{arc_value};
ghost use Rattle.std.specs.BTreeMap.{btree_map_len};
ghost use Rattle.cv_caller.specs.Keyed.{no_keys, place_at, with_place, held_by, AreHeld};
ghost use Rattle.cv_caller.specs.Results.{IsDropped, IsPart};
ghost use Rattle.cv_caller.specs.declared.limits.TheConstants.{DESCRIPTORS, DESCRIPTOR_BYTES};
ghost use Rattle.cv_world.specs.Budgets.{held_in, Exchanges};
ghost use Rattle.cv_world.specs.Private.Changes.{HasTable, IsAbsent, IsPut, SetsKeyed};
ghost use Rattle.cv_world.specs.Worlds.{keyed_in};

use crate::kept::Kept;
use cv_base::Memory;
use cv_caller::{AddFault, CALLER_BYTES, DESCRIPTORS, DropFault, PartFault, Place, Table};
use cv_trie::Charmap;
use std::alloc::Global;
use std::collections::BTreeMap;
use std::sync::Arc;

/// Gives a caller that has no table this one.
pub(crate) fn insert(
    map: &mut BTreeMap<u32, Kept>,
    alloc: Global,
    caller: u32,
    table: Table,
) -> Result<(), Memory>
    requires { IsAbsent map.old caller }
    ensures ok { OnOk result (SetsKeyed (keyed_in map.old) (keyed_in map.new) caller table) }
    ensures err { OnErr result ((c : ℕ) → keyed_in map.new c ≡ keyed_in map.old c) }
    ensures there { OnOk result (HasTable map.new caller) }
    ensures counted { OnOk result (held_in map.new ≡ held_in map.old + held_by table) }
    ensures stays { OnErr result (held_in map.new ≡ held_in map.old) }
    ensures len { OnOk result (btree_map_len map.new ≡ btree_map_len map.old + 1) }
    ensures same_len { OnErr result (btree_map_len map.new ≡ btree_map_len map.old) }
{
    let kept = Kept::new(alloc, table)?;
    map.insert(caller, kept)?;
    Ok(())
}

/// Removes a caller that has no bound number, and returns the number of bytes that it was counted for.
pub(crate) fn remove(map: &mut BTreeMap<u32, Kept>, caller: u32) -> u64
    requires { (number : ℕ) → place_at (keyed_in map.old caller) number ≡ None }
    ensures sets { SetsKeyed (keyed_in map.old) (keyed_in map.new) caller no_keys }
    ensures counted { held_in map.new + result ≡ held_in map.old }
    ensures len { btree_map_len map.new ≤ btree_map_len map.old }
{
    match map.remove(&caller) {
        Some(kept) => CALLER_BYTES + kept.table.upload_bytes(),
        None => 0,
    }
}

/// Binds a number of a caller that has a table.
pub(crate) fn bind(map: &mut BTreeMap<u32, Kept>, caller: u32, number: u32, place: Place)
    requires there { HasTable map.old caller }
    requires within { number < DESCRIPTORS }
    requires free { place_at (keyed_in map.old caller) number ≡ None }
    requires held { AreHeld (keyed_in map.old caller).charmaps place }
    ensures sets { SetsKeyed (keyed_in map.old) (keyed_in map.new) caller
        (with_place (keyed_in map.old caller) number (Some place)) }
    ensures counted { held_in map.new ≡ held_in map.old + DESCRIPTOR_BYTES }
    ensures len { btree_map_len map.new ≡ btree_map_len map.old }
{
    if let Some(kept) = map.get_mut(&caller) {
        kept.table.bind(number, place);
    }
}

/// Frees a number of a caller that has a table, and returns whether the number was bound.
pub(crate) fn unbind(map: &mut BTreeMap<u32, Kept>, caller: u32, number: u32) -> bool
    requires { HasTable map.old caller }
    ensures sets { SetsKeyed (keyed_in map.old) (keyed_in map.new) caller
        (with_place (keyed_in map.old caller) number None) }
    ensures counted { held_in map.new + (if result then DESCRIPTOR_BYTES else 0) ≡ held_in map.old }
    ensures len { btree_map_len map.new ≡ btree_map_len map.old }
{
    match map.get_mut(&caller) {
        Some(kept) => kept.table.unbind(number).is_some(),
        None => false,
    }
}

/// Holds a charmap in a table, in place of the part of the upload, and returns the number of bytes that it is counted
/// for: at most `left`.
pub(crate) fn put_one(
    table: &mut Table,
    alloc: Global,
    charmap: Arc<Charmap>,
    left: u64,
) -> Result<u32, AddFault>
    ensures put { IsPut table.old (arc_value charmap) result table.new }
    ensures within { IfOk result (λ bytes. bytes ≤ left) }
{
    let bytes = table.add_map(alloc, charmap, left)?;
    table.clear_part();
    Ok(bytes)
}

/// Holds a charmap of a caller, in place of the part of its upload, and returns the number of bytes that it is counted
/// for: at most `left`.
pub(crate) fn put(
    map: &mut BTreeMap<u32, Kept>,
    alloc: Global,
    caller: u32,
    charmap: Arc<Charmap>,
    left: u64,
) -> Result<u32, AddFault>
    requires { HasTable map.old caller }
    ensures own { IsPut (keyed_in map.old caller) (arc_value charmap) result (keyed_in map.new caller) }
    ensures others { (other : ℕ) → other ≢ caller → keyed_in map.new other ≡ keyed_in map.old other }
    ensures within { IfOk result (λ bytes. bytes ≤ left) }
    ensures sum { IfOk result
        (λ bytes. held_in map.new + length (keyed_in map.old caller).part ≡ held_in map.old + bytes) }
    ensures counted { Exchanges map.old map.new caller }
    ensures len { btree_map_len map.new ≡ btree_map_len map.old }
{
    let Some(kept) = map.get_mut(&caller) else {
        unreachable!()
    };
    put_one(&mut kept.table, alloc, charmap, left)
}

/// Drops a charmap, and returns the number of bytes that it was counted for.
pub(crate) fn drop_map(
    map: &mut BTreeMap<u32, Kept>,
    caller: u32,
    name: &[u8],
) -> Result<u32, DropFault>
    ensures own { IsDropped (keyed_in map.old caller) name.now result (keyed_in map.new caller) }
    ensures others { (other : ℕ) → other ≢ caller → keyed_in map.new other ≡ keyed_in map.old other }
    ensures counted { Exchanges map.old map.new caller }
    ensures len { btree_map_len map.new ≡ btree_map_len map.old }
{
    match map.get_mut(&caller) {
        Some(kept) => kept.table.drop_map(name),
        None => Table::new().drop_map(name),
    }
}

/// Appends to the part of an upload at most `left` bytes, and returns how many bytes the part has.
pub(crate) fn part(
    map: &mut BTreeMap<u32, Kept>,
    alloc: Global,
    caller: u32,
    bytes: &[u8],
    left: u64,
) -> Result<u32, PartFault>
    requires { HasTable map.old caller }
    ensures own { IsPart (keyed_in map.old caller) bytes.now result (keyed_in map.new caller) }
    ensures others { (other : ℕ) → other ≢ caller → keyed_in map.new other ≡ keyed_in map.old other }
    ensures within { OnOk result (length bytes.now ≤ left) }
    ensures sum { IfOk result
        (λ count. held_in map.new + length (keyed_in map.old caller).part ≡ held_in map.old + count) }
    ensures counted { Exchanges map.old map.new caller }
    ensures len { btree_map_len map.new ≡ btree_map_len map.old }
{
    let Some(kept) = map.get_mut(&caller) else {
        unreachable!()
    };
    kept.table.add_part(alloc, bytes, left)
}
