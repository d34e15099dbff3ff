//! The storage of uploads.
ghost use Rattle.std.specs.Prelude.{◌≡◌, ◌+◌, ◌<◌, ◌++◌, ◌↔◌, [], IsTrue, IsSome, length, OnOk, OnErr, slice_set};
ghost use Rattle.std.specs.Prelude.{option_map};
ghost use Rattle.cv_caller.specs.Private.Uploaded.{no_uploads};
ghost use Rattle.cv_caller.specs.Private.Views.{bytes_at, part_of, stored_in, uploaded_of, weighed_bytes};
ghost use Rattle.cv_caller.specs.Private.Views.{weighed_value};

use crate::charmaps::{bytes_of_held, has_charmaps};
use crate::limits::CHARMAPS;
use crate::weighed::Weighed;
use cv_base::Memory;
use std::alloc::Global;

/// Charmaps by slot, and the part of one that is still being uploaded.
#[derive(Drop)]
pub(crate) struct Store {
    pub(crate) charmaps: [Option<Weighed>; CHARMAPS],
    pub(crate) part: Option<Vec<u8>>,
}

/// How many bytes a part has; 0 without one.
fn part_len(part: &Option<Vec<u8>>) -> usize
    ensures { result ≡ length (part_of part.now) }
{
    match part {
        Some(bytes) => bytes.len(),
        None => 0,
    }
}

/// Whether a store has no charmap, and no bytes in its part.
pub(crate) fn is_bare(store: &Store) -> bool
    ensures { IsTrue result ↔ (stored_in store.now ≡ no_uploads) }
{
    if has_charmaps(&store.charmaps) {
        return false;
    }
    part_len(&store.part) == 0
}

/// Makes an empty store if there is none.
pub(crate) fn make_store(alloc: Global, store: &mut Option<Box<Store>>) -> Result<(), Memory>
    ensures same { uploaded_of store.new ≡ uploaded_of store.old }
    ensures there { OnOk result (IsSome store.new) }
{
    if store.is_none() {
        let empty = Store {
            charmaps: [None, None, None, None, None, None, None, None],
            part: None,
        };
        *store = Some(Box::new(alloc, empty)?);
    }
    Ok(())
}

/// Puts a charmap into a slot, or with `None` frees the slot.
pub(crate) fn set_charmap(store: &mut Option<Box<Store>>, slot: u8, charmap: Option<Weighed>)
    requires there { IsSome store.old }
    requires within { slot < CHARMAPS }
    ensures same { uploaded_of store.new ≡ record (uploaded_of store.old) {
      charmaps = slice_set (uploaded_of store.old).charmaps slot (option_map weighed_value charmap);
      bytes = (uploaded_of store.new).bytes;
    } }
    ensures bytes { (uploaded_of store.new).bytes + bytes_at store.old slot
        ≡ (uploaded_of store.old).bytes + weighed_bytes charmap }
{
    let Some(store) = store else { unreachable!() };
    store.charmaps[slot as usize] = charmap;
}

/// How many bytes the charmap in a slot counts for; 0 without one.
pub(crate) fn bytes_in(store: &Option<Box<Store>>, slot: u8) -> u32
    requires { slot < CHARMAPS }
    ensures { result ≡ bytes_at store.now slot }
{
    match store {
        Some(store) => bytes_of_held(&store.charmaps[slot as usize]),
        None => 0,
    }
}

/// Appends bytes to the part of a store.
fn extend(alloc: Global, store: &mut Store, bytes: &[u8]) -> Result<(), Memory>
    ensures ok { OnOk result (part_of store.new.part ≡ part_of store.old.part ++ bytes.now) }
    ensures err { OnErr result (part_of store.new.part ≡ part_of store.old.part) }
    ensures same { store.new.charmaps ≡ store.old.charmaps }
{
    match &mut store.part {
        Some(part) => part.extend_from_slice(bytes)?,
        None => store.part = Some(Vec::from_slice(alloc, bytes)?),
    }
    Ok(())
}

/// Appends bytes to the part. If an allocation fails, the part stays as it is.
pub(crate) fn append(
    alloc: Global,
    store: &mut Option<Box<Store>>,
    bytes: &[u8],
) -> Result<(), Memory>
    requires { IsSome store.old }
    ensures ok { OnOk result (uploaded_of store.new ≡ record (uploaded_of store.old)
        { part = (uploaded_of store.old).part ++ bytes.now }) }
    ensures err { OnErr result (uploaded_of store.new ≡ uploaded_of store.old) }
{
    let Some(store) = store else { unreachable!() };
    extend(alloc, store, bytes)
}

/// Drops the part.
pub(crate) fn clear(store: &mut Option<Box<Store>>)
    ensures { uploaded_of store.new ≡ record (uploaded_of store.old) { part = [] } }
{
    if let Some(store) = store {
        store.part = None;
    }
}
