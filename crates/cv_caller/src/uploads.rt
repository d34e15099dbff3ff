//! What a caller has uploaded.
ghost use Rattle.std.specs.Prelude.{◌≡◌, ◌+◌, ◌<◌, ◌≤◌, ◌^◌, ◌++◌, ◌↔◌, [], true, length, None, Some, IsTrue, IfSome};
ghost use Rattle.std.specs.Prelude.{IfOk, OnOk, OnErr, is_none, is_some, slice_set};
ghost use Rattle.std.specs.Arc.{arc_value};
ghost use Rattle.cv_pivot.specs.Encodings.{form_of, Mapped};
ghost use Rattle.cv_caller.specs.Tables.{charmap_at, pairs_in, place_of, least_place, mappings};
ghost use Rattle.cv_caller.specs.Results.{is_full};
ghost use Rattle.cv_caller.specs.Private.Uploaded.{no_uploads, IsUploaded};

use crate::charmaps::{count_bytes, count_mappings, first_slot, slot_named};
use crate::limits::{CHARMAPS, MOST_MAPPINGS, MOST_PART};
use crate::store::{Store, append, bytes_in, clear, is_bare, make_store, set_charmap};
use crate::weighed::Weighed;
use cv_base::Memory;
use cv_pivot::Encoding;
use std::alloc::Global;
use std::marker::Model;
use std::sync::Arc;

/// What a caller has uploaded: charmaps, and the part of one that is still being uploaded. Most callers upload nothing,
/// so the store is allocated at the first upload. Contracts see the charmaps' names and lists of pairs, the part, and
/// how many bytes the charmaps count for.
#[derive(Drop)]
pub(crate) struct Uploads {
    store: Option<Box<Store>>,
}

impl Model for Uploads {
    ghost use Rattle.cv_caller.specs.Private.Uploaded.{Uploaded, IsUploaded};
    ghost use Rattle.cv_caller.specs.Private.Views.{uploaded_of};

    ghost Value = { Uploaded };

    ghost view = { λ u. uploaded_of u.store };

    ghost invariant = { λ u. IsUploaded (uploaded_of u.store) };
}

impl Uploads {
    /// No uploads. It allocates nothing.
    pub(crate) fn new() -> Uploads
        ensures { result ≡ no_uploads }
    {
        Uploads { store: None }
    }

    /// States for proofs that the uploads are within their limits. It does nothing.
    pub(crate) fn assert_uploaded(&self)
        ensures { IsUploaded self.now }
    {
        let _ = &self.store;
    }

    /// Whether there is no charmap and no part.
    pub(crate) fn is_empty(&self) -> bool
        ensures { IsTrue result ↔ (self.now ≡ no_uploads) }
    {
        match &self.store {
            Some(store) => is_bare(store),
            None => true,
        }
    }

    /// Frees the store's memory if nothing is in it.
    fn release(&mut self)
        ensures { self.new ≡ self.old }
    {
        if self.is_empty() {
            *self = Uploads::new();
        }
    }

    /// The slot of the charmap of this name.
    pub(crate) fn find(&self, name: &[u8]) -> Option<u8>
        ensures slot { result ≡ place_of self.now.charmaps name.now }
        ensures held { IfSome result (λ slot. is_some (charmap_at self.now.charmaps slot) ≡ true) }
        ensures within { IfSome result (λ slot. slot < CHARMAPS) }
    {
        let Some(store) = &self.store else {
            return None;
        };
        match slot_named(&store.charmaps, name) {
            Some(slot) => Some(slot as u8),
            None => None,
        }
    }

    /// The least free slot.
    pub(crate) fn least_slot(&self) -> Option<u8>
        ensures slot { result ≡ least_place self.now.charmaps }
        ensures within { IfSome result (λ slot. slot < CHARMAPS) }
    {
        let Some(store) = &self.store else {
            return Some(0);
        };
        match first_slot(&store.charmaps) {
            Some(slot) => Some(slot as u8),
            None => None,
        }
    }

    /// How many mappings the charmaps have together.
    pub(crate) fn mappings(&self) -> usize
        ensures value { result ≡ mappings self.now.charmaps }
        ensures few { result ≤ MOST_MAPPINGS }
    {
        match &self.store {
            Some(store) => count_mappings(&store.charmaps),
            None => 0,
        }
    }

    /// The least free slot, unless `more` further mappings are too many.
    pub(crate) fn slot_for(&self, more: usize) -> Option<u8>
        ensures full { is_none result ≡ is_full self.now.charmaps more }
        ensures slot { IfSome result (λ slot. least_place self.now.charmaps ≡ Some slot) }

        // A charmap of `more` mappings may be put there.
        ensures within { IfSome result (λ slot. slot < CHARMAPS) }
        ensures free { IfSome result (λ slot. charmap_at self.now.charmaps slot ≡ None) }
        ensures few { IfSome result (λ _. mappings self.now.charmaps + more ≤ MOST_MAPPINGS) }
    {
        if more > MOST_MAPPINGS - self.mappings() {
            return None;
        }
        self.least_slot()
    }

    /// The charmap in a slot, as an encoding.
    pub(crate) fn encoding(&self, slot: u8) -> Result<Encoding, Memory>
        requires { is_some (charmap_at self.now.charmaps slot) ≡ true }
        ensures { IfOk result (λ e. form_of e ≡ Mapped (pairs_in (charmap_at self.now.charmaps slot))) }
    {
        let Some(store) = &self.store else {
            unreachable!()
        };
        let Some(held) = &store.charmaps[slot as usize] else {
            unreachable!()
        };
        Ok(Encoding::Charmap(Arc::try_clone(&held.charmap)?))
    }

    /// Puts a charmap into a free slot.
    pub(crate) fn put(&mut self, alloc: Global, slot: u8, held: Weighed) -> Result<(), Memory>
        requires within { slot < CHARMAPS }
        requires free { charmap_at self.old.charmaps slot ≡ None }
        requires few { mappings self.old.charmaps + length (arc_value held.charmap).pairs ≤ MOST_MAPPINGS }
        ensures ok { OnOk result (self.new ≡ record self.old {
          charmaps = slice_set self.old.charmaps slot (Some (arc_value held.charmap));
          bytes = self.old.bytes + held.bytes;
        }) }
        ensures err { OnErr result (self.new ≡ self.old) }
    {
        let _ = held.charmap.len();
        make_store(alloc, &mut self.store)?;
        set_charmap(&mut self.store, slot, Some(held));
        Ok(())
    }

    /// Drops the charmap in a slot, and returns how many bytes it counted for.
    pub(crate) fn remove(&mut self, slot: u8) -> u32
        requires { is_some (charmap_at self.old.charmaps slot) ≡ true }
        ensures same { self.new
            ≡ record self.old { charmaps = slice_set self.old.charmaps slot None; bytes = self.new.bytes } }
        ensures bytes { self.new.bytes + result ≡ self.old.bytes }
    {
        let bytes = bytes_in(&self.store, slot);
        set_charmap(&mut self.store, slot, None);
        self.release();
        bytes
    }

    /// How many bytes the charmaps and the part count for.
    pub(crate) fn bytes(&self) -> u64
        ensures sum { result ≡ self.now.bytes + length self.now.part }
        ensures few { result < 2 ^ 41 }
    {
        match &self.store {
            Some(store) => count_bytes(&store.charmaps) + self.part().len() as u64,
            None => 0,
        }
    }

    /// The part; empty without one.
    pub(crate) fn part(&self) -> &[u8]
        ensures value { result.now ≡ self.now.part }
        ensures short { length result.now ≤ MOST_PART }
    {
        let Some(store) = &self.store else {
            return &[];
        };
        match &store.part {
            Some(bytes) => bytes.as_slice(),
            None => &[],
        }
    }

    /// Appends bytes to the part.
    pub(crate) fn append(&mut self, alloc: Global, bytes: &[u8]) -> Result<(), Memory>
        requires { length (self.old.part ++ bytes.now) ≤ MOST_PART }
        ensures ok { OnOk result (self.new ≡ record self.old { part = self.old.part ++ bytes.now }) }
        ensures err { OnErr result (self.new ≡ self.old) }
    {
        make_store(alloc, &mut self.store)?;
        append(alloc, &mut self.store, bytes)
    }

    /// Drops the part.
    pub(crate) fn clear_part(&mut self)
        ensures { self.new ≡ record self.old { part = [] } }
    {
        clear(&mut self.store);
        self.release();
    }
}
