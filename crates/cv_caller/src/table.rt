//! One caller's table.
ghost use Rattle.std.specs.Prelude.{◌≡◌, ◌+◌, ◌<◌, ◌≤◌, ◌^◌, ◌↔◌, [], true, length, None, Some, IsTrue, IfSome, IfOk};
ghost use Rattle.std.specs.Prelude.{OnOk, is_none, is_some};
ghost use Rattle.std.specs.Arc.{arc_value};
ghost use Rattle.std.specs.List.{position};
ghost use Rattle.std.specs.Option.{option_map};
ghost use Rattle.cv_pivot.specs.Encodings.{form_of, Mapped};
ghost use Rattle.cv_caller.specs.Tables.{charmap_at, pairs_in, named_of};
ghost use Rattle.cv_caller.specs.Keyed.{no_keys, place_at, place_bytes, with_place, keyed_with_part, held_by, AreHeld};
ghost use Rattle.cv_caller.specs.Keyed.{IsKeyed};
ghost use Rattle.cv_caller.specs.Results.{is_taken, named_found, IsFound, IsAdded, IsDropped, IsPart};
ghost use Rattle.cv_caller.specs.declared.limits.TheConstants.{CALLER_BYTES, DESCRIPTOR_BYTES};

use crate::faults::{AddFault, DropFault, PartFault};
use crate::limits::{DESCRIPTORS, MOST_PART};
use crate::place::{Found, Place};
use crate::places::{first_free, has_places, is_busy};
use crate::uploads::Uploads;
use crate::weighed::Weighed;
use cv_base::Memory;
use cv_pivot::{Encoding, builtin};
use cv_trie::Charmap;
use std::alloc::Global;
use std::marker::Model;
use std::sync::Arc;

/// One caller's charmaps, its descriptors by number, and the part of an upload. Contracts see a charmap as its name and
/// list of pairs, and a descriptor as the key of its conversion and the slots of its charmaps.
#[derive(Drop)]
pub struct Table {
    places: [Option<Place>; DESCRIPTORS],
    uploads: Uploads,
}

impl Model for Table {
    ghost use Rattle.cv_caller.specs.Keyed.{Keyed, ArePlaces};
    ghost use Rattle.cv_caller.specs.Private.Views.{keyed_of};

    ghost Value = { Keyed };

    ghost view = { λ t. keyed_of t.uploads t.places };

    ghost invariant = { λ t. ArePlaces t.uploads.charmaps t.places };
}

impl Table {
    /// Returns a table without charmaps, descriptors or part.
    pub fn new() -> Table
        ensures { result ≡ no_keys }
    {
        Table {
            places: [None; DESCRIPTORS],
            uploads: Uploads::new(),
        }
    }

    /// States for proofs that the table is within its limits. It does nothing.
    pub fn assert_keyed(&self)
        ensures { IsKeyed self.now }
    {
        self.uploads.assert_uploaded();
    }

    /// Returns whether the table has no charmap, no descriptor and no part.
    pub fn is_empty(&self) -> bool
        ensures { IsTrue result ↔ (self.now ≡ no_keys) }
    {
        if has_places(&self.places) {
            return false;
        }
        self.uploads.is_empty()
    }

    /// Returns the least free descriptor number. `None`: all 16 are in use.
    pub fn least_free(&self) -> Option<u32>
        ensures least { result ≡ position is_none self.now.places }
        ensures within { IfSome result (λ number. number < DESCRIPTORS) }
        ensures free { IfSome result (λ number. place_at self.now number ≡ None) }
    {
        match first_free(&self.places) {
            Some(number) => Some(number as u32),
            None => None,
        }
    }

    /// Returns what a descriptor number stands for. `None`: it is free, or there is no such number.
    pub fn place(&self, number: u32) -> Option<Place>
        ensures place { result ≡ place_at self.now number }
        ensures within { IfSome result (λ _. number < DESCRIPTORS) }
    {
        let number = number as usize;
        if number < DESCRIPTORS {
            self.places[number]
        } else {
            None
        }
    }

    /// Binds a free descriptor number. The charmaps of `descriptor` have to be held.
    pub fn bind(&mut self, number: u32, descriptor: Place)
        requires within { number < DESCRIPTORS }
        requires free { place_at self.old number ≡ None }
        requires held { AreHeld self.old.charmaps descriptor }
        ensures bound { self.new ≡ with_place self.old number (Some descriptor) }
        ensures counted { held_by self.new ≡ held_by self.old + DESCRIPTOR_BYTES }
    {
        self.places[number as usize] = Some(descriptor);
    }

    /// Frees a descriptor number, and returns what it stood for. A number that is not in use changes nothing.
    pub fn unbind(&mut self, number: u32) -> Option<Place>
        ensures place { result ≡ place_at self.old number }
        ensures free { self.new ≡ with_place self.old number None }
        ensures counted { held_by self.new + place_bytes result ≡ held_by self.old }
    {
        let bound = self.place(number);
        if bound.is_some() {
            self.places[number as usize] = None;
        }
        bound
    }

    /// Returns what a name stands for: a built-in encoding, or else a charmap that is held. The case of ASCII letters
    /// does not matter.
    pub fn find(&self, name: &[u8]) -> Option<Found>
        ensures named { option_map named_found result ≡ named_of self.now.charmaps name.now }
        ensures found { IfSome result (IsFound self.now.charmaps) }
    {
        if let Some(encoding) = builtin(name) {
            return Some(Found::Builtin(encoding));
        }
        match self.uploads.find(name) {
            Some(map) => Some(Found::Map(map)),
            None => None,
        }
    }

    /// Whether a built-in encoding or a charmap has this name.
    fn is_taken(&self, name: &[u8]) -> bool
        ensures { result ≡ is_taken self.now.charmaps name.now }
    {
        self.find(name).is_some()
    }

    /// Returns the charmap in a slot as an encoding, which shares it. It fails if an allocation fails.
    pub fn encoding(&self, map: u8) -> Result<Encoding, Memory>
        requires { is_some (charmap_at self.now.charmaps map) ≡ true }
        ensures { IfOk result (λ e. form_of e ≡ Mapped (pairs_in (charmap_at self.now.charmaps map))) }
    {
        self.uploads.encoding(map)
    }

    /// Puts a charmap into the least free slot, and returns how many bytes it counts for. A charmap that counts for
    /// more than `left` bytes is refused. One that is refused is dropped, and the table stays as it is.
    pub fn add_map(
        &mut self,
        alloc: Global,
        charmap: Arc<Charmap>,
        left: u64,
    ) -> Result<u32, AddFault>
        ensures added { IsAdded self.old (arc_value charmap) result self.new }
        ensures within { IfOk result (λ bytes. bytes ≤ left) }
    {
        if self.is_taken(charmap.name()) {
            return Err(AddFault::Exists);
        }
        let Some(map) = self.uploads.slot_for(charmap.len()) else {
            return Err(AddFault::Quota);
        };
        let held = Weighed::of(charmap);
        let bytes = held.bytes;
        if u64::from(bytes) > left {
            return Err(AddFault::Full);
        }
        let Ok(()) = self.uploads.put(alloc, map, held) else {
            return Err(AddFault::Memory);
        };
        Ok(bytes)
    }

    /// Drops the charmap of this name, and returns how many bytes it counted for. If a descriptor reads or writes it,
    /// it is kept: `Busy`.
    pub fn drop_map(&mut self, name: &[u8]) -> Result<u32, DropFault>
        ensures { IsDropped self.old name.now result self.new }
    {
        let Some(map) = self.uploads.find(name) else {
            return Err(DropFault::NoName);
        };
        if is_busy(&self.places, map) {
            return Err(DropFault::Busy);
        }
        let bytes = self.uploads.remove(map);
        Ok(bytes)
    }

    /// Returns the part of an upload, which is empty if nothing was sent.
    pub fn part(&self) -> &[u8]
        ensures value { result.now ≡ self.now.part }
        ensures short { length result.now ≤ MOST_PART }
    {
        self.uploads.part()
    }

    /// Appends bytes to the part, and returns how many bytes the part has then. Empty `bytes` drop the part, and need
    /// no memory. More than `left` bytes are refused. A refusal leaves the part as it is.
    pub fn add_part(&mut self, alloc: Global, bytes: &[u8], left: u64) -> Result<u32, PartFault>
        ensures parted { IsPart self.old bytes.now result self.new }
        ensures within { OnOk result (length bytes.now ≤ left) }
    {
        if bytes.is_empty() {
            self.clear_part();
            return Ok(0);
        }
        if bytes.len() > MOST_PART - self.part().len() {
            return Err(PartFault::Quota);
        }
        if bytes.len() as u64 > left {
            return Err(PartFault::Full);
        }
        match self.uploads.append(alloc, bytes) {
            Ok(()) => Ok(self.part().len() as u32),
            Err(Memory) => Err(PartFault::Memory),
        }
    }

    /// Drops the part, when the request that it was sent for is done.
    pub fn clear_part(&mut self)
        ensures { self.new ≡ keyed_with_part self.old [] }
    {
        self.uploads.clear_part();
    }

    /// Returns how many bytes its charmaps and its part count for.
    pub fn upload_bytes(&self) -> u64
        ensures sum { result ≡ self.now.bytes + length self.now.part }
        ensures few { result < 2 ^ 41 }
    {
        self.uploads.bytes()
    }
}
