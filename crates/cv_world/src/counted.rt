//! The callers of a world, counted against a budget.
ghost use Rattle.std.specs.Prelude.{◌≡◌, ◌+◌, ◌≤◌, ◌<◌, ◌^◌, [], true};
ghost use Rattle.std.specs.BTreeMap.{btree_map_len};
ghost use Rattle.cv_world.specs.Budgets.{held_in};

use crate::budget::Budget;
use crate::kept::Kept;
use std::alloc::Global;
use std::collections::BTreeMap;

/// The callers with their tables, and how many bytes all of them are counted for.
#[derive(Drop)]
pub(crate) struct Callers {
    pub(crate) map: BTreeMap<u32, Kept>,
    pub(crate) held: u64,
    pub(crate) budget: Budget,
    /// Whether it was the budget that refused the last request for memory.
    pub(crate) is_full: bool,
    ghost counted: { held ≡ held_in map },
    ghost within: { held ≤ budget.bytes },
    ghost few: { btree_map_len map ≤ budget.callers },
    ghost fits: { (budget.bytes < 2 ^ 64) × (budget.callers < 2 ^ 32) },
}

/// Returns a sum in which one part was replaced by another.
pub(crate) fn exchanged(sum: u64, out: u64, put: u64) -> u64
    requires there { out ≤ sum + put }
    requires fits { sum + put < out + 2 ^ 64 }
    ensures { result + out ≡ sum + put }
{
    if put >= out {
        sum + (put - out)
    } else {
        sum - (out - put)
    }
}

impl Callers {
    /// Makes the callers of a world in which none has asked yet.
    pub(crate) fn new(alloc: Global, budget: Budget) -> Callers
        ensures none { result.map.entries ≡ [] }
        ensures budget { result.budget ≡ budget }
    {
        Callers {
            map: BTreeMap::new(alloc),
            held: 0,
            budget,
            is_full: false,
        }
    }

    /// Returns how many bytes are left of the budget.
    pub(crate) fn left(&self) -> u64
        ensures { self.now.held + result ≡ self.now.budget.bytes }
    {
        self.budget.bytes - self.held
    }

    /// Returns whether so many more bytes are within the budget.
    pub(crate) fn may_take(&mut self, bytes: u64) -> bool
        ensures fits { result ≡ true → self.new.held + bytes ≤ self.new.budget.bytes }
        ensures same { self.new ≡ record self.old { is_full = self.new.is_full } }
    {
        let fits = bytes <= self.left();
        self.is_full = !fits;
        fits
    }

    /// Returns whether one more caller, which takes so many bytes, is within the budget.
    pub(crate) fn may_enter(&mut self, bytes: u64) -> bool
        ensures fits { result ≡ true → self.new.held + bytes ≤ self.new.budget.bytes }
        ensures few { result ≡ true → btree_map_len self.new.map < self.new.budget.callers }
        ensures same { self.new ≡ record self.old { is_full = self.new.is_full } }
    {
        let fits = bytes <= self.left() && self.map.len() < self.budget.callers as usize;
        self.is_full = !fits;
        fits
    }
}
