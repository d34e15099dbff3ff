//! The charmaps of a table, by slot.
ghost use Rattle.std.specs.Prelude.{◌≡◌, ◌<◌, ◌≤◌, ◌^◌, IfSome, is_none, is_some, length, sum_by, option_map};
ghost use Rattle.std.specs.List.{position, list_any};
ghost use Rattle.cv_caller.specs.Private.Views.{weighed_value, weighed_bytes};
ghost use Rattle.cv_caller.specs.Tables.{has_name, pairs_in};

use crate::limits::{CHARMAPS, MOST_MAPPINGS};
use crate::weighed::Weighed;
use cv_base::same_name;

/// Whether a slot has the charmap of this name.
fn is_named(held: &Option<Weighed>, name: &[u8]) -> bool
    ensures { result ≡ has_name name.now (option_map weighed_value held.now) }
{
    match held {
        Some(held) => same_name(held.charmap.name(), name),
        None => false,
    }
}

/// The slot of the charmap of this name.
pub(crate) fn slot_named(charmaps: &[Option<Weighed>; CHARMAPS], name: &[u8]) -> Option<usize>
    ensures slot { result ≡ position (λ held. has_name name.now (option_map weighed_value held)) charmaps.now }
    ensures within { IfSome result (λ slot. slot < CHARMAPS) }
{
    charmaps.iter().position(|held| is_named(held, name))
}

/// The least free slot.
pub(crate) fn first_slot(charmaps: &[Option<Weighed>; CHARMAPS]) -> Option<usize>
    ensures free { result ≡ position is_none charmaps.now }
    ensures within { IfSome result (λ slot. slot < CHARMAPS) }
{
    charmaps.iter().position(|held| held.is_none())
}

/// Whether some slot has a charmap.
pub(crate) fn has_charmaps(charmaps: &[Option<Weighed>; CHARMAPS]) -> bool
    ensures any { result ≡ list_any is_some charmaps.now }
    ensures size { length charmaps.now ≡ CHARMAPS }
{
    charmaps.iter().any(|held| held.is_some())
}

/// How many mappings the charmap in a slot has; 0 without one.
fn size_of_held(held: &Option<Weighed>) -> usize
    ensures { result ≡ length (pairs_in (option_map weighed_value held.now)) }
{
    match held {
        Some(held) => held.charmap.len(),
        None => 0,
    }
}

/// How many mappings the charmaps have together.
pub(crate) fn count_mappings(charmaps: &[Option<Weighed>; CHARMAPS]) -> usize
    requires { sum_by (λ held. length (pairs_in (option_map weighed_value held))) charmaps.now ≤ MOST_MAPPINGS }
    ensures { result ≡ sum_by (λ held. length (pairs_in (option_map weighed_value held))) charmaps.now }
{
    charmaps.iter().map(|held| size_of_held(held)).sum()
}

/// How many bytes the charmap in a slot counts for; 0 without one.
pub(crate) fn bytes_of_held(held: &Option<Weighed>) -> u32
    ensures { result ≡ weighed_bytes held.now }
{
    match held {
        Some(held) => held.bytes,
        None => 0,
    }
}

/// How many bytes the charmaps count for together.
pub(crate) fn count_bytes(charmaps: &[Option<Weighed>; CHARMAPS]) -> u64
    ensures sum { result ≡ sum_by weighed_bytes charmaps.now }
    ensures few { result < 2 ^ 40 }
{
    let mut bytes = 0;
    for held in charmaps.iter() {
        bytes += u64::from(bytes_of_held(held));
    }
    bytes
}
