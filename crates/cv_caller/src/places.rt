//! The descriptors of a table, by number.
ghost use Rattle.std.specs.Prelude.{◌≡◌, ◌<◌, IfSome, is_none, is_some};
ghost use Rattle.std.specs.List.{position, list_any};
ghost use Rattle.cv_caller.specs.Keyed.{refers};

use crate::limits::DESCRIPTORS;
use crate::place::Place;

/// The least free number. `None`: all are in use.
pub(crate) fn first_free(places: &[Option<Place>; DESCRIPTORS]) -> Option<usize>
    ensures least { result ≡ position is_none places.now }
    ensures within { IfSome result (λ number. number < DESCRIPTORS) }
{
    places.iter().position(|bound| bound.is_none())
}

/// Whether a number is in use.
pub(crate) fn has_places(places: &[Option<Place>; DESCRIPTORS]) -> bool
    ensures { result ≡ list_any is_some places.now }
{
    places.iter().any(|bound| bound.is_some())
}

/// Whether a descriptor writes or reads the charmap in a slot.
fn does_refer(bound: &Option<Place>, map: u8) -> bool
    ensures { result ≡ refers map bound.now }
{
    match bound {
        Some(bound) => bound.to == Some(map) || bound.from == Some(map),
        None => false,
    }
}

/// Whether some descriptor writes or reads the charmap in a slot.
pub(crate) fn is_busy(places: &[Option<Place>; DESCRIPTORS], map: u8) -> bool
    ensures { result ≡ list_any (refers map) places.now }
{
    places.iter().any(|bound| does_refer(bound, map))
}
