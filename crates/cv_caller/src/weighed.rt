//! Charmaps with their sizes.
ghost use Rattle.std.specs.Prelude.{◌≡◌, ◌≤◌, ◌*◌, ◌-◌, ◌^◌, length, min};
ghost use Rattle.std.specs.Arc.{arc_value};

use cv_trie::Charmap;
use std::sync::Arc;

/// A charmap, and how many bytes it counts for. That is its whole size, even if others share it.
#[derive(Drop)]
pub(crate) struct Weighed {
    pub(crate) charmap: Arc<Charmap>,
    pub(crate) bytes: u32,
}

impl Weighed {
    /// A charmap with its size, which is at most `u32::MAX`: a larger one counts as that.
    pub(crate) fn of(charmap: Arc<Charmap>) -> Weighed
        ensures same { arc_value result.charmap ≡ arc_value charmap }
        ensures whole { min (16 * length (arc_value charmap).pairs) (2 ^ 32 - 1) ≤ result.bytes }
    {
        let bytes = charmap.size().min(u32::MAX as usize) as u32;
        Weighed { charmap, bytes }
    }
}
