//! How long the prefix of a text is that has only characters of one unit each.
ghost use Rattle.std.specs.Prelude.{◌*◌, ◌+◌, ◌≤◌, IsTrue, length, drop};
ghost use Rattle.cv_base.specs.Units.{unit_size};
ghost use Rattle.cv_block.specs.StatelessForms.{BytesOf, IsFormPrefix};
ghost use Rattle.cv_block.specs.Units.{HasUnits};

use crate::stateless_form::LANES;
use crate::unit::Unit;
use crate::unit_runs::{are_scalars, numbers_of};

/// Whether the sixteen units from index `at` on are characters by themselves.
#[inline(always)]
fn are_characters<U: Unit>(input: &[u8], at: usize) -> bool
    requires { at + unit_size U.form * 16 ≤ length input.now }
    ensures { IsTrue result → (bytes_of : BytesOf) → HasUnits U.form bytes_of
        → IsFormPrefix bytes_of (drop at input.now) (unit_size U.form * 16) }
{
    are_scalars(&numbers_of::<U>(&input[at..]))
}

/// Returns how many bytes at the start of a text are characters of one unit each. It tests blocks of sixteen units, and
/// stops before a block in which a unit is no character by itself. It serves every encoding in which a character of one
/// unit has the bytes of its unit.
#[inline(never)]
pub fn unit_prefix_len<U: Unit>(input: &[u8]) -> usize
    ensures within { result ≤ length input.now }
    ensures prefix { (bytes_of : BytesOf) → HasUnits U.form bytes_of
        → IsFormPrefix bytes_of input.now result }
{
    let size = U::size() * LANES;
    let mut used = 0;
    while input.len() - used >= size && are_characters::<U>(input, used) {
        used += size;
    }
    used
}
