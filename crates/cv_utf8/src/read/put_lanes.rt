//! Writing the characters of a window to a buffer.
ghost use Rattle.std.specs.Prelude.{◌≡◌, ◌+◌, ◌++◌, ◌≤◌, ◌<◌, ℕ, List, length, take, get_or};
ghost use Rattle.cv_base.specs.Scalars.{IsScalar};
ghost use Rattle.cv_block.specs.StatelessForms.{IsReadForm};
ghost use Rattle.cv_utf8.specs.Utf8.{utf8_bytes};
ghost use Rattle.cv_utf8.specs.Utf16Lanes.{AreRead};
ghost use Rattle.cv_utf8.specs.Private.Utf8Threes.{AreScalarLanes};

use crate::read::utf16_lanes::Utf16Lanes;
use cv_base::Scalar;
use cv_block::Converted;

/// How many numbers are written at once.
const EIGHT: usize = 8;

/// Writes eight characters to a buffer, after its first `n`.
#[inline(always)]
fn put_eight(numbers: &[u16; EIGHT], buffer: &mut [Scalar], n: usize)
    requires room { n + 8 ≤ length buffer.old }
    requires scalars { (k : ℕ) → k < 8 → IsScalar (get_or numbers.now k 0) }
    ensures stand { take (n + 8) buffer.new ≡ take n buffer.old ++ numbers.now }
    ensures size { length buffer.new ≡ length buffer.old }
{
    for lane in 0..EIGHT {
        buffer[n + lane] = Scalar::known(numbers[lane] as u32);
    }
}

/// Writes up to sixteen characters to a buffer, after its first `n`.
#[inline(always)]
pub(crate) fn put_lanes(units: &Utf16Lanes, buffer: &mut [Scalar], n: usize) -> Converted
    requires few { units.now.firsts ≤ 8 }
    requires others { units.now.seconds ≤ 8 }
    requires room { n + 16 ≤ length buffer.old }
    requires scalars { AreScalarLanes units.now }
    ensures many { result.n ≡ units.now.firsts + units.now.seconds }
    ensures read { (text : List ℕ) (at : ℕ) → AreRead text at units.now
        → IsReadForm utf8_bytes text at buffer.old n result buffer.new }
{
    put_eight(&units.first.to_array(), buffer, n);
    put_eight(&units.second.to_array(), buffer, n + units.firsts);
    Converted {
        n: units.firsts + units.seconds,
        used: units.used,
    }
}
