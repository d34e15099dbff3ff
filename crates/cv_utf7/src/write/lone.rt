//! Shifted sequences of one code unit that are written.
ghost use Rattle.std.specs.Prelude.{◌≡◌, ◌≤◌, ◌<◌, ◌+◌, IsTrue, false, length, get_or};
ghost use Rattle.cv_utf7.specs.Private.WriteSteps.{written_to, WritesOn};

use crate::sets::{digit_for, stands};
use cv_base::put::write_slice;
use cv_base::{Scalar, WriteState};

/// Writes a shifted sequence of one code unit that is not ASCII, and the direct character after it, if it is one.
/// Returns whether it did.
#[inline(always)]
pub(crate) fn write_lone(characters: &[Scalar], n: usize, out: &mut [u8], at: usize) -> bool
    requires some { n + 2 ≤ length characters.now }
    requires long { 128 ≤ get_or characters.now n 0 }
    requires unit { get_or characters.now n 0 < 0x10000 }
    requires room { at + 6 ≤ length out.old }
    ensures written { IsTrue result → WritesOn characters.now (written_to WriteState.Start n at) out.old
        (written_to WriteState.Start (n + 2) (at + 6)) out.new }
    ensures not { result ≡ false → out.new ≡ out.old }
{
    let unit = characters[n].value();
    let last = characters[n + 1].value();
    if !stands(last) {
        return false;
    }
    let first = digit_for(unit / 1024);
    let second = digit_for(unit / 16 % 64);
    let third = digit_for(unit % 16 * 4);
    write_slice(out, at, [b'+', first, second, third, b'-', last as u8]);
    true
}
