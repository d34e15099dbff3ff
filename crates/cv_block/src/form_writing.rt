//! Writing a stateless form by blocks.
ghost use Rattle.std.specs.Prelude.{◌≤◌, ◌<◌, ◌+◌, ◌-◌, ◌*◌, length};
ghost use Rattle.std.specs.List.{flat_map};
ghost use Rattle.cv_base.specs.Places.{IsPut};
ghost use Rattle.cv_block.specs.StatelessForms.{IsWrittenForm, IsFormWritten};

use crate::stateless_form::{Converted, LANES, StatelessForm};
use cv_base::{Scalar, WriteState, WrittenBlock};

/// How many bytes sixteen characters have at most.
const ROOM_AT_ONCE: usize = 64;

/// Writes the last characters, which are fewer than sixteen, from the `n`th on, at once with U+0000 after them. It may
/// write none. Kept out of line, since a function clears its buffers on entry.
#[inline(never)]
fn write_last<S: StatelessForm>(
    characters: &[Scalar],
    n: usize,
    out: &mut [u8],
    at: usize,
) -> Converted
    requires within { n ≤ length characters.now }
    requires few { length characters.now ≤ n + 16 }
    requires room { at + 64 ≤ length out.old }
    ensures bytes { IsWrittenForm S.bytes_of characters.now n out.old at result out.new }
{
    S::assert_short();
    let left = characters.len() - n;
    let mut sixteen = [Scalar::known(0); LANES];
    sixteen[..left].copy_from_slice(&characters[n..]);
    let many = S::write_many(&sixteen, 0, out, at);
    if many.n < LANES {
        return Converted { n: 0, used: 0 };
    }
    Converted {
        n: left,
        used: many.used - S::ZERO_SIZE * (LANES - left),
    }
}

/// Writes some characters from the `n`th on: many at once, if `MIN_AT_ONCE` are left. If these were only some of
/// sixteen, it writes one more, and if they were none, up to sixteen one by one.
#[inline(always)]
fn write_some<S: StatelessForm>(
    characters: &[Scalar],
    n: usize,
    out: &mut [u8],
    at: usize,
) -> Converted
    requires within { n ≤ length characters.now }
    requires room { at + 4 * (length characters.now - n) ≤ length out.old }
    ensures some { n < length characters.now → 0 < result.n }
    ensures bytes { IsWrittenForm S.bytes_of characters.now n out.old at result out.new }
{
    S::assert_short();
    let left = characters.len() - n;
    let mut some = Converted { n: 0, used: 0 };
    if left >= LANES {
        some = S::write_many(characters, n, out, at);
    } else if left >= S::MIN_AT_ONCE && out.len() - at >= ROOM_AT_ONCE {
        some = write_last::<S>(characters, n, out, at);
    }
    let most = left.min(LANES);
    if some.n == most {
        return some;
    }
    let more = if some.n == 0 { LANES } else { 1 };
    let end = most.min(some.n + more);
    while some.n < end {
        some.used += S::write_at(characters[n + some.n], out, at + some.used);
        some.n += 1;
    }
    some
}

/// Writes characters through a buffer into a slice from index `at` on, and returns how many bytes they have. All other
/// bytes of the slice stay. It is compiled once for buffers of all sizes.
#[inline(never)]
fn write_all<S: StatelessForm>(
    characters: &[Scalar],
    buffer: &mut [u8],
    out: &mut [u8],
    at: usize,
) -> usize
    requires few { 4 * length characters.now ≤ length buffer.old }
    requires room { at + 4 * length characters.now ≤ length out.old }
    ensures { IsPut (flat_map S.bytes_of characters.now) out.old at result out.new }
{
    S::assert_short();
    let mut n = 0;
    let mut used = 0;
    while n < characters.len() {
        let some = write_some::<S>(characters, n, buffer, used);
        n += some.n;
        used += some.used;
    }
    out[at..at + used].copy_from_slice(&buffer[..used]);
    used
}

/// Writes at most 256 characters in a form into a slice from index `at` on. The state stays. The slice needs room
/// for 4 bytes for each. All other bytes of the slice stay. Few characters go through a small buffer, which costs less
/// to clear.
#[inline(always)]
pub fn write_stateless<S: StatelessForm>(
    state: WriteState,
    characters: &[Scalar],
    out: &mut [u8],
    at: usize,
) -> WrittenBlock
    requires few { length characters.now ≤ 256 }
    requires room { at + 4 * length characters.now ≤ length out.old }
    ensures { IsFormWritten S.bytes_of state characters.now out.old at result out.new }
{
    let wrote = if characters.len() <= 64 {
        write_all::<S>(characters, &mut [0; 256], out, at)
    } else {
        write_all::<S>(characters, &mut [0; 1024], out, at)
    };
    WrittenBlock {
        wrote,
        count: 0,
        next: state,
    }
}
