//! Writing sixteen characters at once as one byte each, with `?` for those that an encoding lacks.
ghost use Rattle.std.specs.Prelude.{◌≡◌, ◌≤◌, ◌<◌, ◌+◌, ◌*◌, length, take, drop};
ghost use Rattle.cv_base.specs.Scalars.{question};
ghost use Rattle.cv_base.specs.Chains.{output_for};
ghost use Rattle.cv_base.specs.Places.{IsOutput};
ghost use Rattle.cv_base.specs.SingleBytes.{byte_writes};
ghost use Rattle.cv_base.specs.declared.state.WriteState.{WriteState};

use crate::scalar::Scalar;
use std::simd::prelude::*;

/// How many characters are written at once.
pub(crate) const LANES: usize = 16;

/// The numbers of sixteen characters, from the `n`th on. LLVM turns the loop into four loads.
#[inline(always)]
fn numbers_of(characters: &[Scalar], n: usize) -> [u32; LANES]
    requires { n + 16 ≤ length characters.now }
    ensures { result ≡ take 16 (drop n characters.now) }
{
    let mut numbers = [0; LANES];
    for lane in 0..LANES {
        numbers[lane] = characters[n + lane].value();
    }
    numbers
}

/// Writes sixteen characters, those below a limit as the bytes of their numbers and `?` for others, and returns how
/// many others there are. The numbers become bytes before one of the two is chosen: sixteen bytes are one vector, and
/// sixteen numbers are four.
#[inline(always)]
fn write_block(limit: u32, characters: &[Scalar], n: usize, out: &mut [u8], at: usize) -> u32
    requires stand { n + 16 ≤ length characters.now }
    requires room { at + 16 ≤ length out.old }
    requires from { question < limit }
    requires to { limit ≤ 256 }
    ensures few { result ≤ 16 }
    ensures written { IsOutput
        (output_for (byte_writes limit) WriteState.Start (take 16 (drop n characters.now)))
        out.old at 16 result WriteState.Start out.new }
{
    let values = u32x16::from_array(numbers_of(characters, n));
    let bytes = values.simd_min(u32x16::splat(limit - 1)).cast::<u8>();
    let small = values.simd_lt(u32x16::splat(limit)).cast::<i8>();
    small
        .select(bytes, u8x16::splat(b'?'))
        .copy_to_slice(&mut out[at..]);
    LANES as u32 - small.to_bitmask().count_ones()
}

/// Writes `blocks` blocks of sixteen characters, those below a limit as the bytes of their numbers and `?` for others,
/// and returns how many others there are. All other bytes of the slice stay.
#[inline(always)]
pub(crate) fn write_blocks(
    limit: u32,
    characters: &[Scalar],
    blocks: usize,
    out: &mut [u8],
    at: usize,
) -> u32
    requires few { length characters.now ≤ 256 }
    requires stand { 16 * blocks ≤ length characters.now }
    requires room { at + 16 * blocks ≤ length out.old }
    requires from { question < limit }
    requires to { limit ≤ 256 }
    ensures few { result ≤ 16 * blocks }
    ensures written { IsOutput
        (output_for (byte_writes limit) WriteState.Start (take (16 * blocks) characters.now))
        out.old at (16 * blocks) result WriteState.Start out.new }
{
    let mut count = 0;
    for block in 0..blocks {
        let n = LANES * block;
        count += write_block(limit, characters, n, out, at + n);
    }
    count
}
