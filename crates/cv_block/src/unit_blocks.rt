//! Blocks of characters below a limit: many units of one form, written at once as units of another.
ghost use Rattle.std.specs.Prelude.{◌≡◌, ◌≤◌, ◌<◌, ◌+◌, ◌*◌, ◌++◌, length, take, drop, get_or};
ghost use Rattle.cv_base.specs.Units.{unit_size};
ghost use Rattle.cv_block.specs.AsciiRuns.{IsRunBelow, characters_in, offset, bytes_of_units};

use crate::code_limit::CodeLimit;
use crate::limited_units::{BLOCK, are_blocks_below};
use crate::unit::{Byte, Unit};

/// How many blocks are tested and written at once while a run has that many left: 64 units with one branch.
const BLOCKS_PER_TEST: usize = 4;

/// The lowest byte of the unit at index `at`. If the unit is a character below 256, this is the character.
#[inline(always)]
#[tactic(auto, using(crate::proofs::UnitBytes::low_byte))]
pub(crate) fn character<U: Unit>(bytes: &[u8], at: usize) -> u32
    requires { at + unit_size U.form ≤ length bytes.now }
    ensures few { result < 0x100 }
    ensures lowest { result ≡ get_or bytes.now (at + offset U.form) 0 }
{
    U::number(bytes, at) % 0x100
}

/// Writes the characters of the first `n` units of one form in another. No unit is tested.
#[inline(always)]
fn write_units<From: Unit, To: Unit>(rest: &[u8], n: usize, out: &mut [u8], at: usize)
    requires stand { unit_size From.form * n ≤ length rest.now }
    requires fit { at + unit_size To.form * n ≤ length out.old }
    ensures { out.new
        ≡ take at out.old ++ bytes_of_units To.form (characters_in From.form rest.now n)
        ++ drop (at + unit_size To.form * n) out.old }
{
    let mut used = 0;
    let mut end = at;
    for _unit in 0..n {
        To::write(out, end, character::<From>(rest, used));
        used += From::size();
        end += To::size();
    }
}

/// The lowest bytes of a block of units.
#[inline(always)]
fn low_bytes<U: Unit>(units: &[u8]) -> [u8; BLOCK]
    requires { unit_size U.form * 16 ≤ length units.now }
    ensures { result ≡ characters_in U.form units.now 16 }
{
    let mut low = [0; BLOCK];
    let mut index = 0;
    for k in 0..BLOCK {
        low[k] = character::<U>(units, index) as u8;
        index += U::size();
    }
    low
}

/// Writes the characters of a block of units of one form in another. They are copied into an array before the first is
/// written: LLVM does not know that the slices are disjoint, and would process them one by one.
#[inline(always)]
fn write_block<From: Unit, To: Unit>(units: &[u8], out: &mut [u8], at: usize)
    requires stand { unit_size From.form * 16 ≤ length units.now }
    requires fit { at + unit_size To.form * 16 ≤ length out.old }
    ensures { out.new
        ≡ take at out.old ++ bytes_of_units To.form (characters_in From.form units.now 16)
        ++ drop (at + unit_size To.form * 16) out.old }
{
    let low = low_bytes::<From>(units);
    write_units::<Byte, To>(&low, BLOCK, out, at);
}

/// Writes the characters of `BLOCKS` blocks of units of one form in another.
#[inline(always)]
fn write_blocks<From: Unit, To: Unit, const BLOCKS: usize>(units: &[u8], out: &mut [u8], at: usize)
    requires stand { unit_size From.form * (16 * BLOCKS) ≤ length units.now }
    requires fit { at + unit_size To.form * (16 * BLOCKS) ≤ length out.old }
    ensures { out.new
        ≡ take at out.old ++ bytes_of_units To.form (characters_in From.form units.now (16 * BLOCKS))
        ++ drop (at + unit_size To.form * (16 * BLOCKS)) out.old }
{
    let mut used = 0;
    let mut end = at;
    for _block in 0..BLOCKS {
        write_block::<From, To>(&units[used..], out, end);
        used += From::size() * BLOCK;
        end += To::size() * BLOCK;
    }
}

/// Writes the units of a run at the start of a text in another form, `BLOCKS` blocks at a time while they are left,
/// `most` units at most, and returns how many units it wrote. One branch tests `BLOCKS` blocks, and the same pass
/// writes them.
#[inline(always)]
fn take_blocks<R: CodeLimit, From: Unit, To: Unit, const BLOCKS: usize>(
    rest: &[u8],
    most: usize,
    out: &mut [u8],
    at: usize,
) -> usize
    requires some { 0 < BLOCKS }
    requires few { BLOCKS ≤ 4 }
    requires stand { unit_size From.form * most ≤ length rest.now }
    requires fit { at + unit_size To.form * most ≤ length out.old }
    ensures within { result ≤ most }
    ensures small { IsRunBelow R.limit From.form rest.now result }
    ensures out { out.new
        ≡ take at out.old ++ bytes_of_units To.form (characters_in From.form rest.now result)
        ++ drop (at + unit_size To.form * result) out.old }
{
    let size = BLOCK * BLOCKS;
    let mut n = 0;
    let mut used = 0;
    let mut end = at;
    while most - n >= size && are_blocks_below::<R, From, BLOCKS>(&rest[used..]) {
        write_blocks::<From, To, BLOCKS>(&rest[used..], out, end);
        n += size;
        used += From::size() * size;
        end += To::size() * size;
    }
    n
}

/// Writes the blocks of a run's units at the start of a text in another form, as `take_blocks` does: many at once if
/// that is faster, and then one by one.
#[inline(always)]
pub(crate) fn take_all_blocks<R: CodeLimit, From: Unit, To: Unit>(
    rest: &[u8],
    most: usize,
    out: &mut [u8],
    at: usize,
) -> usize
    requires stand { unit_size From.form * most ≤ length rest.now }
    requires fit { at + unit_size To.form * most ≤ length out.old }
    ensures within { result ≤ most }
    ensures small { IsRunBelow R.limit From.form rest.now result }
    ensures out { out.new
        ≡ take at out.old ++ bytes_of_units To.form (characters_in From.form rest.now result)
        ++ drop (at + unit_size To.form * result) out.old }
{
    if !From::takes_many() {
        return take_blocks::<R, From, To, 1>(rest, most, out, at);
    }
    let n = take_blocks::<R, From, To, BLOCKS_PER_TEST>(rest, most, out, at);
    let behind = &rest[From::size() * n..];
    n + take_blocks::<R, From, To, 1>(behind, most - n, out, at + To::size() * n)
}
