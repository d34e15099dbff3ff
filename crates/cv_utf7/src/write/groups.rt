//! Code units that are written six at once: sixteen digits hold them if no bits are pending.
ghost use Rattle.std.specs.Prelude.{◌≡◌, ◌≤◌, ◌<◌, ◌+◌, ◌-◌, ◌*◌, [], ◌++◌, ℕ, IsTrue, IfSome, true, length, get_or};
ghost use Rattle.std.specs.Prelude.{take, replicate};
ghost use Rattle.cv_utf7.specs.PendingBits.{pending_of};
ghost use Rattle.cv_utf7.specs.Sets.{is_direct};
ghost use Rattle.cv_utf7.specs.Private.Groups.{IsGroup, AreUnits, IsLong};
ghost use Rattle.cv_utf7.specs.Private.WriteSteps.{written_to, WritesOn, MayWriteOn};

use crate::read::items::NONE;
use crate::sets::stands;
use crate::write::digit_lanes::sixteen_digits;
use crate::write::sequences::WriteProgress;
use cv_base::{Scalar, WriteState};
use std::simd::prelude::*;

/// How many units are looked at.
const EIGHT: usize = 8;

/// How many units sixteen digits hold.
const SIX: usize = 6;

/// How many digits six units have.
const DIGITS: usize = 16;

/// With fewer characters left, only six units are written at once: what is put after the digits of fewer ones could
/// stay.
const MIN_LEFT: usize = 11;

/// Up to six units that are written at once, with zeros after them. If they are fewer than six, a direct character
/// follows.
#[derive(Clone, Copy)]
pub(crate) struct Group {
    units: u16x8,
    n: usize,
}

/// The numbers of eight characters, as far as they are below U+FFFF.
#[inline(always)]
fn eight_units(characters: &[Scalar], n: usize) -> u16x8
    requires { n + 8 ≤ length characters.now }
    ensures { AreUnits characters.now n result }
{
    let mut units = [0u16; EIGHT];
    for lane in 0..EIGHT {
        units[lane] = characters[n + lane].value().min(0xffff) as u16;
    }
    u16x8::from_array(units)
}

/// Whether the `n`th character is one code unit and not ASCII.
#[inline(always)]
pub(crate) fn is_long(characters: &[Scalar], n: usize) -> bool
    requires { n < length characters.now }
    ensures long { IsTrue result → 128 ≤ get_or characters.now n 0 }
    ensures unit { IsTrue result → get_or characters.now n 0 < 0x10000 }
{
    let value = characters[n].value();
    value >= 0x80 && value < 0x1_0000
}

/// Whether eight characters are left, and the first two are code units that are not ASCII.
#[inline(always)]
pub(crate) fn may_be_group(characters: &[Scalar], n: usize) -> bool
    requires { n ≤ length characters.now }
    ensures many { IsTrue result → n + 8 ≤ length characters.now }
    ensures first { IsTrue result → 128 ≤ get_or characters.now n 0 }
    ensures second { IsTrue result → 128 ≤ get_or characters.now (n + 1) 0 }
{
    characters.len() - n >= EIGHT && is_long(characters, n) && is_long(characters, n + 1)
}

/// How many of the first six of eight units are before the first that is ASCII or U+FFFF.
#[inline(always)]
fn count_units(units: u16x8) -> usize
    ensures few { result ≤ 6 }
    ensures long { (k : ℕ) → k < result → IsLong (get_or units k 0) }
{
    let above = units - u16x8::splat(0x80);
    let ends = above.simd_ge(u16x8::splat(0xff7f)).to_bitmask();
    (ends | 1 << SIX).trailing_zeros() as usize
}

/// The indexes of eight units.
const INDEXES: [u16; 8] = [0, 1, 2, 3, 4, 5, 6, 7];

/// The first `n` of eight units, and zeros in place of the others.
#[inline(always)]
fn first_units(units: u16x8, n: usize) -> u16x8
    requires { n ≤ 8 }
    ensures { result ≡ take n units ++ replicate (8 - n) 0 }
{
    u16x8::from_array(INDEXES)
        .simd_lt(u16x8::splat(n as u16))
        .select(units, u16x8::splat(0))
}

/// Whether these are six units, or a direct character follows them and many characters are left.
#[inline(always)]
fn is_whole(characters: &[Scalar], n: usize, count: usize) -> bool
    requires left { n + 8 ≤ length characters.now }
    requires few { count ≤ 6 }
    ensures many { IsTrue result → count < 6 → n + 11 ≤ length characters.now }
    ensures ends { IsTrue result → count < 6 → is_direct (get_or characters.now (n + count) 0) ≡ true }
{
    count == SIX || characters.len() - n >= MIN_LEFT && stands(characters[n + count].value())
}

/// The group of the characters from the `n`th on, if there is one.
#[inline(always)]
fn group_at(characters: &[Scalar], n: usize) -> Option<Group>
    requires { n ≤ length characters.now }
    ensures { IfSome result (IsGroup characters.now n) }
{
    if !may_be_group(characters, n) {
        return None;
    }
    let units = eight_units(characters, n);
    let count = count_units(units);
    if !is_whole(characters, n, count) {
        return None;
    }
    Some(Group {
        units: first_units(units, count),
        n: count,
    })
}

/// Writes a group in a shifted sequence with no bits pending.
#[inline(always)]
fn write_group(
    group: Group,
    characters: &[Scalar],
    n: usize,
    out: &mut [u8],
    at: usize,
) -> WriteProgress
    requires group { IsGroup characters.now n group }
    requires room { at + 16 ≤ length out.old }
    ensures more { WritesOn characters.now (written_to (WriteState.Shifted (pending_of [])) n at) out.old result
        out.new }
    ensures six { group.n ≡ 6 → result.next ≡ WriteState.Shifted (pending_of []) }
    ensures on { n < result.n }
    ensures few { result.end + 5 * n ≤ at + 5 * result.n }
{
    sixteen_digits(group.units).copy_to_slice(&mut out[at..]);
    let after = n + group.n;
    if group.n == SIX {
        return WriteProgress {
            n: after,
            end: at + DIGITS,
            next: WriteState::Shifted(NONE),
        };
    }
    let closed = at + (16 * group.n + 5) / 6;
    out[closed] = b'-';
    out[closed + 1] = characters[after].value() as u8;
    WriteProgress {
        n: after + 1,
        end: closed + 2,
        next: WriteState::Start,
    }
}

/// Writes groups as far as possible, in a shifted sequence with no bits pending. It may write nothing.
#[inline(always)]
fn write_groups(characters: &[Scalar], n: usize, out: &mut [u8], at: usize) -> WriteProgress
    requires within { n ≤ length characters.now }
    requires room { at + 5 * (length characters.now - n) ≤ length out.old }
    ensures more { WritesOn characters.now (written_to (WriteState.Shifted (pending_of [])) n at) out.old result
        out.new }
    ensures none { result.n ≡ n → out.new ≡ out.old }
{
    let mut count = n;
    let mut end = at;
    loop {
        match group_at(characters, count) {
            Some(group) => {
                let reached = write_group(group, characters, count, out, end);
                if group.n < SIX {
                    return reached;
                }
                count = reached.n;
                end = reached.end;
            }
            None => return WriteProgress {
                n: count,
                end,
                next: WriteState::Shifted(NONE),
            },
        }
    }
}

/// Begins a shifted sequence by groups. It may write none, and then put a byte that does not count.
#[inline(always)]
pub(crate) fn begin_groups(
    characters: &[Scalar],
    n: usize,
    out: &mut [u8],
    at: usize,
) -> Option<WriteProgress>
    requires some { n < length characters.now }
    requires long { 128 ≤ get_or characters.now n 0 }
    requires room { at + 6 * (length characters.now - n) ≤ length out.old }
    ensures { MayWriteOn characters.now (written_to WriteState.Start n at) out.old result out.new }
{
    out[at] = b'+';
    let reached = write_groups(characters, n, out, at + 1);
    if reached.n == n {
        return None;
    }
    Some(reached)
}

/// Continues a shifted sequence with no bits pending by groups. It may write nothing.
#[inline(never)]
pub(crate) fn continue_groups(
    characters: &[Scalar],
    n: usize,
    out: &mut [u8],
    at: usize,
) -> WriteProgress
    requires within { n ≤ length characters.now }
    requires room { at + 5 * (length characters.now - n) ≤ length out.old }
    ensures { WritesOn characters.now (written_to (WriteState.Shifted (pending_of [])) n at) out.old result out.new }
{
    write_groups(characters, n, out, at)
}
