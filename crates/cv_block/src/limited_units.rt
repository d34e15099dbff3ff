//! Tests whether units are characters of a run.
ghost use Rattle.std.specs.Prelude.{◌≡◌, ◌≤◌, ◌<◌, ◌+◌, ◌*◌, ℕ, length, IsTrue};
ghost use Rattle.cv_base.specs.Units.{unit_size};
ghost use Rattle.cv_block.specs.AsciiRuns.{IsBelowAt, IsRunBelow};

use crate::byte_order::{BigEndian, LittleEndian};
use crate::code_limit::CodeLimit;
use crate::unit::{Byte, Four, Two, Unit};
use cv_base::{AsciiForm, Endian};

/// How many units are tested at once.
pub(crate) const BLOCK: usize = 16;

/// Whether the unit at index `at` is a character of the run.
#[inline(always)]
#[tactic(auto, using(crate::proofs::UnitBytes::below_at))]
pub(crate) fn is_below<R: CodeLimit, U: Unit>(bytes: &[u8], at: usize) -> bool
    requires { at + unit_size U.form ≤ length bytes.now }
    ensures { IsTrue result → IsBelowAt R.limit U.form bytes.now at }
{
    U::number(bytes, at) < R::limit()
}

/// Whether `n` units are characters of the run. No early exit, so that LLVM vectorizes the loop.
#[inline(always)]
fn each_below<R: CodeLimit, U: Unit>(bytes: &[u8], at: usize, n: usize) -> bool
    requires { at + unit_size U.form * n ≤ length bytes.now }
    ensures { IsTrue result → (k : ℕ) → k < n
        → IsBelowAt R.limit U.form bytes.now (at + unit_size U.form * k) }
{
    let mut all = true;
    let mut index = at;
    for _unit in 0..n {
        all &= is_below::<R, U>(bytes, index);
        index += U::size();
    }
    all
}

/// Whether `n` units are characters of the run, by one test of the bitwise OR of all.
#[inline(always)]
fn any_bits_below<R: CodeLimit, U: Unit>(bytes: &[u8], at: usize, n: usize) -> bool
    requires { at + unit_size U.form * n ≤ length bytes.now }
    ensures { IsTrue result → (k : ℕ) → k < n
        → IsBelowAt R.limit U.form bytes.now (at + unit_size U.form * k) }
{
    let mut any_bits = 0;
    let mut index = at;
    for _unit in 0..n {
        any_bits |= U::number(bytes, index);
        index += U::size();
    }
    any_bits < R::limit()
}

/// Whether each of a block of units is a character of the run.
#[inline(always)]
pub(crate) fn are_below<R: CodeLimit, U: Unit>(bytes: &[u8], at: usize) -> bool
    requires { at + unit_size U.form * 16 ≤ length bytes.now }
    ensures { IsTrue result → (k : ℕ) → k < 16
        → IsBelowAt R.limit U.form bytes.now (at + unit_size U.form * k) }
{
    if U::is_byte() {
        R::are_bytes(bytes, at)
    } else if R::JOINS {
        any_bits_below::<R, U>(bytes, at, BLOCK)
    } else {
        each_below::<R, U>(bytes, at, BLOCK)
    }
}

/// Whether each unit of the first `BLOCKS` blocks is a character of the run. All are tested, so that one branch decides
/// for all.
#[inline(always)]
pub(crate) fn are_blocks_below<R: CodeLimit, U: Unit, const BLOCKS: usize>(units: &[u8]) -> bool
    requires { unit_size U.form * (16 * BLOCKS) ≤ length units.now }
    ensures { IsTrue result → IsRunBelow R.limit U.form units.now (16 * BLOCKS) }
{
    let mut all = true;
    let mut index = 0;
    for _block in 0..BLOCKS {
        all &= are_below::<R, U>(units, index);
        index += U::size() * BLOCK;
    }
    all
}

/// Whether a run may be at the start of a text: it tests the first block, or in a text shorter than a block the first
/// unit. It affects speed only: in longer texts a test of fewer units would often look for a run when there is none.
#[inline(always)]
fn begins<R: CodeLimit, U: Unit>(rest: &[u8]) -> bool {
    if rest.len() >= U::size() * BLOCK {
        are_below::<R, U>(rest, 0)
    } else {
        rest.len() >= U::size() && is_below::<R, U>(rest, 0)
    }
}

/// Whether it is worthwhile to look for a run of units of a form. It affects speed only.
#[inline(always)]
pub(crate) fn form_may_run<R: CodeLimit>(form: AsciiForm, rest: &[u8]) -> bool {
    match form {
        AsciiForm::Byte => begins::<R, Byte>(rest),
        AsciiForm::Two(Endian::Big) => begins::<R, Two<BigEndian>>(rest),
        AsciiForm::Two(Endian::Little) => begins::<R, Two<LittleEndian>>(rest),
        AsciiForm::Four(Endian::Big) => begins::<R, Four<BigEndian>>(rest),
        AsciiForm::Four(Endian::Little) => begins::<R, Four<LittleEndian>>(rest),
    }
}
