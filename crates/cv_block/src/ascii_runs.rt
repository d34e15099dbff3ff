//! Runs of characters below a limit: units of one form, written as units of another.
ghost use Rattle.std.specs.Prelude.{◌≡◌, ◌≤◌, ◌+◌, ◌*◌, ◌++◌, length, take, drop};
ghost use Rattle.cv_base.specs.Units.{unit_size};
ghost use Rattle.cv_base.specs.declared.ascii_form.AsciiForm.{AsciiForm};
ghost use Rattle.cv_block.specs.AsciiRuns.{IsRunBelow, characters_in, bytes_of_units};

use crate::byte_order::{BigEndian, LittleEndian};
use crate::code_limit::CodeLimit;
use crate::limited_units::{BLOCK, form_may_run, is_below};
use crate::unit::{Byte, Four, Two, Unit};
use crate::unit_blocks::{character, take_all_blocks};
use cv_base::{AsciiForm, Endian};

/// Writes the units of a run at the start of a text in another form one by one, `most` at most, and returns how many it
/// wrote.
#[inline(always)]
fn take_few<R: CodeLimit, From: Unit, To: Unit>(
    rest: &[u8],
    most: usize,
    out: &mut [u8],
    at: usize,
) -> usize
    requires stand { unit_size From.form * most ≤ length rest.now }
    requires fit { at + unit_size To.form * most ≤ length out.old }
    ensures within { result ≤ most }
    ensures small { IsRunBelow R.limit From.form rest.now result }
    ensures out { out.new
        ≡ take at out.old ++ bytes_of_units To.form (characters_in From.form rest.now result)
        ++ drop (at + unit_size To.form * result) out.old }
{
    let mut n = 0;
    let mut used = 0;
    let mut end = at;
    while n < most && is_below::<R, From>(rest, used) {
        To::write(out, end, character::<From>(rest, used));
        n += 1;
        used += From::size();
        end += To::size();
    }
    n
}

/// Returns how many bytes a unit of a form has: 1, 2 or 4.
#[inline(always)]
pub fn unit_bytes(form: AsciiForm) -> usize
    ensures { result ≡ unit_size form }
{
    match form {
        AsciiForm::Byte => 1,
        AsciiForm::Two(_) => 2,
        AsciiForm::Four(_) => 4,
    }
}

/// Writes the run at the start of a text in another form, as far as there is room, and returns how many units it wrote.
/// It may write none if the run is shorter than a block and the text is not.
#[inline(always)]
fn take_in<R: CodeLimit, From: Unit, To: Unit>(rest: &[u8], out: &mut [u8], at: usize) -> usize
    requires { at ≤ length out.old }
    ensures stand { unit_size From.form * result ≤ length rest.now }
    ensures fit { at + unit_size To.form * result ≤ length out.old }
    ensures small { IsRunBelow R.limit From.form rest.now result }
    ensures none { result ≡ 0 → out.new ≡ out.old }
    ensures out { out.new
        ≡ take at out.old ++ bytes_of_units To.form (characters_in From.form rest.now result)
        ++ drop (at + unit_size To.form * result) out.old }
{
    let most = (rest.len() / From::size()).min((out.len() - at) / To::size());
    let n = take_all_blocks::<R, From, To>(rest, most, out, at);
    if n == most || n == 0 && most >= BLOCK {
        return n;
    }
    let behind = &rest[From::size() * n..];
    n + take_few::<R, From, To>(behind, most - n, out, at + To::size() * n)
}

/// Writes the run at the start of a text in the target form, as `take_in` does.
#[inline(always)]
fn take_units<R: CodeLimit, From: Unit>(
    target: AsciiForm,
    rest: &[u8],
    out: &mut [u8],
    at: usize,
) -> usize
    requires { at ≤ length out.old }
    ensures stand { unit_size From.form * result ≤ length rest.now }
    ensures fit { at + unit_size target * result ≤ length out.old }
    ensures small { IsRunBelow R.limit From.form rest.now result }
    ensures none { result ≡ 0 → out.new ≡ out.old }
    ensures out { out.new
        ≡ take at out.old ++ bytes_of_units target (characters_in From.form rest.now result)
        ++ drop (at + unit_size target * result) out.old }
{
    match target {
        AsciiForm::Byte => take_in::<R, From, Byte>(rest, out, at),
        AsciiForm::Two(Endian::Big) => take_in::<R, From, Two<BigEndian>>(rest, out, at),
        AsciiForm::Two(Endian::Little) => take_in::<R, From, Two<LittleEndian>>(rest, out, at),
        AsciiForm::Four(Endian::Big) => take_in::<R, From, Four<BigEndian>>(rest, out, at),
        AsciiForm::Four(Endian::Little) => take_in::<R, From, Four<LittleEndian>>(rest, out, at),
    }
}

/// Writes the run at the start of a text in another form, as `take_run` does. Kept out of line, so that the callers'
/// loops stay small.
#[inline(never)]
fn take_form<R: CodeLimit>(
    form: AsciiForm,
    target: AsciiForm,
    rest: &[u8],
    out: &mut [u8],
    at: usize,
) -> usize
    requires { at ≤ length out.old }
    ensures stand { unit_size form * result ≤ length rest.now }
    ensures fit { at + unit_size target * result ≤ length out.old }
    ensures small { IsRunBelow R.limit form rest.now result }
    ensures none { result ≡ 0 → out.new ≡ out.old }
    ensures out { out.new
        ≡ take at out.old ++ bytes_of_units target (characters_in form rest.now result)
        ++ drop (at + unit_size target * result) out.old }
{
    match form {
        AsciiForm::Byte => take_units::<R, Byte>(target, rest, out, at),
        AsciiForm::Two(Endian::Big) => take_units::<R, Two<BigEndian>>(target, rest, out, at),
        AsciiForm::Two(Endian::Little) => take_units::<R, Two<LittleEndian>>(target, rest, out, at),
        AsciiForm::Four(Endian::Big) => take_units::<R, Four<BigEndian>>(target, rest, out, at),
        AsciiForm::Four(Endian::Little) => take_units::<R, Four<LittleEndian>>(
            target, rest, out, at,
        ),
    }
}

/// Writes the run of units of a form at the start of a text in the target form, as far as there is room, and returns
/// how many units it wrote. It may write none if the run is shorter than a block and the text is not.
#[inline(always)]
pub(crate) fn take_run<R: CodeLimit>(
    form: AsciiForm,
    target: AsciiForm,
    rest: &[u8],
    out: &mut [u8],
    at: usize,
) -> usize
    requires { at ≤ length out.old }
    ensures stand { unit_size form * result ≤ length rest.now }
    ensures fit { at + unit_size target * result ≤ length out.old }
    ensures small { IsRunBelow R.limit form rest.now result }
    ensures none { result ≡ 0 → out.new ≡ out.old }
    ensures out { out.new
        ≡ take at out.old ++ bytes_of_units target (characters_in form rest.now result)
        ++ drop (at + unit_size target * result) out.old }
{
    if !form_may_run::<R>(form, rest) {
        return 0;
    }
    take_form::<R>(form, target, rest, out, at)
}
