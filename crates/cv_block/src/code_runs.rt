//! Runs of ASCII, and of all characters below 256.
ghost use Rattle.std.specs.Prelude.{◌≡◌, ◌≤◌, ◌+◌, ◌*◌, ◌++◌, length, take, drop};
ghost use Rattle.cv_base.specs.Units.{unit_size};
ghost use Rattle.cv_block.specs.AsciiRuns.{IsRunBelow, characters_in, bytes_of_units};

use crate::ascii_bytes::{copy_ascii, copy_bytes};
use crate::ascii_runs::take_run;
use crate::code_limit::{AsciiLimit, Latin1Limit};
use cv_base::AsciiForm;

/// Writes the ASCII characters at the start of a text, whose units have this form, in the target form into a slice from
/// index `at` on, and returns how many it wrote. It stops before the first other unit, and when the slice is full. It
/// may write none if fewer than sixteen of them are there and the text has sixteen units or more. All other bytes of
/// the slice stay.
#[inline(always)]
pub fn take_ascii_run(
    form: AsciiForm,
    target: AsciiForm,
    rest: &[u8],
    out: &mut [u8],
    at: usize,
) -> usize
    requires { at ≤ length out.old }
    ensures stand { unit_size form * result ≤ length rest.now }
    ensures fit { at + unit_size target * result ≤ length out.old }
    ensures small { IsRunBelow 128 form rest.now result }
    ensures none { result ≡ 0 → out.new ≡ out.old }
    ensures out { out.new
        ≡ take at out.old ++ bytes_of_units target (characters_in form rest.now result)
        ++ drop (at + unit_size target * result) out.old }
{
    if let (AsciiForm::Byte, AsciiForm::Byte) = (form, target) {
        return copy_ascii(rest, out, at);
    }
    take_run::<AsciiLimit>(form, target, rest, out, at)
}

/// Writes the characters below 256 at the start of a text, whose units have this form, in the target form into a slice
/// from index `at` on, and returns how many it wrote. It stops before the first other unit, and when the slice is full.
/// It may write none if fewer than sixteen of them are there and the text has sixteen units or more. All other bytes of
/// the slice stay.
#[inline(always)]
pub fn take_latin1_run(
    form: AsciiForm,
    target: AsciiForm,
    rest: &[u8],
    out: &mut [u8],
    at: usize,
) -> usize
    requires { at ≤ length out.old }
    ensures stand { unit_size form * result ≤ length rest.now }
    ensures fit { at + unit_size target * result ≤ length out.old }
    ensures small { IsRunBelow 256 form rest.now result }
    ensures none { result ≡ 0 → out.new ≡ out.old }
    ensures out { out.new
        ≡ take at out.old ++ bytes_of_units target (characters_in form rest.now result)
        ++ drop (at + unit_size target * result) out.old }
{
    if let (AsciiForm::Byte, AsciiForm::Byte) = (form, target) {
        return copy_bytes(rest, out, at);
    }
    take_run::<Latin1Limit>(form, target, rest, out, at)
}
