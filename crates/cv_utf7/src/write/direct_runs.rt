//! Runs of direct characters out of a text in which each ASCII character is one unit.
ghost use Rattle.std.specs.Prelude.{◌≤◌, length};
ghost use Rattle.cv_base.specs.Blocks.{IsWrittenRun};
ghost use Rattle.cv_base.specs.declared.ascii_form.AsciiForm.{AsciiForm};
ghost use Rattle.cv_base.specs.declared.state.WriteState.{WriteState};
ghost use Rattle.cv_utf7.specs.Utf7.{utf7_writes};

use crate::direct_bytes::written_direct;
use crate::write::runs::copy;
use cv_base::AsciiForm;
use cv_block::take_ascii_run;
use cv_simd::SIXTEEN;

/// How many units of more than one byte are converted to bytes at once.
const MANY_UNITS: usize = 64;

/// Writes the direct bytes at the start of a text in whole blocks of sixteen, as far as there is room, and returns how
/// many it wrote.
#[inline(always)]
fn write_direct_bytes(text: &[u8], out: &mut [u8], at: usize) -> usize
    requires { at ≤ length out.old }
    ensures { IsWrittenRun utf7_writes WriteState.Start AsciiForm.Byte text.now
        out.old at result out.new }
{
    let most = text.len().min(out.len() - at);
    let run = written_direct(&text[..most]);
    // Fewer are faster by a block.
    if run < SIXTEEN {
        return 0;
    }
    copy(text, run, out, at);
    run
}

/// Writes the direct characters at the start of a text whose ASCII has this form, at most `MANY_UNITS` and as far as
/// there is room. Returns how many it wrote: none if they are fewer than sixteen.
#[inline(always)]
fn write_direct_units(form: AsciiForm, text: &[u8], out: &mut [u8], at: usize) -> usize
    requires { at ≤ length out.old }
    ensures { IsWrittenRun utf7_writes WriteState.Start form text.now out.old at result out.new }
{
    let mut ascii = [0; MANY_UNITS];
    let n = take_ascii_run(form, AsciiForm::Byte, text, &mut ascii, 0);
    let run = written_direct(&ascii).min(n).min(out.len() - at);
    // Fewer are faster by a block.
    if run < SIXTEEN {
        return 0;
    }
    copy(&ascii, run, out, at);
    run
}

/// Writes the direct characters at the start of a text whose ASCII has this form, as far as there is room, and returns
/// how many it wrote. It may write fewer than possible, and none if they are few.
pub(crate) fn write_direct_run(form: AsciiForm, text: &[u8], out: &mut [u8], at: usize) -> usize
    requires { at ≤ length out.old }
    ensures { IsWrittenRun utf7_writes WriteState.Start form text.now out.old at result out.new }
{
    match form {
        AsciiForm::Byte => write_direct_bytes(text, out, at),
        _ => write_direct_units(form, text, out, at),
    }
}
