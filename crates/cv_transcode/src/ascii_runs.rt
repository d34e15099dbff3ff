//! Runs of ASCII between windows.
ghost use Rattle.std.specs.Prelude.{◌≡◌, ◌≤◌, length};
ghost use Rattle.cv_transcode.specs.Runs.{IsTranscoded};

use crate::run::Run;
use crate::window_reader::WindowReader;
use crate::window_writer::WindowWriter;
use cv_block::{take_ascii_run, unit_bytes};

/// Converts the run of ASCII at the start of a text, as far as there is room. It may convert none if the run is shorter
/// than sixteen characters.
#[inline(always)]
pub(crate) fn convert_ascii<S: WindowReader, T: WindowWriter>(
    text: &[u8],
    out: &mut [u8],
    at: usize,
) -> Run
    requires { at ≤ length out.old }
    ensures none { result.used ≡ 0 → out.new ≡ out.old }
    ensures run { IsTranscoded S.bytes_of T.bytes_of text.now out.old at result out.new }
{
    let n = take_ascii_run(S::form(), T::form(), text, out, at);
    Run {
        used: unit_bytes(S::form()) * n,
        wrote: unit_bytes(T::form()) * n,
    }
}
