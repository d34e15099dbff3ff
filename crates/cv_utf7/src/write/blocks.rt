//! Blocks of characters that are written.
ghost use Rattle.std.specs.Prelude.{◌≤◌, ◌<◌, ◌+◌, ◌-◌, ◌*◌, length};
ghost use Rattle.cv_utf7.specs.Private.WriteSteps.{written_to, WritesOn};

use crate::write::runs::write_run;
use crate::write::sequences::{WriteProgress, continue_sequence, write_one, write_sequence};
use cv_base::{Scalar, WriteState};
use cv_simd::SIXTEEN;

/// Writes direct characters, and the sequences between them, as far as possible.
#[inline(always)]
fn write_outside(characters: &[Scalar], from: usize, out: &mut [u8], at: usize) -> WriteProgress
    requires some { from < length characters.now }
    requires room { at + 6 * (length characters.now - from) ≤ length out.old }
    ensures more { WritesOn characters.now (written_to WriteState.Start from at) out.old result out.new }
    ensures on { from < result.n }
{
    let mut n = from;
    let mut end = at;
    while n < characters.len() {
        let run = write_run(characters, n, out, end);
        n += run;
        end += run;
        if run == SIXTEEN || n == characters.len() {
            continue;
        }
        let reached = write_sequence(characters, n, out, end);
        match reached.next {
            WriteState::Start => {
                n = reached.n;
                end = reached.end;
            }
            _ => return reached,
        }
    }
    WriteProgress {
        n,
        end,
        next: WriteState::Start,
    }
}

/// Continues to write by one step, outside a shifted sequence or in one.
#[inline(always)]
pub(crate) fn write_on(characters: &[Scalar], from: WriteProgress, out: &mut [u8]) -> WriteProgress
    requires some { from.n < length characters.now }
    requires room { from.end + 6 * (length characters.now - from.n) ≤ length out.old }
    ensures more { WritesOn characters.now from out.old result out.new }
    ensures on { from.n < result.n }
{
    match from.next {
        WriteState::Start => write_outside(characters, from.n, out, from.end),
        WriteState::Shifted(pending) => {
            continue_sequence(pending, characters, from.n, out, from.end)
        }
        WriteState::Marked => write_one(characters, from, out),
    }
}
