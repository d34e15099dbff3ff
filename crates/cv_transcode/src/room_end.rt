//! Where the room ends before the text: the last characters that fit, which are written through a buffer.
ghost use Rattle.std.specs.Prelude.{◌≡◌, ◌≤◌, ◌<◌, ◌*◌, ◌/◌, ℕ, length, get_or, take};
ghost use Rattle.cv_block.specs.Units.{AreScalarsBelow};
ghost use Rattle.cv_transcode.specs.Private.Windows.{AreFirst};
ghost use Rattle.cv_transcode.specs.Runs.{IsTranscoded};

use crate::mixed::WIDE;
use crate::run::Run;
use crate::window_reader::{WindowReader, count_characters};
use crate::window_writer::{ROOM, WindowWriter, copy_prefix, write_first};
use cv_block::LANES;
use std::simd::prelude::*;

/// With less room than this whole windows may have ended for lack of room.
pub(crate) const LITTLE_ROOM: usize = 2 * ROOM;

/// The first sixteen units of a text, or all that it has and zeros after them.
#[inline(always)]
fn first_window<S: WindowReader>(text: &[u8]) -> u16x16
    ensures few { (k : ℕ) → k < 16 → get_or result k 0 < 0x10000 }
    ensures prefix { (n : ℕ) → n ≤ 16 → n ≤ length text.now / (S.window_size / 16) → AreScalarsBelow result n
        → AreFirst S.bytes_of (n * (S.window_size / 16)) text.now (take n result) }
{
    if text.len() >= S::window_size() {
        return S::window(text);
    }
    let mut window = [0u8; WIDE];
    window[..text.len()].copy_from_slice(text);
    S::window(&window)
}

/// Converts the characters of the first window of a text, up to its first surrogate, of which at least as many go as
/// surely fit. It may convert none.
#[inline(always)]
#[tactic(auto, using(crate::proofs::Joined::none_converted_exactly))]
fn convert_fitting<S: WindowReader, T: WindowWriter>(text: &[u8], out: &mut [u8], at: usize) -> Run
    requires { at ≤ length out.old }
    ensures none { result.used ≡ 0 → out.new ≡ out.old }
    ensures run { IsTranscoded S.bytes_of T.bytes_of text.now out.old at result out.new }
{
    let size = S::window_size() / LANES;
    let room = out.len() - at;
    let units = first_window::<S>(text);
    let few = T::fitting(units, room).min(text.len() / size);
    let n = count_characters(units).min(few);
    if n == 0 {
        return Run { used: 0, wrote: 0 };
    }
    let mut buffer = [0u8; ROOM];
    let wrote = write_first::<S, T>(units, n, &mut buffer, 0);
    if wrote > room {
        return Run { used: 0, wrote: 0 };
    }
    copy_prefix(&buffer, wrote, out, at);
    Run {
        used: n * size,
        wrote,
    }
}

/// Converts the characters at the start of a text, up to the first surrogate, that fit into less room than windows
/// need. It may leave a few bytes of room. Kept out of line, since few calls come to it.
#[inline(never)]
pub(crate) fn fill_room<S: WindowReader, T: WindowWriter>(
    text: &[u8],
    out: &mut [u8],
    at: usize,
) -> Run
    requires { at ≤ length out.old }
    ensures none { result.used ≡ 0 → out.new ≡ out.old }
    ensures run { IsTranscoded S.bytes_of T.bytes_of text.now out.old at result out.new }
{
    let mut used = 0;
    let mut wrote = 0;
    loop {
        let run = convert_fitting::<S, T>(&text[used..], out, at + wrote);
        used += run.used;
        wrote += run.wrote;
        if run.used == 0 {
            break;
        }
    }
    Run { used, wrote }
}
