//! Conversions by windows of sixteen characters.
ghost use Rattle.std.specs.Prelude.{◌≡◌, ◌≤◌, ◌<◌, ◌+◌, ◌^◌, length};
ghost use Rattle.cv_transcode.specs.Runs.{IsTranscoded};
ghost use Rattle.cv_transcode.specs.Private.Windows.{AreAhead};

use crate::last_window::convert_last;
use crate::room_end::{LITTLE_ROOM, fill_room};
use crate::run::Run;
use crate::utf8::are_below;
use crate::window_reader::{WindowReader, are_characters};
use crate::window_writer::{ROOM, WindowWriter, write_last};
use cv_block::LANES;
use std::simd::prelude::*;

/// After so many windows of ASCII in a row a loop ends: its caller has a faster way for runs of ASCII, but to end costs
/// as much as a few windows.
const ASCII_WINDOWS: usize = 12;

/// After so many windows to UTF-16, in which ASCII has the size of other text, a loop tests whether the next two are
/// ASCII.
const WINDOWS_BEFORE_TEST: usize = 32;

/// After how many windows in a row that may be ASCII a loop tests whether to end. It affects speed only.
#[inline(always)]
fn windows_before_test<T: WindowWriter>() -> usize
    ensures { result ≤ WINDOWS_BEFORE_TEST }
{
    if T::zero_size() == 1 {
        ASCII_WINDOWS
    } else {
        WINDOWS_BEFORE_TEST
    }
}

/// The index in the text up to which windows go on if all of them may be ASCII, after a window that wrote `wrote`
/// bytes. A window that is known not to be ASCII starts the count again.
#[inline(always)]
fn next_stop<T: WindowWriter>(wrote: usize, used: usize, many: usize, stop: usize) -> usize
    requires { used + many < 2 ^ 64 }
{
    if T::zero_size() != 1 || wrote == LANES {
        return stop;
    }
    used + many
}

/// Whether a run of ASCII is likely to follow many windows that may be ASCII. These are the units of the next two
/// windows. It affects speed only.
#[inline(always)]
fn is_run_likely<T: WindowWriter>(units: u16x16, next: u16x16) -> bool {
    T::zero_size() == 1 || are_below(units, 0x80) && are_below(next, 0x80)
}

/// How many windows may be converted before text and room are looked at again: one less than the text has, and than the
/// room is sure to take.
#[inline(always)]
fn windows_ahead(size: usize, left: usize, room: usize) -> usize
    requires some { 0 < size }
    requires text { size ≤ left }
    requires room { 64 ≤ room }
    ensures { AreAhead size left room result }
{
    if left - size < size {
        return 0;
    }
    ((left - size) / size).min((room - ROOM) / ROOM)
}

/// Converts the windows at the start of a text, up to the first that has a surrogate, is not whole, or might not have
/// room. A window may also change the bytes after its own, which the next window overwrites. The last window goes
/// through a buffer. It also ends after many windows in a row that are ASCII, or may be: the caller then looks for a
/// run of ASCII, for which it has a faster way. It may convert none.
#[inline(always)]
#[tactic(auto, using(crate::proofs::Joined::none_converted_exactly))]
fn convert_whole<S: WindowReader, T: WindowWriter>(text: &[u8], out: &mut [u8], at: usize) -> Run
    requires { at ≤ length out.old }
    ensures none { result.used ≡ 0 → out.new ≡ out.old }
    ensures run { IsTranscoded S.bytes_of T.bytes_of text.now out.old at result out.new }
{
    let size = S::window_size();
    if text.len() < size || out.len() - at < ROOM {
        return Run { used: 0, wrote: 0 };
    }
    let mut units = S::window(text);
    if !are_characters(units) {
        return Run { used: 0, wrote: 0 };
    }
    let (mut used, mut end) = (0, at);
    let many = windows_before_test::<T>() * size;
    let mut stop = many;
    let mut ahead = 0;
    loop {
        if ahead == 0 {
            ahead = windows_ahead(size, text.len() - used, out.len() - end);
            if ahead == 0 {
                break;
            }
        }
        ahead -= 1;
        let next = S::window(&text[used + size..]);
        if !are_characters(next) {
            break;
        }
        if used >= stop {
            if is_run_likely::<T>(units, next) {
                break;
            }
            stop = used + many;
        }
        let wrote = T::write_window::<S>(units, out, end);
        end += wrote;
        used += size;
        stop = next_stop::<T>(wrote, used, many, stop);
        units = next;
    }
    end += write_last::<S, T>(units, out, end);
    used += size;
    let wrote = end - at;
    Run { used, wrote }
}

/// Converts the windows at the start of a text as `convert_whole` does, and then what is left of the text if that is
/// less than a window. It may convert none.
#[inline(always)]
pub(crate) fn convert<S: WindowReader, T: WindowWriter>(
    text: &[u8],
    out: &mut [u8],
    at: usize,
) -> Run
    requires { at ≤ length out.old }
    ensures none { result.used ≡ 0 → out.new ≡ out.old }
    ensures run { IsTranscoded S.bytes_of T.bytes_of text.now out.old at result out.new }
{
    let whole = convert_whole::<S, T>(text, out, at);
    let rest = &text[whole.used..];
    if rest.is_empty() || rest.len() >= S::window_size() {
        return whole;
    }
    let last = convert_last::<S, T>(rest, out, at + whole.wrote);
    Run {
        used: whole.used + last.used,
        wrote: whole.wrote + last.wrote,
    }
}

/// Converts what `convert` does, and then the rest of the text as far as the room goes, if that is little.
#[inline(always)]
pub(crate) fn convert_to_end<S: WindowReader, T: WindowWriter>(
    text: &[u8],
    out: &mut [u8],
    at: usize,
) -> Run
    requires { at ≤ length out.old }
    ensures none { result.used ≡ 0 → out.new ≡ out.old }
    ensures run { IsTranscoded S.bytes_of T.bytes_of text.now out.old at result out.new }
{
    let run = convert::<S, T>(text, out, at);
    let written = at + run.wrote;
    if run.used == text.len() || out.len() - written >= LITTLE_ROOM {
        return run;
    }
    let end = fill_room::<S, T>(&text[run.used..], out, written);
    Run {
        used: run.used + end.used,
        wrote: run.wrote + end.wrote,
    }
}
