//! Conversions of text that has characters from U+10000 on among others.
ghost use Rattle.std.specs.Prelude.{◌≡◌, ◌+◌, ◌≤◌, ◌<◌, ℕ, IfSome, IsTrue, MatchOption, length, get_or, take};
ghost use Rattle.std.specs.List.{flat_map};
ghost use Rattle.cv_transcode.specs.Runs.{IsTranscoded};
ghost use Rattle.cv_block.specs.Slack.{IsPutWithSlack};
ghost use Rattle.cv_transcode.specs.Private.Slack.{IsConvertedWithSlack};

use crate::ascii_runs::convert_ascii;
use crate::room_end::{LITTLE_ROOM, fill_room};
use crate::run::Run;
use crate::window_reader::{WindowReader, count_characters, surrogates};
use crate::window_writer::{ROOM, WindowWriter, copy_prefix, write_first};
use crate::windows::convert;
use cv_block::LANES;

/// The size of the buffer for mixed text, in bytes.
const BUFFER: usize = 512;

/// How many parts of mixed text are converted at least, however small they are.
const MIN_PARTS: usize = 4;

/// After so many bytes of ASCII, which are eight windows, mixed text from UTF-32 to UTF-8 ends. The buffer has room for
/// 29 windows of ASCII.
const ASCII_BYTES: usize = 512;

/// How many bytes a window of UTF-32 has, which is the largest.
pub(crate) const WIDE: usize = 64;

/// Converts the characters from U+10000 on at the start of a text, up to index `end` of the output, and returns how
/// many bytes they have, which is the same in both encodings.
#[inline(always)]
fn convert_supplementary<S: WindowReader, T: WindowWriter>(
    text: &[u8],
    out: &mut [u8],
    at: usize,
    end: usize,
) -> usize
    requires room { at ≤ end }
    requires within { end ≤ length out.old }
    ensures fit { at + result ≤ end }
    ensures converted { IsConvertedWithSlack S.bytes_of T.bytes_of text.now out.old at
        result result 0 out.new }
{
    let most = text.len().min(end - at);
    let mut used = 0;
    while most - used >= 4 {
        let Some(value) = S::supplementary(&text[used..]) else {
            break;
        };
        T::write_supplementary(value, out, at + used);
        used += 4;
    }
    used
}

/// Converts a window up to its first surrogate, and then the characters from U+10000 on, up to index `end` of the
/// output. It may also change up to 48 bytes after what it writes.
#[inline(always)]
fn convert_window<S: WindowReader, T: WindowWriter>(
    text: &[u8],
    out: &mut [u8],
    at: usize,
    end: usize,
) -> Run
    requires window { S.window_size ≤ length text.now }
    requires room { at + 64 ≤ end }
    requires within { end ≤ length out.old }
    ensures fit { at + result.wrote ≤ end }
    ensures converted { IsConvertedWithSlack S.bytes_of T.bytes_of text.now out.old at
        result.used result.wrote 48 out.new }
{
    let size = S::window_size();
    let units = S::window(text);
    let n = count_characters(units);
    if n == LANES {
        return Run {
            used: size,
            wrote: T::write_window::<S>(units, out, at),
        };
    }
    let used = n * (size / LANES);
    let wrote = write_first::<S, T>(units, n, out, at);
    let supplementary = convert_supplementary::<S, T>(&text[used..], out, at + wrote, end);
    Run {
        used: used + supplementary,
        wrote: wrote + supplementary,
    }
}

/// Whether the window at the start of a text may have characters from U+10000 on, but only few. It affects speed only.
#[inline(always)]
fn is_mixed<S: WindowReader>(text: &[u8]) -> bool
    ensures { IsTrue result → S.window_size ≤ length text.now }
{
    if text.len() < S::window_size() {
        return false;
    }
    let mask = surrogates(S::window(text));
    mask != 0 && !S::is_dense(mask)
}

/// Where the last part ended that was not ASCII, after a part that wrote `wrote` bytes. Only from UTF-32 to UTF-8 does
/// any part count as ASCII: from UTF-16 ASCII soon fills the buffer, and in UTF-16 it has the size of other text.
#[inline(always)]
fn last_other<S: WindowReader, T: WindowWriter>(wrote: usize, used: usize, other: usize) -> usize
    requires { other ≤ used }
    ensures { result ≤ used }
{
    if S::window_size() == WIDE && T::zero_size() == 1 && wrote == LANES {
        return other;
    }
    used
}

/// Converts windows into a buffer, up to its index `end`, and returns what was converted. It ends early if the windows
/// have many parts for their bytes, or after much ASCII.
#[inline(always)]
fn fill<S: WindowReader, T: WindowWriter>(text: &[u8], buffer: &mut [u8], end: usize) -> Run
    requires { end ≤ length buffer.old }
    ensures fit { result.wrote ≤ end }
    ensures converted { IsConvertedWithSlack S.bytes_of T.bytes_of text.now buffer.old 0
        result.used result.wrote 48 buffer.new }
{
    let size = S::window_size();
    let part_size = S::part_size(T::zero_size());
    let mut used = 0;
    let mut wrote = 0;
    let mut parts = 0;
    let mut other = 0;
    while text.len() - used >= size
        && end - wrote >= ROOM
        && parts <= MIN_PARTS + used / part_size
        && used - other < ASCII_BYTES
    {
        let run = convert_window::<S, T>(&text[used..], buffer, wrote, end);
        used += run.used;
        wrote += run.wrote;
        if run.used == 0 {
            break;
        }
        parts += 1;
        other = last_other::<S, T>(run.wrote, used, other);
    }
    Run { used, wrote }
}

/// Converts the windows at the start of a text with their characters from U+10000 on, as many as a buffer takes, if
/// there are any. Kept out of line, since a function clears its buffers on entry.
#[inline(never)]
fn convert_mixed<S: WindowReader, T: WindowWriter>(
    text: &[u8],
    out: &mut [u8],
    at: usize,
) -> Option<Run>
    requires { at ≤ length out.old }
    ensures some { IfSome result (λ run. 0 < run.used) }
    ensures run { MatchOption result (out.new ≡ out.old) (λ run.
        IsTranscoded S.bytes_of T.bytes_of text.now out.old at run out.new) }
{
    let room = BUFFER.min(out.len() - at);
    let mut buffer = [0u8; BUFFER];
    let run = fill::<S, T>(text, &mut buffer, room);
    if run.used == 0 {
        return None;
    }
    copy_prefix(&buffer, run.wrote, out, at);
    Some(run)
}

/// Converts the windows at the start of a text, and then mixed text. Returns what was converted, and whether windows go
/// on after it. They do not if mixed text ended before its buffer was full: its parts were small, or ASCII follows.
#[inline(always)]
fn convert_both<S: WindowReader, T: WindowWriter>(
    text: &[u8],
    out: &mut [u8],
    at: usize,
) -> (Run, bool)
    requires { at ≤ length out.old }
    ensures none { result.0.used ≡ 0 → out.new ≡ out.old }
    ensures more { IsTrue result.1 → 0 < result.0.used }
    ensures run { IsTranscoded S.bytes_of T.bytes_of text.now out.old at result.0 out.new }
{
    let plain = convert::<S, T>(text, out, at);
    let rest = &text[plain.used..];
    if !is_mixed::<S>(rest) {
        return (plain, false);
    }
    let Some(mixed) = convert_mixed::<S, T>(rest, out, at + plain.wrote) else {
        return (plain, false);
    };
    let run = Run {
        used: plain.used + mixed.used,
        wrote: plain.wrote + mixed.wrote,
    };
    let is_full = mixed.wrote > BUFFER - ROOM;
    (run, is_full)
}

/// Converts what `convert_both` does, and then a run of ASCII if windows do not go on. Returns what was converted, and
/// whether windows go on after it.
#[inline(always)]
fn convert_some<S: WindowReader, T: WindowWriter>(
    text: &[u8],
    out: &mut [u8],
    at: usize,
) -> (Run, bool)
    requires { at ≤ length out.old }
    ensures none { result.0.used ≡ 0 → out.new ≡ out.old }
    ensures more { IsTrue result.1 → 0 < result.0.used }
    ensures run { IsTranscoded S.bytes_of T.bytes_of text.now out.old at result.0 out.new }
{
    let (both, on) = convert_both::<S, T>(text, out, at);
    if on {
        return (both, true);
    }
    let ascii = convert_ascii::<S, T>(&text[both.used..], out, at + both.wrote);
    let run = Run {
        used: both.used + ascii.used,
        wrote: both.wrote + ascii.wrote,
    };
    (run, ascii.used > 0)
}

/// Converts the text that windows take, with the characters from U+10000 on and the runs of ASCII among them. It ends
/// if `convert` ends for another reason, or if characters from U+10000 on are many. It may convert none.
#[inline(always)]
fn convert_parts<S: WindowReader, T: WindowWriter>(text: &[u8], out: &mut [u8], at: usize) -> Run
    requires { at ≤ length out.old }
    ensures none { result.used ≡ 0 → out.new ≡ out.old }
    ensures run { IsTranscoded S.bytes_of T.bytes_of text.now out.old at result out.new }
{
    let mut used = 0;
    let mut wrote = 0;
    loop {
        let (run, on) = convert_some::<S, T>(&text[used..], out, at + wrote);
        used += run.used;
        wrote += run.wrote;
        if !on {
            break;
        }
    }
    Run { used, wrote }
}

/// Converts what `convert_parts` does, and then the rest of the text as far as the room goes, if that is little.
#[inline(always)]
fn convert_to_end<S: WindowReader, T: WindowWriter>(text: &[u8], out: &mut [u8], at: usize) -> Run
    requires { at ≤ length out.old }
    ensures none { result.used ≡ 0 → out.new ≡ out.old }
    ensures run { IsTranscoded S.bytes_of T.bytes_of text.now out.old at result out.new }
{
    let run = convert_parts::<S, T>(text, out, at);
    let written = at + run.wrote;
    if run.used == text.len() || out.len() - written >= LITTLE_ROOM {
        return run;
    }
    let end = fill_room::<S, T>(&text[run.used..], out, written);
    Run {
        used: run.used + end.used,
        wrote: run.wrote + end.wrote,
    }
}

/// Converts the text that windows take, with the characters from U+10000 on and the runs of ASCII among them, up to the
/// end of the text or of the room. It ends before that if `convert_parts` does. Returns `None` if it converted none.
#[inline(always)]
pub(crate) fn convert_all<S: WindowReader, T: WindowWriter>(
    text: &[u8],
    out: &mut [u8],
    at: usize,
) -> Option<Run>
    requires { at ≤ length out.old }
    ensures some { IfSome result (λ run. 0 < run.used) }
    ensures run { MatchOption result (out.new ≡ out.old) (λ run.
        IsTranscoded S.bytes_of T.bytes_of text.now out.old at run out.new) }
{
    let run = convert_to_end::<S, T>(text, out, at);
    if run.used == 0 { None } else { Some(run) }
}
