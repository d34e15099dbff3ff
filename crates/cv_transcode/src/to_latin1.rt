//! From UTF-8 to ISO-8859-1, by windows of sixteen bytes.
ghost use Rattle.std.specs.Prelude.{◌≡◌, ◌+◌, ◌≤◌, ◌<◌, ℕ, [], ◌∷◌, length, take, drop, get_or, slice_index, IfSome};
ghost use Rattle.std.specs.Prelude.{List, MatchOption, IsTrue};
ghost use Rattle.cv_base.specs.Places.{IsPut};
ghost use Rattle.cv_block.specs.Slack.{IsPutWithSlack};
ghost use Rattle.cv_transcode.specs.Runs.{IsTranscoded};
ghost use Rattle.cv_utf8.specs.Utf16Lanes.{lane_characters, AreLatin1};
ghost use Rattle.cv_utf8.specs.Utf8.{utf8_bytes};

use crate::from_utf8::WINDOW;
use crate::run::Run;
use cv_block::{LANES, is_ascii_block};
use cv_utf8::{Utf16Lanes, read_latin1_lanes, read_utf16_lanes};
use std::simd::prelude::*;

/// How many bytes of a slice may change when a window is written.
const ROOM: usize = 32;

/// After so many bytes of ASCII the loop ends: the caller has a faster way for them, but to end costs as much as a few
/// windows.
const ASCII_BYTES: usize = 128;

/// The least byte that begins only characters which ISO-8859-1 lacks, or none.
const LACKED: u8 = 0xc4;

/// Tells whether the first characters of a text may be in ISO-8859-1: those of sixteen bytes, or the first if the text
/// has fewer. It affects speed only.
#[inline(always)]
pub fn may_begin_latin1(text: &[u8]) -> bool {
    if text.len() < LANES {
        return text.is_empty() || text[0] < LACKED;
    }
    u8x16::from_slice(text)
        .simd_ge(u8x16::splat(LACKED))
        .to_bitmask()
        == 0
}

/// Whether each of eight units is the number of a byte.
#[inline(always)]
fn are_small(units: u16x8) -> bool
    ensures { IsTrue result → (k : ℕ) → k < 8 → get_or units k 0 < 0x100 }
{
    units.simd_ge(u16x8::splat(0x100)).to_bitmask() == 0
}

/// Writes the first `n` of eight characters. It may also change the bytes after them, as far as eight reach.
#[inline(always)]
fn put_eight(units: u16x8, n: usize, out: &mut [u8], at: usize)
    requires few { n ≤ 8 }
    requires bytes { (k : ℕ) → k < 8 → get_or units k 0 < 0x100 }
    requires room { at + 8 ≤ length out.old }
    ensures { IsPutWithSlack (take n units) out.old at n 16 out.new }
{
    let bytes = units.cast::<u8>();
    bytes.copy_to_slice(&mut out[at..]);
}

/// Writes the characters of a window, and returns how many they are. It restores the bytes after them.
#[inline(always)]
fn write_bytes(units: &Utf16Lanes, out: &mut [u8], at: usize) -> usize
    requires few { units.now.firsts ≤ 8 }
    requires others { units.now.seconds ≤ 8 }
    requires bytes { AreLatin1 units.now }
    requires room { at + 32 ≤ length out.old }
    ensures { IsPut (lane_characters units.now) out.old at result out.new }
{
    let n = units.firsts + units.seconds;
    let behind = u8x16::from_slice(&out[at + n..]);
    put_eight(units.first, units.firsts, out, at);
    put_eight(units.second, units.seconds, out, at + units.firsts);
    behind.copy_to_slice(&mut out[at + n..]);
    n
}

/// Converts sixteen characters of ASCII.
#[inline(always)]
fn copy_window(text: &[u8], from: usize, out: &mut [u8], at: usize) -> Run
    requires within { from + 16 ≤ length text.now }
    requires ascii { (k : ℕ) → from ≤ k → k < from + 16 → slice_index text.now k < 128 }
    requires room { at + 16 ≤ length out.old }
    ensures { IsTranscoded utf8_bytes (λ c. c ∷ []) (drop from text.now) out.old at result out.new }
{
    u8x16::from_slice(&text[from..]).copy_to_slice(&mut out[at..]);
    Run {
        used: LANES,
        wrote: LANES,
    }
}

/// Converts the characters of a window. It converts none if one of them is ill-formed, or ISO-8859-1 lacks it.
#[inline(always)]
fn convert_window(text: &[u8], from: usize, out: &mut [u8], at: usize) -> Run
    requires within { from + 18 ≤ length text.now }
    requires room { at + 32 ≤ length out.old }
    ensures { IsTranscoded utf8_bytes (λ c. c ∷ []) (drop from text.now) out.old at result out.new }
{
    let Some(units) = read_latin1_lanes(text, from) else {
        return Run { used: 0, wrote: 0 };
    };
    Run {
        used: units.used,
        wrote: write_bytes(&units, out, at),
    }
}

/// Converts a window, of which is known whether it is ASCII.
#[inline(always)]
fn convert_next(is_ascii: bool, text: &[u8], from: usize, out: &mut [u8], at: usize) -> Run
    requires within { from + 18 ≤ length text.now }
    requires ascii { IsTrue is_ascii → (k : ℕ) → from ≤ k → k < from + 16 → slice_index text.now k < 128 }
    requires room { at + 32 ≤ length out.old }
    ensures run { IsTranscoded utf8_bytes (λ c. c ∷ []) (drop from text.now) out.old at result out.new }
    ensures within { from + result.used ≤ length text.now }
    ensures room { at + result.wrote ≤ length out.new }
{
    if is_ascii {
        return copy_window(text, from, out, at);
    }
    convert_window(text, from, out, at)
}

/// How many bytes of ASCII are at the end of a window, which is ASCII or not, after so many.
#[inline(always)]
fn ascii_after(is_ascii: bool, ascii: usize) -> usize
    requires { ascii < 128 }
{
    if is_ascii { ascii + LANES } else { 0 }
}

/// Converts the windows at the start of a text. It ends before a window with a character that ISO-8859-1 lacks, before
/// a character that is ill-formed or might not have room, and before the last few bytes. It also ends after much ASCII,
/// for which the caller has a faster way. It may convert none.
#[inline(always)]
fn convert_windows(text: &[u8], out: &mut [u8], at: usize) -> Run
    requires { at ≤ length out.old }
    ensures { IsTranscoded utf8_bytes (λ c. c ∷ []) text.now out.old at result out.new }
{
    let mut used = 0;
    let mut end = at;
    let mut ascii = 0;
    while ascii < ASCII_BYTES && text.len() - used >= WINDOW && out.len() - end >= ROOM {
        let is_ascii = is_ascii_block(text, used);
        let run = convert_next(is_ascii, text, used, out, end);
        used += run.used;
        end += run.wrote;
        if run.used == 0 {
            break;
        }
        ascii = ascii_after(is_ascii, ascii);
    }
    let wrote = end - at;
    Run { used, wrote }
}

/// A byte that no character has. As the first byte of a character it would be one below U+0100: what fills up a window
/// is not taken for characters that ISO-8859-1 lacks.
const NO_BYTE: u8 = 0xc0;

/// Converts a text that has fewer bytes than a window looks at. It converts none if there might be too little room.
#[inline(always)]
fn convert_last(text: &[u8], out: &mut [u8], at: usize) -> Run
    requires few { length text.now < 18 }
    requires within { at ≤ length out.old }
    ensures { IsTranscoded utf8_bytes (λ c. c ∷ []) text.now out.old at result out.new }
{
    if out.len() - at < ROOM {
        return Run { used: 0, wrote: 0 };
    }
    let mut window = [NO_BYTE; WINDOW];
    window[..text.len()].copy_from_slice(text);
    let units = read_utf16_lanes(&window, 0);
    if units.used > text.len() {
        return Run { used: 0, wrote: 0 };
    }
    if !are_small(units.first) || !are_small(units.second) {
        return Run { used: 0, wrote: 0 };
    }
    Run {
        used: units.used,
        wrote: write_bytes(&units, out, at),
    }
}

/// Converts the windows at the start of a text as `convert_windows` does, and then what is left of the text if that is
/// less than a window. It may convert none.
#[inline(always)]
fn convert_some(text: &[u8], out: &mut [u8], at: usize) -> Run
    requires { at ≤ length out.old }
    ensures { IsTranscoded utf8_bytes (λ c. c ∷ []) text.now out.old at result out.new }
{
    let whole = convert_windows(text, out, at);
    let rest = &text[whole.used..];
    if rest.is_empty() || rest.len() >= WINDOW {
        return whole;
    }
    let last = convert_last(rest, out, at + whole.wrote);
    Run {
        used: whole.used + last.used,
        wrote: whole.wrote + last.wrote,
    }
}

/// Converts characters at the start of a text from UTF-8 to ISO-8859-1, by windows of sixteen bytes, into a slice from
/// index `at` on. It may convert fewer than possible. All other bytes of the slice stay. Returns `None` if it converted
/// none.
#[inline(never)]
pub fn utf8_to_latin1(text: &[u8], out: &mut [u8], at: usize) -> Option<Run>
    requires { at ≤ length out.old }
    ensures some { IfSome result (λ run. 0 < run.used) }
    ensures run { MatchOption result (out.new ≡ out.old) (λ run.
        IsTranscoded utf8_bytes (λ c. c ∷ []) text.now out.old at run out.new) }
{
    let run = convert_some(text, out, at);
    if run.used == 0 { None } else { Some(run) }
}
