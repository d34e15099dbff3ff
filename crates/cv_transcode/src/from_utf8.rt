//! From UTF-8 to UTF-16, by windows of sixteen bytes, and by characters of four bytes.
ghost use Rattle.std.specs.Prelude.{◌≡◌, ◌+◌, ◌*◌, ◌≤◌, ◌<◌, ℕ, length, take, slice_index, IfSome, IsTrue};
ghost use Rattle.std.specs.Prelude.{MatchOption, map};
ghost use Rattle.std.specs.List.{flat_map};
ghost use Rattle.cv_base.specs.Places.{IsPut};
ghost use Rattle.cv_transcode.specs.Runs.{IsTranscoded};
ghost use Rattle.cv_block.specs.Slack.{IsPutWithSlack};
ghost use Rattle.cv_transcode.specs.Private.Windows.{in_order, IsSupplementary};
ghost use Rattle.cv_utf8.specs.Utf16Lanes.{lane_characters, AreRead};
ghost use Rattle.cv_utf8.specs.Utf8.{utf8_bytes};
ghost use Rattle.cv_utf16.specs.Utf16.{utf16};

use crate::last_window::convert_last_bytes;
use crate::room_end_utf16::fill_units;
use crate::run::Run;
use crate::utf16::Utf16Window;
use crate::window_writer::{ROOM, WindowWriter};
use cv_base::Endian;
use cv_block::{ByteOrder, LANES, is_ascii_block};
use cv_utf8::{Utf16Lanes, read_utf16_lanes, supplementary_at};
use std::simd::prelude::*;

/// How many bytes of the text are looked at for a window: the sixteen of the window, and two after them.
pub(crate) const WINDOW: usize = 18;

/// How many lanes a part of a window has.
const EIGHT: usize = 8;

/// After so many bytes of ASCII the loop ends: the caller has a faster way for them, but to end costs as much as a few
/// windows.
const ASCII_BYTES: usize = 128;

/// How many bytes of characters of four bytes are converted in a row at most.
const SUPPLEMENTARY_BYTES: usize = 64;

/// The least byte that may begin a character of four bytes.
const FOUR_BYTES: u8 = 0xf0;

/// How many bytes four such characters have.
const FOUR_CHARACTERS: usize = 16;

/// Returns whether five characters of four bytes likely follow each other at the start of a text, to judge by their
/// first bytes. So many are faster by blocks, which read sixteen of them at once.
#[inline(always)]
pub fn begins_with_supplementary(text: &[u8]) -> bool {
    text.len() > FOUR_CHARACTERS
        && text[0] & text[4] & text[8] & text[12] & text[FOUR_CHARACTERS] >= FOUR_BYTES
}

/// Eight units as numbers that are written with the low byte first: big-endian ones have their bytes swapped.
#[inline(always)]
#[tactic(auto, using(cv_block::proofs::Lanes::divisors))]
fn ordered<O: ByteOrder>(units: u16x8) -> u16x8
    ensures { result ≡ map (in_order O.endian) units }
{
    match O::order() {
        Endian::Big => return units / u16x8::splat(0x100) + units * u16x8::splat(0x100),
        Endian::Little => return units,
    }
}

/// Writes the first `n` of eight units. It may also change the bytes after them, as far as eight units reach.
#[inline(always)]
fn put_eight<O: ByteOrder>(units: u16x8, n: usize, out: &mut [u8], at: usize)
    requires few { n ≤ 8 }
    requires room { at + 16 ≤ length out.old }
    ensures { (slack : ℕ) → 16 ≤ 2 * n + slack
        → IsPutWithSlack (flat_map (utf16 O.endian) (take n units)) out.old at (2 * n) slack out.new }
{
    let bytes = ordered::<O>(units).to_le_bytes();
    bytes.copy_to_slice(&mut out[at..]);
}

/// Sixteen characters of ASCII, as units in two parts.
#[inline(always)]
fn ascii_units(text: &[u8], at: usize) -> Utf16Lanes
    requires within { at + 16 ≤ length text.now }
    requires ascii { (k : ℕ) → at ≤ k → k < at + 16 → slice_index text.now k < 128 }
    ensures { AreRead text.now at result }
{
    Utf16Lanes {
        first: u8x8::from_slice(&text[at..]).cast::<u16>(),
        firsts: EIGHT,
        second: u8x8::from_slice(&text[at + EIGHT..]).cast::<u16>(),
        seconds: EIGHT,
        used: LANES,
    }
}

/// The whole characters of up to three bytes at the start of a window, up to one that has four.
#[inline(always)]
#[tactic(auto, using(crate::proofs::UnitsPut::read_within))]
fn next_units(text: &[u8], at: usize) -> Utf16Lanes
    requires { at + 18 ≤ length text.now }
    ensures read { AreRead text.now at result }
    ensures within { at + result.used ≤ length text.now }
{
    if is_ascii_block(text, at) {
        return ascii_units(text, at);
    }
    read_utf16_lanes(text, at)
}

/// Whether each character of a window has one byte.
#[inline(always)]
fn are_ascii(units: &Utf16Lanes) -> bool
    requires few { units.now.firsts ≤ 8 }
    requires others { units.now.seconds ≤ 8 }
{
    units.used == units.firsts + units.seconds
}

/// Writes the characters of a window, and returns how many bytes they have. It restores the bytes after them.
#[inline(always)]
pub(crate) fn write_units<O: ByteOrder>(units: &Utf16Lanes, out: &mut [u8], at: usize) -> usize
    requires few { units.now.firsts ≤ 8 }
    requires others { units.now.seconds ≤ 8 }
    requires room { at + 48 ≤ length out.old }
    ensures put { IsPut (flat_map (utf16 O.endian) (lane_characters units.now)) out.old at
        result out.new }
    ensures within { at + result ≤ length out.new }
{
    let n = 2 * (units.firsts + units.seconds);
    let behind = u8x16::from_slice(&out[at + n..]);
    put_eight::<O>(units.first, units.firsts, out, at);
    put_eight::<O>(units.second, units.seconds, out, at + 2 * units.firsts);
    behind.copy_to_slice(&mut out[at + n..]);
    n
}

/// The character of four bytes at the start of a text, if there is one.
#[inline(always)]
fn supplementary(text: &[u8]) -> Option<u32>
    requires { 4 ≤ length text.now }
    ensures { IfSome result (λ c. IsSupplementary utf8_bytes text.now c) }
{
    if text[0] < FOUR_BYTES {
        return None;
    }
    let (c, _) = supplementary_at(text, 0)?;
    Some(c.value())
}

/// Converts the characters of four bytes at the start of a text, and returns how many bytes they have, which is the
/// same in UTF-16. It converts at most `SUPPLEMENTARY_BYTES` bytes.
#[inline(always)]
fn convert_supplementary<O: ByteOrder>(text: &[u8], out: &mut [u8], at: usize) -> usize
    requires { at ≤ length out.old }
    ensures within { result ≤ length text.now }
    ensures room { at + result ≤ length out.new }
    ensures converted { IsTranscoded utf8_bytes (utf16 O.endian) text.now out.old at
        (record { used = result; wrote = result }) out.new }
{
    let most = text.len().min(out.len() - at).min(SUPPLEMENTARY_BYTES);
    let mut used = 0;
    while most - used >= 4 {
        let Some(value) = supplementary(&text[used..]) else {
            break;
        };
        Utf16Window::<O>::write_supplementary(value, out, at + used);
        used += 4;
    }
    used
}

/// Whether none of sixteen bytes begins a character of four bytes.
#[inline(always)]
fn have_no_supplementary(text: &[u8]) -> bool
    requires { 16 ≤ length text.now }
{
    u8x16::from_slice(text)
        .simd_ge(u8x16::splat(FOUR_BYTES))
        .to_bitmask()
        == 0
}

/// Whether there is no character of four bytes near the end of the text before a row of them. To end for a single row
/// costs more than to convert its characters one by one, but rows close to each other are faster by blocks. It affects
/// speed only.
#[inline(always)]
fn are_apart(before: &[u8]) -> bool {
    let n = before.len();
    n >= LANES
        && have_no_supplementary(&before[n - LANES..])
        && (n < 2 * LANES || have_no_supplementary(&before[n - 2 * LANES..]))
}

/// Converts the characters of four bytes after a window that used `window` bytes, and returns how many bytes they have.
/// It does so only if the window ended early, and if these characters are few, or apart from others.
#[inline(always)]
#[tactic(auto, using(crate::proofs::Joined::none_converted_exactly))]
fn convert_after<O: ByteOrder>(before: &[u8], text: &[u8], out: &mut [u8], at: usize) -> usize
    requires { at ≤ length out.old }
    ensures within { result ≤ length text.now }
    ensures room { at + result ≤ length out.new }
    ensures converted { IsTranscoded utf8_bytes (utf16 O.endian) text.now out.old at
        (record { used = result; wrote = result }) out.new }
{
    if begins_with_supplementary(text) && !are_apart(before) {
        return 0;
    }
    convert_supplementary::<O>(text, out, at)
}

/// Whether the loop goes on after so many bytes of characters of four bytes, which a window ended before.
#[inline(always)]
fn goes_on(supplementary: usize) -> bool
    ensures { IsTrue result → 0 < supplementary }
{
    supplementary > 0 && supplementary < SUPPLEMENTARY_BYTES
}

/// Converts the windows at the start of a text, and characters of four bytes after them. It ends before a character
/// that is ill-formed or might not have room, and before the last few bytes. It also ends after much ASCII, or before
/// several characters of four bytes in a row that are near others: the caller has faster ways for them. It may convert
/// none.
#[inline(always)]
fn convert_windows<O: ByteOrder>(text: &[u8], out: &mut [u8], at: usize) -> Run
    requires { at ≤ length out.old }
    ensures { IsTranscoded utf8_bytes (utf16 O.endian) text.now out.old at result out.new }
{
    let mut used = 0;
    let mut end = at;
    let mut other = 0;
    while used - other < ASCII_BYTES && text.len() - used >= WINDOW && out.len() - end >= ROOM {
        let units = next_units(text, used);
        end += write_units::<O>(&units, out, end);
        used += units.used;
        if units.used < LANES {
            let supplementary = convert_after::<O>(&text[..used], &text[used..], out, end);
            end += supplementary;
            used += supplementary;
            other = used;
            if !goes_on(supplementary) {
                break;
            }
        } else if !are_ascii(&units) {
            other = used;
        }
    }
    let wrote = end - at;
    Run { used, wrote }
}

/// Converts what windows left of a text, if that is less than a window, or if little room is left. It may convert none.
#[inline(always)]
#[tactic(auto, using(crate::proofs::Joined::none_converted_exactly))]
fn convert_rest<O: ByteOrder>(rest: &[u8], out: &mut [u8], at: usize) -> Run
    requires { at ≤ length out.old }
    ensures { IsTranscoded utf8_bytes (utf16 O.endian) rest.now out.old at result out.new }
{
    if out.len() - at < ROOM {
        return fill_units::<O>(rest, out, at);
    }
    if rest.len() < WINDOW {
        return convert_last_bytes::<O>(rest, out, at);
    }
    Run { used: 0, wrote: 0 }
}

/// Converts the windows at the start of a text as `convert_windows` does, and then what is left of the text if that is
/// less than a window, or of the room if that is little. It may convert none.
#[inline(always)]
fn convert_some<O: ByteOrder>(text: &[u8], out: &mut [u8], at: usize) -> Run
    requires { at ≤ length out.old }
    ensures { IsTranscoded utf8_bytes (utf16 O.endian) text.now out.old at result out.new }
{
    let whole = convert_windows::<O>(text, out, at);
    let rest = &text[whole.used..];
    if rest.is_empty() {
        return whole;
    }
    let last = convert_rest::<O>(rest, out, at + whole.wrote);
    Run {
        used: whole.used + last.used,
        wrote: whole.wrote + last.wrote,
    }
}

/// Converts characters at the start of a text from UTF-8 to UTF-16, into a slice from index `at` on. It may convert
/// fewer than possible. All other bytes of the slice stay. Returns `None` if it converted none.
#[inline(never)]
pub fn utf8_to_utf16<O: ByteOrder>(text: &[u8], out: &mut [u8], at: usize) -> Option<Run>
    requires { at ≤ length out.old }
    ensures some { IfSome result (λ run. 0 < run.used) }
    ensures run { MatchOption result (out.new ≡ out.old) (λ run.
        IsTranscoded utf8_bytes (utf16 O.endian) text.now out.old at run out.new) }
{
    let run = convert_some::<O>(text, out, at);
    if run.used == 0 {
        return None;
    }
    Some(run)
}
