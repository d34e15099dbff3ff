//! From UTF-8 to UTF-16 where the room ends before the text: the last characters that fit, through a buffer.
ghost use Rattle.std.specs.Prelude.{◌≡◌, ◌≤◌, length};
ghost use Rattle.cv_transcode.specs.Runs.{IsTranscoded};
ghost use Rattle.cv_utf16.specs.Utf16.{utf16};
ghost use Rattle.cv_utf8.specs.Utf16Lanes.{AreRead};
ghost use Rattle.cv_utf8.specs.Utf8.{utf8_bytes};

use crate::from_utf8::write_units;
use crate::last_window::NO_BYTE;
use crate::run::Run;
use crate::window_writer::{ROOM, copy_prefix};
use cv_block::ByteOrder;
use cv_utf8::{Utf16Lanes, read_utf16_lanes};
use std::simd::prelude::*;

/// How many bytes of a text are copied for a window, with others after them if it has fewer.
const COPIED: usize = 64;

/// The characters of up to three bytes among the first `limit` bytes of a text, as many as a window has.
#[inline(always)]
fn first_lanes(text: &[u8], limit: usize) -> Utf16Lanes
    requires { limit ≤ length text.now }
    ensures { AreRead text.now 0 result }
{
    let n = limit.min(COPIED);
    let mut window = [NO_BYTE; COPIED];
    window[..n].copy_from_slice(&text[..n]);
    let units = read_utf16_lanes(&window, 0);
    if units.used > n {
        return Utf16Lanes {
            firsts: 0,
            seconds: 0,
            used: 0,
            ..units
        };
    }
    units
}

/// The indexes of eight units.
const INDEXES: [u16; 8] = [0, 1, 2, 3, 4, 5, 6, 7];

/// How many bytes the first `n` of eight characters have in UTF-8. It affects speed only.
#[inline(always)]
fn utf8_size(units: u16x8, n: usize) -> usize
    requires { n ≤ 8 }
    ensures { result ≤ 136 }
{
    let first = u16x8::from_array(INDEXES)
        .simd_lt(u16x8::splat(n as u16))
        .select(units, u16x8::splat(0));
    let two = first.simd_ge(u16x8::splat(0x80)).to_bitmask().count_ones() as usize;
    let three = first.simd_ge(u16x8::splat(0x800)).to_bitmask().count_ones() as usize;
    n + two + three
}

/// How many bytes the first of the characters have in UTF-8, as many of them as fit into so much room. It affects speed
/// only.
#[inline(always)]
fn fitting(units: &Utf16Lanes, room: usize) -> usize
    requires few { units.now.firsts ≤ 8 }
    requires others { units.now.seconds ≤ 8 }
{
    let most = room / 2;
    let firsts = most.min(units.firsts);
    let seconds = (most - firsts).min(units.seconds);
    utf8_size(units.first, firsts) + utf8_size(units.second, seconds)
}

/// The characters of up to three bytes at the start of a text, as many as a window has and likely fit.
#[inline(always)]
fn fitting_lanes(text: &[u8], room: usize) -> Utf16Lanes
    ensures { AreRead text.now 0 result }
{
    let units = first_lanes(text, text.len());
    if units.firsts + units.seconds <= room / 2 {
        return units;
    }
    first_lanes(text, text.len().min(fitting(&units, room)))
}

/// Converts the characters of up to three bytes at the start of a text, as many as a window has and fit. It may convert
/// none.
#[inline(always)]
#[tactic(auto, using(crate::proofs::Joined::none_converted_exactly))]
fn convert_fitting<O: ByteOrder>(text: &[u8], out: &mut [u8], at: usize) -> Run
    requires { at ≤ length out.old }
    ensures { IsTranscoded utf8_bytes (utf16 O.endian) text.now out.old at result out.new }
{
    let room = out.len() - at;
    let units = fitting_lanes(text, room);
    let mut buffer = [0u8; ROOM];
    let wrote = write_units::<O>(&units, &mut buffer, 0);
    if wrote > room {
        return Run { used: 0, wrote: 0 };
    }
    copy_prefix(&buffer, wrote, out, at);
    Run {
        used: units.used,
        wrote,
    }
}

/// Converts the characters of up to three bytes at the start of a text that fit into less room than windows need. Kept
/// out of line, since few calls come to it.
#[inline(never)]
pub(crate) fn fill_units<O: ByteOrder>(text: &[u8], out: &mut [u8], at: usize) -> Run
    requires { at ≤ length out.old }
    ensures { IsTranscoded utf8_bytes (utf16 O.endian) text.now out.old at result out.new }
{
    let mut used = 0;
    let mut wrote = 0;
    loop {
        let run = convert_fitting::<O>(&text[used..], out, at + wrote);
        used += run.used;
        wrote += run.wrote;
        if run.used == 0 {
            break;
        }
    }
    Run { used, wrote }
}
