//! The last characters of a text, which are fewer than a window.
ghost use Rattle.std.specs.Prelude.{◌≡◌, ◌≤◌, ◌<◌, length};
ghost use Rattle.cv_transcode.specs.Runs.{IsTranscoded};
ghost use Rattle.cv_utf16.specs.Utf16.{utf16};
ghost use Rattle.cv_utf8.specs.Utf8.{utf8_bytes};

use crate::from_utf8::{WINDOW, write_units};
use crate::mixed::WIDE;
use crate::run::Run;
use crate::window_reader::{WindowReader, count_characters};
use crate::window_writer::{ROOM, WindowWriter, copy_prefix, write_first};
use cv_block::{ByteOrder, LANES};
use cv_utf8::read_utf16_lanes;

/// What is left of a text by a window is converted item by item if it has fewer bytes. More go faster by a block with
/// what is before them.
const FEW_BYTES: usize = 12;

/// Converts a text of less than a window as a window that has U+0000 after it, up to the first surrogate. It converts
/// nothing if there is too little room, or if much would be left. All other bytes of the slice stay.
#[inline(always)]
#[tactic(auto, using(crate::proofs::Joined::none_converted_exactly))]
pub(crate) fn convert_last<S: WindowReader, T: WindowWriter>(
    text: &[u8],
    out: &mut [u8],
    at: usize,
) -> Run
    requires few { length text.now < S.window_size }
    requires within { at ≤ length out.old }
    ensures none { result.used ≡ 0 → out.new ≡ out.old }
    ensures run { IsTranscoded S.bytes_of T.bytes_of text.now out.old at result out.new }
{
    let size = S::window_size() / LANES;
    let mut window = [0u8; WIDE];
    window[..text.len()].copy_from_slice(text);
    let units = S::window(&window);
    let n = count_characters(units).min(text.len() / size);
    if n == 0 || text.len() - n * size >= FEW_BYTES {
        return Run { used: 0, wrote: 0 };
    }
    let mut last = [0u8; ROOM];
    let wrote = write_first::<S, T>(units, n, &mut last, 0);
    if wrote > out.len() - at {
        return Run { used: 0, wrote: 0 };
    }
    copy_prefix(&last, wrote, out, at);
    Run {
        used: n * size,
        wrote,
    }
}

/// A byte that no character has in UTF-8.
pub(crate) const NO_BYTE: u8 = 0xff;

/// Converts a text from UTF-8 to UTF-16 that has fewer bytes than a window looks at: the characters of up to three
/// bytes at its start. It converts nothing if there might be too little room. All other bytes of the slice stay.
#[inline(always)]
#[tactic(auto, using(crate::proofs::Joined::none_converted_exactly))]
pub(crate) fn convert_last_bytes<O: ByteOrder>(text: &[u8], out: &mut [u8], at: usize) -> Run
    requires few { length text.now < 18 }
    requires within { at ≤ length out.old }
    ensures { IsTranscoded utf8_bytes (utf16 O.endian) text.now out.old at result out.new }
{
    if out.len() - at < ROOM {
        return Run { used: 0, wrote: 0 };
    }
    let mut window = [NO_BYTE; WINDOW];
    window[..text.len()].copy_from_slice(text);
    let units = read_utf16_lanes(&window, 0);
    if units.used > text.len() {
        return Run { used: 0, wrote: 0 };
    }
    Run {
        used: units.used,
        wrote: write_units::<O>(&units, out, at),
    }
}
