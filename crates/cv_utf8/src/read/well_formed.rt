//! How much of a text is well-formed UTF-8.
ghost use Rattle.std.specs.Prelude.{◌≡◌, ◌≤◌, ◌<◌, ℕ, IsUtf8, length, take};
ghost use Rattle.cv_utf8.specs.Private.Utf8Short.{IsShortAt};

use crate::read::masks::is_continuation;
use crate::read::short::{are_short, are_short_block};
use crate::read::utf16_lanes::complete_lanes;
use simdutf8::compat::from_utf8;

/// How many bytes are tested at once if no character has more than two.
const BLOCK: usize = 64;

/// How many are where fewer bytes are left.
const STEP: usize = 16;

/// The length in bytes of the first part that is tested at once, if some character has more than two bytes. A part that
/// is not well-formed is read twice, so the first part is short. Each later part is twice as long, so that the bytes
/// that are read twice are never many more than the well-formed ones.
const FIRST_PART: usize = 256;

/// Fewer bytes are tested by windows: below 64 `simdutf8` goes byte by byte.
const SHORT_TEXT: usize = 128;

/// How many bytes a window looks at.
const WINDOW: usize = 18;

/// The least byte that may begin a character of four bytes.
const FOUR_BYTES: u8 = 0xf0;

/// A window that has fewer bytes of complete characters ends before one of four bytes, or before a fault.
const LEAST_USED: usize = 14;

/// How many of the bytes precede a character that is cut off at their end, or all if none is. It affects speed only: a
/// part that ends within a character isn't well-formed.
#[inline(always)]
fn uncut(bytes: &[u8]) -> usize
    ensures { result ≤ length bytes.now }
{
    let n = bytes.len();
    if n >= 1 && bytes[n - 1] >= 0xc0 {
        return n - 1;
    }
    if n >= 2 && bytes[n - 2] >= 0xe0 {
        return n - 2;
    }
    if n >= 3 && bytes[n - 3] >= 0xf0 {
        return n - 3;
    }
    n
}

/// A prefix of a text of at most `most` bytes, without a character that is cut off at its end.
#[inline(always)]
fn uncut_part(text: &[u8], most: usize) -> &[u8]
    ensures within { length result.now ≤ length text.now }
    ensures prefix { result.now ≡ take (length result.now) text.now }
{
    let part = &text[..text.len().min(most)];
    &part[..uncut(part)]
}

/// How many bytes at the start of a text are in blocks in which no character has more than two bytes.
#[inline(always)]
fn short_blocks(text: &[u8]) -> usize
    requires { 0 < length text.now }
    ensures within { result < length text.now }
    ensures short { (k : ℕ) → k < result → IsShortAt text.now k }
{
    let mut n = 0;
    while text.len() - n > BLOCK && are_short_block(text, n) {
        n += BLOCK;
    }
    n
}

/// The same, after the first bytes, by steps of sixteen bytes.
#[inline(always)]
fn short_steps(text: &[u8], from: usize) -> usize
    requires within { from < length text.now }
    requires short { (k : ℕ) → k < from → IsShortAt text.now k }
    ensures within { result < length text.now }
    ensures short { (k : ℕ) → k < result → IsShortAt text.now k }
{
    let mut n = from;
    while text.len() - n > STEP && are_short(text, n) {
        n += STEP;
    }
    n
}

/// The same, after the first bytes, by the last seventeen bytes of the text, of which some may be among the first.
#[inline(always)]
fn short_end(text: &[u8], from: usize) -> usize
    requires within { from < length text.now }
    requires short { (k : ℕ) → k < from → IsShortAt text.now k }
    ensures within { result < length text.now }
    ensures short { (k : ℕ) → k < result → IsShortAt text.now k }
{
    let last = text.len() - 1;
    if from < last && last >= STEP && last - STEP <= from && are_short(text, last - STEP) {
        return last;
    }
    from
}

/// How many bytes at the start of a text are those of characters of one or two bytes, as far as they are tested many at
/// once. The byte behind them is counted too if it is ASCII or the second byte of a character.
#[inline(always)]
fn short_prefix_len(text: &[u8]) -> usize
    ensures within { result ≤ length text.now }
    ensures well_formed { IsUtf8 (take result text.now) }
{
    if text.is_empty() || is_continuation(text[0]) {
        return 0;
    }
    let n = short_end(text, short_steps(text, short_blocks(text)));
    n + (text[n] < 0xc0) as usize
}

/// How many bytes at the start of a text are those of complete characters of up to three bytes, as far as windows of
/// them are whole. Kept out of line to save registers in the caller's loop.
#[inline(never)]
fn windows_prefix_len(text: &[u8]) -> usize
    ensures within { result ≤ length text.now }
    ensures well_formed { IsUtf8 (take result text.now) }
{
    let mut n = 0;
    while text.len() - n >= WINDOW {
        let units = complete_lanes(text, n);
        n += units.used;
        if units.used < LEAST_USED {
            break;
        }
    }
    n
}

/// How many bytes at the start of a text are well-formed, as far as they are characters of one or two bytes, and if few
/// are left after these, of three.
#[inline(always)]
fn cheap_prefix_len(text: &[u8]) -> usize
    ensures within { result ≤ length text.now }
    ensures well_formed { IsUtf8 (take result text.now) }
{
    let short = short_prefix_len(text);
    let left = text.len() - short;
    if left < WINDOW || left >= SHORT_TEXT || text[short] >= FOUR_BYTES {
        return short;
    }
    short + windows_prefix_len(&text[short..])
}

/// Returns how many bytes at the start of a text are well-formed. It uses the cheaper tests for characters of up to
/// three bytes, and tries them again after each part that needs the other.
#[inline(never)]
pub(crate) fn well_formed_prefix_len(input: &[u8]) -> usize
    ensures within { result ≤ length input.now }
    ensures well_formed { IsUtf8 (take result input.now) }
{
    let mut n = 0;
    let mut most = FIRST_PART;
    loop {
        let cheap = cheap_prefix_len(&input[n..]);
        n += cheap;
        if cheap >= BLOCK {
            most = FIRST_PART;
        }
        let part = uncut_part(&input[n..], most);
        if part.is_empty() {
            return n;
        }
        match from_utf8(part) {
            Ok(_) => n += part.len(),
            Err(fault) => return n + fault.valid_up_to(),
        }
        most = most.saturating_mul(2);
    }
}
