//! How a text likely goes on, by its first bytes. All of it affects speed only.
use cv_block::{BigEndian, LittleEndian};
use cv_transcode::has_surrogates;
use cv_utf16::Order;

/// The size of a window of UTF-16, in bytes.
const WINDOW_UTF16: usize = 32;

/// Tells whether a text of UTF-8 may begin with a character, by its first bytes: with one of four bytes only if `four`.
#[inline(always)]
pub(crate) fn may_begin_utf8(rest: &[u8], four: bool) -> bool {
    rest.len() < 2
        || rest[0] < 0x80
        || rest[0] >= 0xc2 && (four || rest[0] < 0xf0) && rest[1] / 64 == 2
}

/// Tells whether a text of UTF-16 may begin with a character, by its first bytes: with one of two units only if
/// `pairs`.
#[inline(always)]
pub(crate) fn may_begin_utf16(order: Order, rest: &[u8], pairs: bool) -> bool {
    match (order, rest) {
        (Order::Be, [high, _, next, _, ..]) | (Order::Le, [_, high, _, next, ..]) => {
            *high / 8 != 0x1b || pairs && *high / 4 == 0x36 && *next / 4 == 0x37
        }
        _ => true,
    }
}

/// Tells whether a text of UTF-32 may begin with a character, by its first bytes.
#[inline(always)]
pub(crate) fn may_begin_utf32(order: Order, rest: &[u8]) -> bool {
    match (order, rest) {
        (Order::Be, [top, plane, _, _, ..]) => *top == 0 && *plane <= 0x10,
        (Order::Le, [_, _, plane, top, ..]) => *top == 0 && *plane <= 0x10,
        _ => true,
    }
}

/// Tells whether a short text of UTF-16 is likely to go faster by windows than by a block: it does not begin with a
/// surrogate, and it has none, or after the last window nothing, or ASCII and so likely a run of it.
#[inline(always)]
pub(crate) fn few_windows_pay(order: Order, rest: &[u8]) -> bool {
    // The index of the high byte in a unit.
    let high = match order {
        Order::Le => 1,
        Order::Be | Order::Marked => 0,
    };
    if rest.len() < 2 || rest[high] / 8 == 0x1b {
        return false;
    }
    let tail = &rest[rest.len() / WINDOW_UTF16 * WINDOW_UTF16..];
    if tail.len() < 2 || tail[high] == 0 && tail[1 - high] < 0x80 {
        return true;
    }
    match order {
        Order::Le => !has_surrogates::<LittleEndian>(rest),
        Order::Be | Order::Marked => !has_surrogates::<BigEndian>(rest),
    }
}
