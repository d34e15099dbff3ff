//! Every input of UTF-8 of one or two bytes, compared with a table of its own: first bytes, and the second bytes of
//! each.

use cv_base::{Codec, Item, ReadState};
use cv_utf8::Utf8;

/// What an input begins with.
#[derive(Clone, Copy, Debug, PartialEq, Eq)]
enum Front {
    /// A character of this many bytes.
    Character(usize, u32),
    /// A prefix of a character.
    Open,
    /// Neither of these.
    Never,
}

/// The least and the greatest second byte after a first byte of two or more (The Unicode Standard, Table 3-7).
fn second_bytes(first: u8) -> Option<(u8, u8)> {
    match first {
        0xE0 => Some((0xA0, 0xBF)),
        0xED => Some((0x80, 0x9F)),
        0xF0 => Some((0x90, 0xBF)),
        0xF4 => Some((0x80, 0x8F)),
        0xC2..=0xF3 => Some((0x80, 0xBF)),
        _ => None,
    }
}

fn expected(input: &[u8]) -> Front {
    match input {
        [a, ..] if *a < 0x80 => Front::Character(1, u32::from(*a)),
        [a] => match second_bytes(*a) {
            Some(_) => Front::Open,
            None => Front::Never,
        },
        [a, b] => match second_bytes(*a) {
            Some((least, greatest)) if *b < least || *b > greatest => Front::Never,
            Some(_) if *a < 0xE0 => {
                Front::Character(2, (u32::from(*a & 0x1F) << 6) | u32::from(*b & 0x3F))
            }
            Some(_) => Front::Open,
            None => Front::Never,
        },
        _ => Front::Never,
    }
}

fn found(input: &[u8]) -> Front {
    match Utf8.item(ReadState::Start, input) {
        Item::Char { c, n, next: _ } => Front::Character(n, c.value()),
        Item::Incomplete => Front::Open,
        _ => Front::Never,
    }
}

/// Returns how many of the inputs are as the table says.
pub fn as_the_table_says() -> usize {
    let ones = (0..=255u8)
        .filter(|a| found(&[*a]) == expected(&[*a]))
        .count();
    let mut twos: usize = 0;
    for a in 0..=255u8 {
        for b in 0..=255u8 {
            if found(&[a, b]) == expected(&[a, b]) {
                twos = twos.saturating_add(1);
            }
        }
    }
    ones.saturating_add(twos)
}
