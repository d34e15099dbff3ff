//! Rooms that end within a text. Each room up to 130 bytes has to be filled as item by item.
use crate::converting::conversion;
use cv_base::Policy;
use cv_pivot::{Conversion, Stop};
use std::alloc::Global;
use std::test::Fail;

/// Pieces of text, each of which is repeated up to 100 characters: such of one byte in UTF-8, of two, of three and of
/// four, and such of all.
const PIECES: [&str; 8] = [
    "abcdefg",
    "привет",
    "漢字仮名交",
    "😀😁",
    "да, нет; ",
    "a漢bж字",
    "漢字仮名交ひらがなカタカナ片仮😀名",
    "ab😀жж漢c",
];

/// The pairs that have loops of windows.
const PAIRS: [(&str, &str); 9] = [
    ("UTF-8", "UTF-16LE"),
    ("UTF-8", "UTF-16BE"),
    ("UTF-16LE", "UTF-8"),
    ("UTF-16BE", "UTF-8"),
    ("UTF-16LE", "UTF-16BE"),
    ("UTF-16BE", "UTF-16LE"),
    ("UTF-32LE", "UTF-8"),
    ("UTF-32BE", "UTF-16LE"),
    ("UTF-32LE", "UTF-16BE"),
];

/// A text in two encodings. `ends` has for each character where it ends in both.
#[derive(Drop)]
struct Both {
    text: Vec<u8>,
    wanted: Vec<u8>,
    ends: Vec<(usize, usize)>,
}

/// Appends a character to a text, as a conversion writes it. So few bytes are converted item by item.
fn push_item(conversion: &mut Conversion, item: &[u8], text: &mut Vec<u8>) -> Result<(), Fail> {
    let mut out = [0u8; 8];
    let outcome = conversion.convert(item, &mut out);
    if outcome.stop != Stop::Done {
        return Err("an item is not converted".into());
    }
    let wrote = out.len().saturating_sub(outcome.room_left);
    text.extend_from_slice(out.get(..wrote).ok_or("no output")?)?;
    Ok(())
}

/// A piece as 100 characters in both encodings, converted item by item.
fn text_and_wanted(alloc: Global, from: &str, to: &str, piece: &str) -> Result<Both, Fail> {
    let mut first = conversion(alloc, "UTF-8", from, Policy::Substitute)?;
    let mut second = conversion(alloc, from, to, Policy::Substitute)?;
    let mut both = Both {
        text: Vec::new(alloc),
        wanted: Vec::new(alloc),
        ends: Vec::new(alloc),
    };
    for _piece in 0..100usize {
        for c in piece.chars() {
            if both.ends.len() >= 100 {
                return Ok(both);
            }
            let mut bytes = [0u8; 4];
            let item = c.encode_utf8(&mut bytes).as_bytes();
            let begin = both.text.len();
            push_item(&mut first, item, &mut both.text)?;
            let item = both.text.get(begin..).ok_or("no item")?;
            push_item(&mut second, item, &mut both.wanted)?;
            both.ends.push((both.text.len(), both.wanted.len()))?;
        }
    }
    Ok(both)
}

/// Where the characters end that fit into a room, in both encodings.
fn fitting(both: &Both, room: usize) -> (usize, usize) {
    let mut last = (0, 0);
    for end in &both.ends {
        if end.1 <= room {
            last = *end;
        }
    }
    last
}

/// Whether a room is filled as item by item, and the bytes after that stay.
fn is_filled(conversion: &mut Conversion, both: &Both, out: &mut [u8]) -> bool {
    let room = out.len();
    let outcome = conversion.convert(&both.text, out);
    let (used, wrote) = fitting(both, room);
    let (written, behind) = (out.get(..wrote), out.get(wrote..));
    outcome.left == both.text.len().saturating_sub(used)
        && outcome.room_left == room.saturating_sub(wrote)
        && written == both.wanted.get(..wrote)
        && behind.unwrap_or(&[]).iter().all(|byte| *byte == 0xee)
}

#[test]
fn rooms_are_filled_as_item_by_item(rt: HostRuntime) -> Result<(), Fail> {
    for (from, to) in PAIRS {
        for piece in PIECES {
            let both = text_and_wanted(rt.alloc(), from, to, piece)?;
            for room in 0..131usize {
                let mut conversion = conversion(rt.alloc(), from, to, Policy::Substitute)?;
                let mut out = vec![in rt.alloc(); 0xeeu8; room]?;
                let filled = is_filled(&mut conversion, &both, &mut out);
                assert!(rt; filled, "{from} to {to}, {room}: {piece}");
            }
        }
    }
    Ok(())
}
