//! The texts of charmaps, in the form of the files that systems have.

use crate::alphabet::{Code, Kind};
use crate::random::Random;
use std::alloc::{AllocError, Global};

/// What names of characters are made of.
const NAMES: [&str; 16] = [
    "LETTER",
    "SMALL",
    "CAPITAL",
    "WITH",
    "LATIN",
    "ACUTE",
    "GRAVE",
    "SIGN",
    "DIGIT",
    "CYRILLIC",
    "MARK",
    "DOUBLE",
    "LEFT",
    "RIGHT",
    "ABOVE",
    "BOX DRAWINGS",
];

const DIGITS: &[u8; 16] = b"0123456789abcdef";

const CAPITALS: &[u8; 16] = b"0123456789ABCDEF";

fn push_digit(text: &mut Vec<u8>, digit: u32) -> Result<(), AllocError> {
    text.push(
        DIGITS
            .get((digit % 16) as usize)
            .map_or(b'0', |digit| *digit),
    )?;
    Ok(())
}

/// Appends `/xHH` for each byte of a code.
fn push_code(text: &mut Vec<u8>, code: Code) -> Result<(), AllocError> {
    for place in 0..code.size.min(4) {
        let shift = 8 * (code.size.min(4) - 1 - place);
        let byte = (code.bytes >> shift) % 256;
        text.extend_from_slice(b"/x")?;
        push_digit(text, byte / 16)?;
        push_digit(text, byte)?;
    }
    Ok(())
}

/// Appends the name of a character by its number: four digits, or eight.
fn push_name(text: &mut Vec<u8>, character: u32) -> Result<(), AllocError> {
    text.extend_from_slice(b"<U")?;
    let digits: u32 = if character < 0x1_0000 { 4 } else { 8 };
    for place in 0..digits {
        let digit = (character >> (4 * (digits - 1 - place))) % 16;
        text.push(CAPITALS.get(digit as usize).map_or(b'0', |digit| *digit))?;
    }
    text.push(b'>')?;
    Ok(())
}

/// Appends blanks, and behind the bytes what the character is called.
fn push_rest(
    text: &mut Vec<u8>,
    random: &mut Random,
    character: u32,
    code: Code,
) -> Result<(), AllocError> {
    text.extend_from_slice(b"     ")?;
    push_code(text, code)?;
    text.extend_from_slice(b"         ")?;
    if character >= 0x2E80 {
        return text.extend_from_slice(b"<CJK>\n");
    }
    for _word in 0..random.between(2, 6) {
        text.extend_from_slice(random.word(&NAMES).as_bytes())?;
        text.push(b' ')?;
    }
    text.push(b'\n')?;
    Ok(())
}

/// Appends ten mappings at a time, as a range each.
fn push_ranges(text: &mut Vec<u8>, random: &mut Random, turn: u32) -> Result<(), AllocError> {
    for ten in 0..18_000u32 {
        let first = 0x1_0000 + 10 * ten;
        if let Some(code) = Kind::Unified.code(first, turn) {
            push_name(text, first)?;
            text.extend_from_slice(b"..")?;
            push_name(text, first + 9)?;
            push_rest(text, random, first, code)?;
        }
    }
    Ok(())
}

/// The head of a charmap's text. Another version is another text.
pub fn charmap_head(
    alloc: Global,
    kind: Kind,
    name: &str,
    version: u32,
) -> Result<Vec<u8>, AllocError> {
    let most = kind.most_bytes();
    let head = format!(in alloc;
        "<code_set_name> {name}\n<comment_char> %\n<escape_char> /\n<mb_cur_min> 1\n<mb_cur_max> {most}\n% version {version}\n"
    )?;
    Ok(head.into_bytes())
}

/// What follows the head. Another turn is another charmap.
pub fn charmap_mappings(
    alloc: Global,
    random: &mut Random,
    kind: Kind,
    turn: u32,
) -> Result<Vec<u8>, AllocError> {
    let mut text = Vec::from_slice(alloc, b"CHARMAP\n")?;
    for (first, end) in kind.spans() {
        for character in *first..*end {
            let Some(code) = kind.code(character, turn) else {
                continue;
            };
            push_name(&mut text, character)?;
            push_rest(&mut text, random, character, code)?;
        }
    }
    if let Kind::Unified = kind {
        push_ranges(&mut text, random, turn)?;
    }
    text.extend_from_slice(b"END CHARMAP\n")?;
    Ok(text)
}
