//! How a text is spelled.

use crate::alphabet::Kind;
use std::alloc::{AllocError, Global};

/// An encoding of the texts that are made.
#[derive(Clone, Copy)]
pub enum Form {
    Ascii,
    Latin1,
    Utf8,
    Utf16Le,
    Utf32Le,
    /// By a charmap of this kind and turn.
    Map(Kind, u32),
    /// UTF-8, as hexadecimal digits.
    Digits,
}

/// Appends a character below a limit as one byte, and `?` for any other.
fn push_below(out: &mut Vec<u8>, character: u32, limit: u32) -> Result<(), AllocError> {
    out.push(if character < limit {
        (character % 256) as u8
    } else {
        b'?'
    })?;
    Ok(())
}

fn push_unit(out: &mut Vec<u8>, unit: u32) -> Result<(), AllocError> {
    out.push((unit % 256) as u8)?;
    out.push((unit / 256 % 256) as u8)?;
    Ok(())
}

fn push_utf16(out: &mut Vec<u8>, character: u32) -> Result<(), AllocError> {
    match character.checked_sub(0x1_0000) {
        None => push_unit(out, character),
        Some(far) => {
            push_unit(out, 0xD800 | (far >> 10))?;
            push_unit(out, 0xDC00 | (far % 0x400))
        }
    }
}

fn push_mapped(out: &mut Vec<u8>, kind: Kind, turn: u32, character: u32) -> Result<(), AllocError> {
    let Some(code) = kind.code(character, turn) else {
        out.push(b'?')?;
        return Ok(());
    };
    for place in 0..code.size.min(4) {
        let shift = 8 * (code.size.min(4) - 1 - place);
        out.push(((code.bytes >> shift) % 256) as u8)?;
    }
    Ok(())
}

fn push_digits(out: &mut Vec<u8>, byte: u8) -> Result<(), AllocError> {
    for digit in [byte / 16, byte % 16] {
        out.push(if digit < 10 {
            b'0' + digit
        } else {
            b'a' - 10 + digit
        })?;
    }
    Ok(())
}

/// Appends a character. What the encoding lacks is `?`.
fn push_character(out: &mut Vec<u8>, form: Form, character: u32) -> Result<(), AllocError> {
    match form {
        Form::Ascii => push_below(out, character, 0x80),
        Form::Latin1 => push_below(out, character, 0x100),
        Form::Utf16Le => push_utf16(out, character),
        Form::Utf32Le => {
            push_unit(out, character % 0x1_0000)?;
            push_unit(out, character / 0x1_0000)
        }
        Form::Map(kind, turn) => push_mapped(out, kind, turn, character),
        Form::Utf8 | Form::Digits => Ok(()),
    }
}

/// The bytes of a text.
pub fn spelled(alloc: Global, text: &str, form: Form) -> Result<Vec<u8>, AllocError> {
    let mut out = Vec::new(alloc);
    match form {
        Form::Utf8 => out.extend_from_slice(text.as_bytes())?,
        Form::Digits => {
            for byte in text.as_bytes() {
                push_digits(&mut out, *byte)?;
            }
        }
        _ => {
            for character in text.chars() {
                push_character(&mut out, form, u32::from(character))?;
            }
        }
    }
    Ok(out)
}
