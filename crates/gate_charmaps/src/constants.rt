//! Every form of every constant of one byte: decimal, octal and hexadecimal.

use cv_charmap::{CompileFault, Pairs, read};
use std::alloc::{AllocError, Global};
use std::io;

/// The hexadecimal digits of a number below sixteen, in both cases.
fn digits(value: u8) -> &'static [u8] {
    const DIGITS: [&[u8]; 16] = [
        b"0", b"1", b"2", b"3", b"4", b"5", b"6", b"7", b"8", b"9", b"aA", b"bB", b"cC", b"dD",
        b"eE", b"fF",
    ];
    DIGITS.get(usize::from(value)).copied().unwrap_or(b"")
}

/// The constants of a byte, without the escape character.
fn constants(alloc: Global, byte: u8) -> Result<Vec<String>, AllocError> {
    let mut all = vec![in alloc;
        format!(in alloc; "d{byte:03}")?,
        format!(in alloc; "{byte:03o}")?,
    ]?;
    if byte < 100 {
        all.push(format!(in alloc; "d{byte:02}")?)?;
    }
    if byte < 64 {
        all.push(format!(in alloc; "{byte:02o}")?)?;
    }
    for high in digits(byte / 16) {
        for low in digits(byte % 16) {
            all.push(format!(in alloc; "x{}{}", char::from(*high), char::from(*low))?)?;
        }
    }
    Ok(all)
}

/// The text of a charmap in which each constant of each byte is mapped to the character with the byte's number, and how
/// many lines these are.
fn charmap(alloc: Global) -> Result<(String, u64), AllocError> {
    let mut text = format!(in alloc; "<code_set_name> CONSTANTS\nCHARMAP\n")?;
    let mut count = 0u64;
    for byte in 0..=255u8 {
        for constant in constants(alloc, byte)? {
            text.push_str(&format!(in alloc; "<U{byte:04x}> \\{constant}\n")?)?;
            count = count.saturating_add(1);
        }
    }
    text.push_str("END CHARMAP\n")?;
    Ok((text, count))
}

/// Whether the mappings are those of each byte to the character with its number, in order.
fn is_latin1(pairs: &Pairs) -> bool {
    pairs.len() == 256
        && (0..256).all(|place| match pairs.get(place) {
            Some(pair) => match pair.bytes() {
                [byte] => usize::from(*byte) == place
                    && pair.character().value() == u32::from(*byte),
                _ => false,
            },
            None => false,
        })
}

/// Reads every form of every constant. Prints how many there are if all are read as the bytes that they denote, or else
/// that some are not.
pub fn read_each<R: Print + AllocGlobal>(rt: &R) -> io::Result<()> {
    let (text, count) = charmap(rt.alloc())?;
    match read(rt.alloc(), text.as_bytes()) {
        Ok(pairs) if is_latin1(&pairs) => println!(rt;
            "{count} constants are the bytes that they spell"
        ),
        Ok(_) => println!(rt; "constants: other bytes than they spell"),
        Err(CompileFault::Map(fault)) => println!(rt; "constants: {fault}"),
        Err(CompileFault::Memory) => Err(io::ErrorKind::OutOfMemory.into()),
    }
}
