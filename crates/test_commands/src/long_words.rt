//! Long words of hexadecimal digits, compared with digits that are written one by one.
use cv_commands::{ask_script, show_replies};
use std::alloc::{AllocError, Global};
use std::test::Fail;

/// The digits of bytes, two for each, by a division of each.
fn digits_of(alloc: Global, bytes: &[u8]) -> Result<String, AllocError> {
    let glyphs = b"0123456789abcdef";
    let mut digits = String::new(alloc);
    for byte in bytes {
        digits.push(char::from(glyphs[usize::from(*byte / 16)]))?;
        digits.push(char::from(glyphs[usize::from(*byte % 16)]))?;
    }
    Ok(digits)
}

/// Whether these bytes are read from their digits, before a space and at the end of a script, and are shown as the same
/// digits. The requests are shown as if they were replies. Both have the same header, and the ops 16 and 17 are no
/// statuses, so they are shown as numbers.
fn comes_back(alloc: Global, bytes: &[u8]) -> Result<bool, Fail> {
    let digits = digits_of(alloc, bytes)?;
    let script = format!(in alloc; "7 2 raw 16 {digits} \n7 3 raw 17 {digits}")?;
    let frames = ask_script(alloc, script.as_bytes())?;
    let lines = show_replies(alloc, &frames)?;
    let wanted = format!(in alloc; "7 2 16 {digits}\n7 3 17 {digits}\n")?;
    Ok(lines.as_slice() == wanted.as_bytes() && frames.ends_with(bytes))
}

/// Words of 1 to 70 bytes, with each byte at each index.
#[test]
fn words_of_all_bytes_come_back(rt: HostRuntime) -> Result<(), Fail> {
    let alloc = rt.alloc();
    let mut bytes = Vec::new(alloc);
    for n in 0..512_u32 {
        bytes.push((n % 256) as u8)?;
    }
    for start in 0..256 {
        for length in 1..=70 {
            assert!(rt;
                comes_back(alloc, bytes.get(start..start + length).unwrap_or_default())?,
                "{length} bytes from {start} on"
            );
        }
    }
    Ok(())
}
