//! The words of tables. A table is a text in which each line is a case.
use std::alloc::Global;
use std::test::Fail;

/// Returns the texts before and after the first `mark`.
pub fn sides<'a>(text: &'a str, mark: &str) -> Result<(&'a str, &'a str), Fail> {
    Ok(
        text.split_once(mark)
            .ok_or("a line of a table without its mark")?,
    )
}

/// Returns the first word of a text, and what follows it.
pub fn first_word(text: &str) -> (&str, &str) {
    match text.split_once(' ') {
        Some(parts) => parts,
        None => (text, ""),
    }
}

/// Returns the bytes of words: hexadecimal digits, with blanks between bytes if wanted, and characters between
/// quotation marks. So `""` means no bytes.
pub fn bytes_of(alloc: Global, words: &str) -> Result<Vec<u8>, Fail> {
    let mut bytes = Vec::new(alloc);
    let mut quoted = false;
    for part in words.split('"') {
        if quoted {
            bytes.extend_from_slice(part.as_bytes())?;
        } else {
            push_digits(&mut bytes, part)?;
        }
        quoted = !quoted;
    }
    Ok(bytes)
}

/// Adds the bytes that hexadecimal digits spell.
fn push_digits(bytes: &mut Vec<u8>, digits: &str) -> Result<(), Fail> {
    for number in digits.split_whitespace() {
        for pair in number.as_bytes().chunks(2) {
            let [high, low] = pair else {
                return Err("half a byte".into());
            };
            bytes.push(digit(*high)? << 4 | digit(*low)?)?;
        }
    }
    Ok(())
}

/// The number of a hexadecimal digit.
fn digit(byte: u8) -> Result<u8, Fail> {
    match byte {
        b'0'..=b'9' => Ok(byte - b'0'),
        b'a'..=b'f' => Ok(byte - b'a' + 10),
        _ => Err("no hexadecimal digit".into()),
    }
}
