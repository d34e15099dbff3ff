//! Reads and writes bytes in hexadecimal, by vectors, and the last few one by one.
ghost use Rattle.std.specs.Prelude.{◌≡◌, ◌*◌, ◌%◌, ◌<◌, ◌≤◌, ◌++◌, true, false, length, Some, None, IfOk, OnOk, OnErr};
ghost use Rattle.std.specs.Prelude.{MatchBool};
ghost use Rattle.std.specs.Char.{is_digit, digit_value};
ghost use Rattle.std.specs.Fmt.{digit_glyph};
ghost use Rattle.std.specs.List.{flat_map};
ghost use Rattle.std.specs.Option.{option_map};
ghost use Rattle.cv_commands.specs.Lines.{hexadecimal, body_word};
ghost use Rattle.cv_commands.specs.Private.Digits.{SaysPart};
ghost use Rattle.cv_commands.specs.Words.{bytes_by_digits, bytes_in};

use crate::eight_bytes::{EIGHT, read_eight};
use crate::lines::is;
use crate::sixteen_bytes::{SIXTEEN, sixteen_digits};
use std::alloc::{AllocError, Global};

/// How many bytes are read before it is tested whether all of their digits are hexadecimal. So a word with a fault at
/// its start is not read to its end.
const PART: usize = 4096;

/// Returns the lower-case hexadecimal digit of a number below 16.
fn hex_digit(number: u8) -> u8
    requires { number < 16 }
    ensures { result ≡ digit_glyph false number }
{
    if number < 10 {
        b'0' + number
    } else {
        b'a' + (number - 10)
    }
}

/// Writes the digits of bytes, two for each.
fn write_digits(bytes: &[u8], digits: &mut [u8])
    requires { length digits.old ≡ 2 * length bytes.now }
    ensures { digits.new ≡ flat_map hexadecimal bytes.now }
{
    for n in 0..bytes.len() {
        digits[2 * n] = hex_digit(bytes[n] >> 4);
        digits[2 * n + 1] = hex_digit(bytes[n] & 15);
    }
}

/// Appends the digits of bytes: of sixteen bytes at once, and then of the last few. If an allocation fails, appends
/// nothing. Room for all is reserved first, so no later allocation is needed.
fn push_digits(line: &mut Vec<u8>, bytes: &[u8]) -> Result<(), AllocError>
    ensures ok { OnOk result (line.new.items ≡ line.old.items ++ flat_map hexadecimal bytes.now) }
    ensures err { OnErr result (line.new.items ≡ line.old.items) }
{
    line.reserve(2 * bytes.len())?;
    let blocks = bytes.len() / SIXTEEN;
    for block in 0..blocks {
        let n = SIXTEEN * block;
        line.extend_from_slice(&sixteen_digits(&bytes[n..n + SIXTEEN]))?;
    }
    let last = &bytes[SIXTEEN * blocks..];
    let mut digits = [0; 2 * SIXTEEN];
    write_digits(last, &mut digits[..2 * last.len()]);
    line.extend_from_slice(&digits[..2 * last.len()])?;
    Ok(())
}

/// Appends bytes in hexadecimal, or `-` if there are none. If an allocation fails, appends nothing.
pub(crate) fn push_hex(line: &mut Vec<u8>, bytes: &[u8]) -> Result<(), AllocError>
    ensures ok { OnOk result (line.new.items ≡ line.old.items ++ body_word bytes.now) }
    ensures err { OnErr result (line.new.items ≡ line.old.items) }
{
    if bytes.is_empty() {
        line.push(b'-')?;
        return Ok(());
    }
    push_digits(line, bytes)
}

/// Returns the value of a hexadecimal digit of either case, or 255 for a byte that is no digit.
fn digit_of(byte: u8) -> u8
    ensures digit { result < 16 → (is_digit byte 16 ≡ true) × (result ≡ digit_value byte) }
    ensures none { 16 ≤ result → is_digit byte 16 ≡ false }
{
    match byte {
        b'0'..=b'9' => byte - b'0',
        b'a'..=b'f' => byte - b'a' + 10,
        b'A'..=b'F' => byte - b'A' + 10,
        _ => 255,
    }
}

/// Reads digits, two for each byte, and returns whether all are hexadecimal digits. Eight bytes are read at once, and
/// the last few one by one.
fn read_digits(digits: &[u8], bytes: &mut [u8]) -> bool
    requires { length digits.now ≡ 2 * length bytes.old }
    ensures { MatchBool result (bytes_by_digits digits.now ≡ Some bytes.new) (bytes_by_digits digits.now ≡ None) }
{
    let mut all = true;
    let blocks = bytes.len() / EIGHT;
    for block in 0..blocks {
        let n = EIGHT * block;
        let part = read_eight(&digits[2 * n..2 * n + 2 * EIGHT], &mut bytes[n..n + EIGHT]);
        all = all & part;
    }
    for n in EIGHT * blocks..bytes.len() {
        let high = digit_of(digits[2 * n]);
        let low = digit_of(digits[2 * n + 1]);
        all = all & (high < 16) & (low < 16);
        bytes[n] = 16 * (high % 16) + low % 16;
    }
    all
}

/// Appends the bytes that digits mean, two digits for each. Returns false if one of them is no hexadecimal digit.
fn push_bytes(bytes: &mut Vec<u8>, digits: &[u8]) -> Result<bool, AllocError>
    requires { length digits.now % 2 ≡ 0 }
    ensures { IfOk result (λ all. SaysPart all digits.now bytes.old.items bytes.new.items) }
{
    let start = bytes.len();
    bytes.resize(start + digits.len() / 2, 0)?;
    Ok(read_digits(digits, &mut bytes[start..]))
}

/// Returns the bytes of a word in hexadecimal, two digits for each, or no bytes for `-`. Returns `None` if the word is
/// neither.
pub(crate) fn hex_bytes(alloc: Global, word: &[u8]) -> Result<Option<Vec<u8>>, AllocError>
    ensures { IfOk result (λ said. option_map (λ bytes. bytes.items) said ≡ bytes_in word.now) }
{
    if is(word, b"-") {
        return Ok(Some(Vec::new(alloc)));
    }
    let mut bytes = Vec::with_capacity(alloc, word.len() / 2)?;
    let mut digits = word;
    while digits.len() >= 2 {
        let n = 2 * (digits.len() / 2).min(PART);
        if !push_bytes(&mut bytes, &digits[..n])? {
            return Ok(None);
        }
        digits = &digits[n..];
    }
    if digits.is_empty() {
        Ok(Some(bytes))
    } else {
        Ok(None)
    }
}
