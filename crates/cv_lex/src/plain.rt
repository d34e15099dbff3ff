//! Mapping lines of the commonest form: `<U` and four to eight hexadecimal digits, `>`, blanks, and hexadecimal
//! constants.

ghost use Rattle.std.specs.Prelude.{◌≡◌, ◌≤◌, ◌<◌, IfSome, IsTrue, Ok, take, true};
ghost use Rattle.std.specs.List.{before_first};
ghost use Rattle.cv_lex.specs.Words.{is_blank};
ghost use Rattle.cv_lex.specs.Constants.{bytes_of};
ghost use Rattle.cv_lex.specs.Mappings.{One};
ghost use Rattle.cv_lex.specs.Readings.{Maps, reading_of};
ghost use Rattle.cv_lex.specs.Private.Plain.{HasNumber, IsApart};

use crate::line::Marks;
use crate::names::scalar;
use crate::words::{blanks_at, digit, is_blank};
use cv_base::Scalar;

/// Tells whether the escape character is no blank and in no name of this form.
#[inline(always)]
fn is_apart(escape: u8) -> bool
    ensures { IsTrue result → IsApart escape }
{
    digit(escape) >= 36 && !is_blank(escape) && escape != b'>'
}

/// Returns the number of a name after its `<`, and what follows its `>`, if the name is `U` and four to eight
/// hexadecimal digits.
#[inline(always)]
fn number_at(text: &[u8]) -> Option<(u32, &[u8])>
    ensures { IfSome result (λ p. HasNumber text.now p.0 p.1.now) }
{
    let [letter, digits @ ..] = text else {
        return None;
    };
    if *letter != b'U' {
        return None;
    }
    let mut number: u32 = 0;
    for (n, byte) in digits.iter().enumerate() {
        let value = digit(*byte);
        if value >= 16 {
            if n < 4 || *byte != b'>' {
                return None;
            }
            return Some((number, &digits[n + 1..]));
        }
        if n == 8 {
            return None;
        }
        number = 16 * number + value;
    }
    None
}

/// Puts the bytes of one to eight hexadecimal constants, up to a blank or the end, and returns how many they are.
#[inline(always)]
fn put_bytes(escape: u8, text: &[u8], bytes: &mut [u8; 8]) -> Option<usize>
    requires { IsApart escape }
    ensures few { IfSome result (λ n. n ≤ 8) }
    ensures bytes { IfSome result
        (λ n. bytes_of escape (before_first is_blank text.now) ≡ Ok (take n bytes.new)) }
{
    let [mark, letter, ..] = text else {
        return None;
    };
    if *mark != escape || *letter != b'x' {
        return None;
    }
    let mut n = 0;
    let mut rest = text;
    while let [mark, letter, high, low, more @ ..] = rest {
        let (high, low) = (digit(*high), digit(*low));
        if *mark != escape || *letter != b'x' || high >= 16 || low >= 16 {
            break;
        }
        if n == 8 {
            break;
        }
        bytes[n] = (16 * high + low) as u8;
        n += 1;
        rest = more;
    }
    match rest {
        [] => Some(n),
        [byte, ..] => { if is_blank(*byte) { Some(n) } else { None } }
    }
}

/// Reads a mapping line of the commonest form, below `CHARMAP`. Returns its character and how many bytes it has, from 1
/// to 8, which are put into the buffer: so no list of them goes through memory. `None` says nothing of the line, which
/// then has to be read by [`read_line`](crate::read_line).
#[inline(always)]
pub fn read_plain(marks: &Marks, line: &[u8], bytes: &mut [u8; 8]) -> Option<(Scalar, usize)>
    requires { marks.now.inside ≡ true }
    ensures some { IfSome result (λ p. 0 < p.1) }
    ensures few { IfSome result (λ p. p.1 ≤ 8) }
    ensures reading { IfSome result
        (λ p. reading_of marks.now line.now ≡ Ok (Maps (One p.0 (take p.1 bytes.new)))) }
{
    let [open, name @ ..] = line else {
        return None;
    };
    if *open != b'<' {
        return None;
    }
    let escape = marks.escape;
    if !is_apart(escape) {
        return None;
    }
    let (number, rest) = number_at(name)?;
    let Ok(c) = scalar(number) else {
        return None;
    };
    let blanks = blanks_at(rest);
    if blanks == 0 {
        return None;
    }
    let n = put_bytes(escape, &rest[blanks..], bytes)?;
    Some((c, n))
}
