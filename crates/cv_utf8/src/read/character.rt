//! Reading characters of UTF-8 one by one.
ghost use Rattle.std.specs.Prelude.{◌+◌, ◌≤◌, IfSome, length, get_or};
ghost use Rattle.cv_block.specs.StatelessForms.{IsFormAt};
ghost use Rattle.cv_utf8.specs.Utf8.{utf8_bytes};

use cv_base::Scalar;

/// The character of two bytes at `at`, and its length, or `None` if no such character is there.
#[inline(always)]
fn two_at(input: &[u8], at: usize) -> Option<(Scalar, usize)>
    requires within { at + 2 ≤ length input.now }
    ensures { IfSome result (λ read. IsFormAt utf8_bytes input.now at read.0 read.1) }
{
    let first = input[at] as u32;
    if first < 0xc2 || first > 0xdf {
        return None;
    }
    let second = input[at + 1] as u32;
    if second / 64 != 2 {
        return None;
    }
    let number = (first - 0xc0) * 64 + (second - 0x80);
    Some((Scalar::known(number), 2))
}

/// The character of three bytes at `at`, and its length, or `None` if the bytes are ill-formed. The first byte is E0 to
/// EF.
#[inline(always)]
fn three_at(input: &[u8], at: usize) -> Option<(Scalar, usize)>
    requires within { at + 3 ≤ length input.now }
    requires first { 0xe0 ≤ get_or input.now at 0 }
    requires last { get_or input.now at 0 ≤ 0xef }
    ensures { IfSome result (λ read. IsFormAt utf8_bytes input.now at read.0 read.1) }
{
    let first = input[at] as u32;
    let second = input[at + 1] as u32;
    let third = input[at + 2] as u32;
    if (second / 64) * 4 + third / 64 != 10 {
        return None;
    }
    let number = (first - 0xe0) * 4096 + (second - 0x80) * 64 + (third - 0x80);
    if number < 0x800 || number / 0x800 == 27 {
        return None;
    }
    Some((Scalar::known(number), 3))
}

/// Returns the character from U+10000 on at index `at`, and its length, which is 4, or `None` if the bytes are
/// ill-formed. The first byte is at least F0.
#[inline(always)]
pub fn supplementary_at(input: &[u8], at: usize) -> Option<(Scalar, usize)>
    requires within { at + 4 ≤ length input.now }
    requires first { 0xf0 ≤ get_or input.now at 0 }
    ensures character { IfSome result (λ read. IsFormAt utf8_bytes input.now at read.0 read.1) }
    ensures above { IfSome result (λ read. 0x10000 ≤ read.0) }
{
    let first = input[at] as u32;
    let second = input[at + 1] as u32;
    let third = input[at + 2] as u32;
    let fourth = input[at + 3] as u32;
    if (second / 64) * 16 + (third / 64) * 4 + fourth / 64 != 42 {
        return None;
    }
    let tails = (second - 0x80) * 4096 + (third - 0x80) * 64 + (fourth - 0x80);
    let number = (first - 0xf0) * 262144 + tails;
    if number < 0x1_0000 || number >= 0x11_0000 {
        return None;
    }
    Some((Scalar::known(number), 4))
}

/// Returns the next character and its length, or `None` if the bytes are ill-formed. At least four bytes are left.
#[inline(always)]
pub(crate) fn inner_at(input: &[u8], at: usize) -> Option<(Scalar, usize)>
    requires { at + 4 ≤ length input.now }
    ensures { IfSome result (λ read. IsFormAt utf8_bytes input.now at read.0 read.1) }
{
    let first = input[at];
    if first < 0x80 {
        return Some((Scalar::known(first as u32), 1));
    }
    if first < 0xe0 {
        return two_at(input, at);
    }
    if first < 0xf0 {
        return three_at(input, at);
    }
    supplementary_at(input, at)
}

/// Returns the next character and its length, or `None` if no bytes are left, or those that are left are ill-formed or
/// cut off.
#[inline(never)]
pub(crate) fn last_at(input: &[u8], at: usize) -> Option<(Scalar, usize)>
    requires { at ≤ length input.now }
    ensures { IfSome result (λ read. IsFormAt utf8_bytes input.now at read.0 read.1) }
{
    let left = input.len() - at;
    if left == 0 {
        return None;
    }
    let first = input[at];
    if first < 0x80 {
        return Some((Scalar::known(first as u32), 1));
    }
    if first < 0xe0 && left >= 2 {
        return two_at(input, at);
    }
    if first >= 0xe0 && first < 0xf0 && left >= 3 {
        return three_at(input, at);
    }
    if first >= 0xf0 && left >= 4 {
        return supplementary_at(input, at);
    }
    None
}
