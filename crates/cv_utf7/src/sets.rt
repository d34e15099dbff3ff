//! The sets of characters of RFC 2152.
ghost use Rattle.std.specs.Prelude.{◌≡◌, ◌<◌, ◌≤◌, ◌↔◌, true, false, IsTrue, MatchOption};
ghost use Rattle.cv_utf7.specs.Private.ReadSteps.{Ends};
ghost use Rattle.cv_utf7.specs.Sets.{is_digit, value_of, digit_of, may_be_direct, is_direct};

// The digits in the order of their values.
static DIGITS: [u8; 64] = *b"ABCDEFGHIJKLMNOPQRSTUVWXYZabcdefghijklmnopqrstuvwxyz0123456789+/";

// The value of each byte that is a digit, 65 for each other byte that may be direct, and 64 for the rest.
#[rattlefmt::skip]
static VALUES: [u8; 256] = [
    64, 64, 64, 64, 64, 64, 64, 64, 64, 65, 65, 64, 64, 65, 64, 64,
    64, 64, 64, 64, 64, 64, 64, 64, 64, 64, 64, 64, 64, 64, 64, 64,
    65, 65, 65, 65, 65, 65, 65, 65, 65, 65, 65, 62, 65, 65, 65, 63,
    52, 53, 54, 55, 56, 57, 58, 59, 60, 61, 65, 65, 65, 65, 65, 65,
    65,  0,  1,  2,  3,  4,  5,  6,  7,  8,  9, 10, 11, 12, 13, 14,
    15, 16, 17, 18, 19, 20, 21, 22, 23, 24, 25, 65, 64, 65, 65, 65,
    65, 26, 27, 28, 29, 30, 31, 32, 33, 34, 35, 36, 37, 38, 39, 40,
    41, 42, 43, 44, 45, 46, 47, 48, 49, 50, 51, 65, 65, 65, 64, 64,
    64, 64, 64, 64, 64, 64, 64, 64, 64, 64, 64, 64, 64, 64, 64, 64,
    64, 64, 64, 64, 64, 64, 64, 64, 64, 64, 64, 64, 64, 64, 64, 64,
    64, 64, 64, 64, 64, 64, 64, 64, 64, 64, 64, 64, 64, 64, 64, 64,
    64, 64, 64, 64, 64, 64, 64, 64, 64, 64, 64, 64, 64, 64, 64, 64,
    64, 64, 64, 64, 64, 64, 64, 64, 64, 64, 64, 64, 64, 64, 64, 64,
    64, 64, 64, 64, 64, 64, 64, 64, 64, 64, 64, 64, 64, 64, 64, 64,
    64, 64, 64, 64, 64, 64, 64, 64, 64, 64, 64, 64, 64, 64, 64, 64,
    64, 64, 64, 64, 64, 64, 64, 64, 64, 64, 64, 64, 64, 64, 64, 64,
];

// What `VALUES` has for a byte that may be direct and is no digit.
const ENDS: u8 = 65;

// For each ASCII character: 1 if it may be direct, 3 if it is also written so.
#[rattlefmt::skip]
static DIRECT: [u8; 128] = [
    0, 0, 0, 0, 0, 0, 0, 0, 0, 3, 3, 0, 0, 3, 0, 0,
    0, 0, 0, 0, 0, 0, 0, 0, 0, 0, 0, 0, 0, 0, 0, 0,
    3, 1, 1, 1, 1, 1, 1, 3, 3, 3, 1, 0, 3, 3, 3, 3,
    3, 3, 3, 3, 3, 3, 3, 3, 3, 3, 3, 1, 1, 1, 1, 3,
    1, 3, 3, 3, 3, 3, 3, 3, 3, 3, 3, 3, 3, 3, 3, 3,
    3, 3, 3, 3, 3, 3, 3, 3, 3, 3, 3, 1, 0, 1, 1, 1,
    1, 3, 3, 3, 3, 3, 3, 3, 3, 3, 3, 3, 3, 3, 3, 3,
    3, 3, 3, 3, 3, 3, 3, 3, 3, 3, 3, 1, 1, 1, 0, 0,
];

/// Whether a byte ends a shifted sequence whose pending bits are zero: it may be direct and is no digit.
#[inline(always)]
pub(crate) fn ends_sequence(b: u8) -> bool
    ensures { IsTrue result ↔ Ends b }
{
    VALUES[b as usize] == ENDS
}

/// The value of a digit, or 64 or more for any other byte.
#[inline(always)]
pub(crate) fn value_or_more(b: u8) -> u32
    ensures few { result < 128 }
    ensures digit { result < 64 → (is_digit b ≡ true) × (result ≡ value_of b) }
{
    VALUES[b as usize] as u32
}

/// The value of a digit, or `None` for any other byte.
#[inline(always)]
pub(crate) fn digit(b: u8) -> Option<u32>
    ensures { MatchOption result (is_digit b ≡ false)
        (λ v. (is_digit b ≡ true) × (v ≡ value_of b)) }
{
    let value = VALUES[b as usize];
    if value < 64 { Some(value as u32) } else { None }
}

/// The digit of a value.
#[inline(always)]
pub(crate) fn digit_for(value: u32) -> u8
    requires { value < 64 }
    ensures { result ≡ digit_of value }
{
    DIGITS[value as usize]
}

/// Whether a byte may be direct in a text that is read: it is its own character.
#[inline(always)]
pub(crate) fn may_stand(b: u8) -> bool
    ensures { result ≡ may_be_direct b }
{
    b < 128 && DIRECT[b as usize] != 0
}

/// Whether a character is written as itself.
#[inline(always)]
pub(crate) fn stands(c: u32) -> bool
    ensures { result ≡ is_direct c }
{
    c < 128 && DIRECT[c as usize] == 3
}
