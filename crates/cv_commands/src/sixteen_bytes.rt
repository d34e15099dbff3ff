//! Writes sixteen bytes in hexadecimal at once.
ghost use Rattle.std.specs.Prelude.{◌≡◌, ◌<◌, ℕ, false, length, get_or, map};
ghost use Rattle.std.specs.Fmt.{digit_glyph};
ghost use Rattle.std.specs.List.{flat_map};
ghost use Rattle.cv_commands.specs.Lines.{hexadecimal};

use std::simd::prelude::*;

/// How many bytes are written at once.
pub(crate) const SIXTEEN: usize = 16;

/// Returns the lower-case hexadecimal digits of sixteen numbers below 16.
#[inline(always)]
fn glyphs(numbers: u8x16) -> u8x16
    requires { (k : ℕ) → k < 16 → get_or numbers k 0 < 16 }
    ensures { result ≡ map (digit_glyph false) numbers }
{
    numbers
        .simd_lt(u8x16::splat(10))
        .select(u8x16::splat(b'0'), u8x16::splat(b'a' - 10))
        + numbers
}

/// Returns the digits of sixteen bytes, two for each, the higher first.
#[inline(always)]
pub(crate) fn sixteen_digits(bytes: &[u8]) -> [u8; 32]
    requires { length bytes.now ≡ 16 }
    ensures { result ≡ flat_map hexadecimal bytes.now }
{
    let numbers = u8x16::from_slice(bytes);
    let sixteen = u8x16::splat(16);
    let (first, second) = glyphs(numbers / sixteen).interleave(glyphs(numbers % sixteen));
    let mut digits = [0; 2 * SIXTEEN];
    first.copy_to_slice(&mut digits);
    second.copy_to_slice(&mut digits[SIXTEEN..]);
    digits
}
