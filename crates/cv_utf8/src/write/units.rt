//! Sixteen units that are written at once.
ghost use Rattle.std.specs.Prelude.{◌≡◌, ◌+◌, ◌≤◌, ◌<◌, ℕ, length, take, drop, get_or};

use cv_base::Scalar;
use cv_block::LANES;
use std::simd::prelude::*;

/// The numbers of sixteen characters below U+10000.
#[inline(always)]
pub(crate) fn units_of(characters: &[Scalar], n: usize) -> u16x16
    requires within { n + 16 ≤ length characters.now }
    requires middle { (k : ℕ) → k < 16 → get_or characters.now (n + k) 0 < 0x10000 }
    ensures { result ≡ take 16 (drop n characters.now) }
{
    let mut units = [0; LANES];
    for lane in 0..LANES {
        units[lane] = characters[n + lane].value() as u16;
    }
    u16x16::from_array(units)
}

/// The first eight of sixteen units.
#[inline(always)]
pub(crate) fn first_eight(units: u16x16) -> u16x8
    ensures { result ≡ take 8 units }
{
    units.extract::<0, 8>()
}

/// The last eight of sixteen units.
#[inline(always)]
pub(crate) fn last_eight(units: u16x16) -> u16x8
    ensures { result ≡ drop 8 units }
{
    units.extract::<8, 8>()
}
