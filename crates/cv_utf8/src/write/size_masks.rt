//! How many bytes sixteen units have in UTF-8.
ghost use Rattle.std.specs.Prelude.{◌≡◌, ◌<◌, map};
ghost use Rattle.std.specs.Simd.Lanes.{mask_l};
ghost use Rattle.cv_utf8.specs.Private.ThreeByte.{has_three};
ghost use Rattle.cv_utf8.specs.Private.TwoByte.{has_two};

use std::simd::prelude::*;

/// A mask of those of sixteen units that have two bytes or more. The lowest bit is the first unit's.
#[inline(always)]
pub(crate) fn two_byte_mask(units: u16x16) -> u64
    ensures few { result < 65536 }
    ensures bits { result ≡ mask_l (map has_two units) }
{
    units.simd_ge(u16x16::splat(0x80)).to_bitmask()
}

/// A mask of those of sixteen units that have three bytes. The lowest bit is the first unit's.
#[inline(always)]
pub(crate) fn three_byte_mask(units: u16x16) -> u64
    ensures few { result < 65536 }
    ensures bits { result ≡ mask_l (map has_three units) }
{
    units.simd_ge(u16x16::splat(0x800)).to_bitmask()
}
