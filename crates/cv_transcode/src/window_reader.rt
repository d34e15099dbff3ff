//! Encodings that are read by sixteen units at once.
ghost use Rattle.std.specs.Prelude.{◌≡◌, ◌-◌, ◌≤◌, ◌<◌, ◌++◌, ℕ, IfSome, IsTrue, length, get_or, map, replicate, take};
ghost use Rattle.std.specs.Simd.Lanes.{mask_l};
ghost use Rattle.cv_base.specs.Units.{unit_of};
ghost use Rattle.cv_base.specs.declared.ascii_form.AsciiForm.{AsciiForm};
ghost use Rattle.cv_block.specs.StatelessForms.{BytesOf};
ghost use Rattle.cv_block.specs.Units.{AreScalarsBelow};
ghost use Rattle.cv_transcode.specs.Private.Windows.{AreSixteen, IsSupplementary, is_surrogate};

use cv_base::AsciiForm;
use cv_block::LANES;
use std::simd::prelude::*;

/// An encoding in which any sixteen of its characters below U+10000 have the same number of bytes.
pub(crate) trait WindowReader {
    ghost bytes_of: { BytesOf };

    ghost window_size: { ℕ };

    ghost form: { AsciiForm };

    /// Returns how many bytes they have: the size of a window.
    fn window_size() -> usize
        ensures size { result ≡ window_size }
        ensures some { 16 ≤ result }
        ensures few { result ≤ 64 };

    /// Returns the form of the unit of its ASCII characters.
    fn form() -> AsciiForm
        ensures value { result ≡ form }
        ensures spells { (c : ℕ) → c < 128 → bytes_of c ≡ unit_of form c };

    /// Returns the sixteen units at the start of a text. They are its characters, unless a surrogate is among them:
    /// then only those before it are. None is tested.
    fn window(text: &[u8]) -> u16x16
        requires { window_size ≤ length text.now }
        ensures { AreSixteen bytes_of window_size text.now result };

    /// Returns the character from U+10000 on at the start of a text, if there is one. It has four bytes.
    fn supplementary(text: &[u8]) -> Option<u32>
        requires { 4 ≤ length text.now }
        ensures { IfSome result (λ c. IsSupplementary bytes_of text.now c) };

    /// Returns whether all its characters are below U+0100. It affects speed only.
    #[inline(always)]
    fn is_narrow() -> bool {
        false
    }

    /// Returns whether so many of sixteen units are surrogates, or in so many runs, that blocks are faster. It affects
    /// speed only.
    fn is_dense(mask: u64) -> bool;

    /// Returns the least average size of the parts of mixed text, in bytes, for which windows are faster than blocks,
    /// if U+0000 has `zero_size` bytes in the target. It affects speed only.
    fn part_size(zero_size: usize) -> usize
        ensures { 0 < result };
}

/// Whether none of sixteen units is a surrogate.
#[inline(always)]
#[tactic(auto, using(cv_block::proofs::Lanes::divisors))]
pub(crate) fn are_characters(units: u16x16) -> bool
    requires { (k : ℕ) → k < 16 → get_or units k 0 < 0x10000 }
    ensures { IsTrue result → AreScalarsBelow units 16 }
{
    let parts = units / u16x16::splat(0x800);
    parts.simd_eq(u16x16::splat(27)).to_bitmask() == 0
}

/// Which of sixteen units are surrogates, as bits, the lowest for the first.
#[inline(always)]
#[tactic(auto, using(cv_block::proofs::Lanes::divisors))]
pub(crate) fn surrogates(units: u16x16) -> u64
    ensures { result ≡ mask_l (map is_surrogate units) }
{
    let parts = units / u16x16::splat(0x800);
    parts.simd_eq(u16x16::splat(27)).to_bitmask()
}

/// How many of sixteen units are before the first surrogate.
#[inline(always)]
pub(crate) fn count_characters(units: u16x16) -> usize
    requires { (k : ℕ) → k < 16 → get_or units k 0 < 0x10000 }
    ensures few { result ≤ 16 }
    ensures characters { AreScalarsBelow units result }
{
    LANES.min(surrogates(units).trailing_zeros() as usize)
}

/// The indexes of sixteen units.
const INDEXES: [u16; 16] = [0, 1, 2, 3, 4, 5, 6, 7, 8, 9, 10, 11, 12, 13, 14, 15];

/// The first `n` of sixteen units, and zeros in place of the others.
#[inline(always)]
pub(crate) fn first_units(units: u16x16, n: usize) -> u16x16
    requires { n ≤ 16 }
    ensures { result ≡ take n units ++ replicate (16 - n) 0 }
{
    u16x16::from_array(INDEXES)
        .simd_lt(u16x16::splat(n as u16))
        .select(units, u16x16::splat(0))
}
