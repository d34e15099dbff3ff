//! Eight numbers at once.
ghost use Rattle.std.specs.Prelude.{◌≤◌, ◌<◌, ℕ, slice_index};

/// How many characters are read or written at once.
pub const LANES: usize = 8;

/// Returns the bits of eight numbers, joined by OR. None of the numbers is above the result.
#[inline(always)]
pub fn any_bits(numbers: &[u32; LANES]) -> u32
    ensures { (k : ℕ) → k < 8 → slice_index numbers.now k ≤ result }
{
    let mut bits = 0;
    for k in 0..LANES {
        bits |= numbers[k];
    }
    bits
}
