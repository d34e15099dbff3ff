//! Code units in strings of digits.
ghost use Rattle.std.specs.Prelude.{◌≡◌, ℕ, ◌+◌, ◌*◌, ◌-◌, ◌^◌, ◌<◌, ◌≤◌, MatchOption, false, length, get_or};

use crate::sets::digit;
use cv_base::Bits;

/// A UTF-16 code unit, how many digits hold it, and the bits left over after it.
#[derive(Clone, Copy)]
pub(crate) struct Base64Unit {
    pub(crate) value: u32,
    pub(crate) n: usize,
    pub(crate) over: Bits,
}

/// The digits at the start of a text, if they are too few for a code unit: how many there are, and how many bits they
/// have with the pending ones before them, and the number that these spell.
#[derive(Clone, Copy)]
pub(crate) struct PartialUnit {
    pub(crate) n: usize,
    pub(crate) count: u32,
    pub(crate) value: u32,
}

impl Base64Unit {
    ghost use Rattle.cv_utf7.specs.Private.ItemSteps.{IsUnit, NoUnit};

    /// The code unit at the start of a text after pending bits, if there are enough digits.
    #[inline(always)]
    #[tactic(auto, using(crate::proofs::PartialUnits::units))]
    pub(crate) fn next(pending: Bits, input: &[u8]) -> Option<Base64Unit>
        ensures { MatchOption result (NoUnit pending input.now) (λ u. IsUnit pending input.now u) }
    {
        if input.len() < 2 {
            return None;
        }
        let first = digit(input[0])?;
        let second = digit(input[1])?;
        let twelve = first * 64 + second;
        if pending.count == 4 {
            return Some(Base64Unit {
                value: pending.value as u32 * 4096 + twelve,
                n: 2,
                over: Bits { count: 0, value: 0 },
            });
        }
        if input.len() < 3 {
            return None;
        }
        let eighteen = twelve * 64 + digit(input[2])?;
        if pending.count == 2 {
            return Some(Base64Unit {
                value: pending.value as u32 * 16384 + eighteen / 16,
                n: 3,
                over: Bits {
                    count: 4,
                    value: (eighteen % 16) as u8,
                },
            });
        }
        Some(Base64Unit {
            value: eighteen / 4,
            n: 3,
            over: Bits {
                count: 2,
                value: (eighteen % 4) as u8,
            },
        })
    }
}

impl PartialUnit {
    ghost use Rattle.cv_utf7.specs.Private.ItemSteps.{NoUnit, IsPartial};
    ghost use Rattle.cv_utf7.specs.Sets.{is_digit};

    /// The digits at the start of a text that has too few for a code unit.
    #[tactic(auto, using(crate::proofs::PartialUnits::fronts))]
    pub(crate) fn of(pending: Bits, input: &[u8]) -> PartialUnit
        requires { NoUnit pending input.now }
        ensures partial { IsPartial pending input.now result.n result.count result.value }
        ensures stop { result.n < length input.now
            → is_digit (get_or input.now result.n 0) ≡ false }
    {
        let mut count = pending.count as u32;
        let mut value = pending.value as u32;
        for (n, b) in input.iter().enumerate() {
            let Some(digit) = digit(*b) else {
                return PartialUnit { n, count, value };
            };
            count += 6;
            value = value * 64 + digit;
        }
        PartialUnit {
            n: input.len(),
            count,
            value,
        }
    }

    /// The least code unit that begins with these bits, and the number above the greatest.
    #[tactic(auto, using(crate::proofs::PartialUnits::ranges))]
    pub(crate) fn range(self) -> (u32, u32)
        requires few { self.count < 16 }
        requires small { self.value < 2 ^ self.count }
        ensures from { result.0 ≡ self.value * 2 ^ (16 - self.count) }
        ensures to { result.1 ≡ self.value * 2 ^ (16 - self.count) + 2 ^ (16 - self.count) }
        ensures bound { result.1 ≤ 65536 }
    {
        let width = 1u32 << (16 - self.count);
        let from = self.value * width;
        (from, from + width)
    }
}
