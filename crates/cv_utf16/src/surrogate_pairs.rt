//! Characters of UTF-16 among which some are surrogate pairs, many at once.
ghost use Rattle.std.specs.Prelude.{◌≡◌, ◌≤◌, ◌+◌, ◌++◌, IfSome, length, take};
ghost use Rattle.cv_block.specs.StatelessForms.{IsReadForm};
ghost use Rattle.cv_block.specs.Surrogates.{IsHighUnit, IsLowUnit, IsPair};
ghost use Rattle.cv_utf16.specs.Private.SurrogatePairs.{ArePaired, AreScalarsOrLow, without_low};
ghost use Rattle.cv_utf16.specs.Utf16.{utf16};

use cv_base::Scalar;
use cv_block::{ByteOrder, Converted, LANES, from_surrogates, is_high, is_low};

/// The number of the character of a high surrogate and the low one after it, or of another unit its own. Computed
/// without a branch.
#[inline(always)]
fn paired_with(unit: u32, next: u32) -> u32
    ensures pair { IsHighUnit unit → IsLowUnit next → IsPair unit next result }
    ensures alone { (IsHighUnit unit → ⊥) → result ≡ unit }
{
    let pair = from_surrogates(unit, next);
    if is_high(unit) { pair } else { unit }
}

/// The numbers of the sixteen units at the start of a text, each high surrogate joined with the next unit, if all high
/// and low surrogates are in pairs. No early exit, so that LLVM vectorizes the loop.
#[inline(always)]
fn paired_numbers<O: ByteOrder>(text: &[u8]) -> Option<[u32; LANES]>
    requires { 34 ≤ length text.now }
    ensures { IfSome result
        (λ numbers. (length numbers ≡ 16) × ArePaired O.endian text.now numbers 16) }
{
    let mut numbers = [0; LANES];
    let mut all = true;
    for k in 0..LANES {
        let unit = O::two(text, 2 * k);
        let next = O::two(text, 2 * k + 2);
        numbers[k] = paired_with(unit, next);
        all &= is_high(unit) == is_low(next);
    }
    if all { Some(numbers) } else { None }
}

/// Puts the characters of the numbers into a buffer, after its first `n`, and returns how many they are. A low
/// surrogate is not one of them, since it belongs to its pair: the next character overwrites it. It is a function of
/// its own, so that LLVM vectorizes the computation of the numbers.
#[inline(never)]
fn put_paired(numbers: &[u32; LANES], buffer: &mut [Scalar], n: usize) -> usize
    requires long { length numbers.now ≡ 16 }
    requires scalars { AreScalarsOrLow numbers.now 16 }
    requires room { n + 16 ≤ length buffer.old }
    ensures many { result ≤ 16 }
    ensures counts { result ≡ length (without_low numbers.now) }
    ensures stand { take (n + result) buffer.new ≡ take n buffer.old ++ without_low numbers.now }
    ensures size { length buffer.new ≡ length buffer.old }
{
    let mut more = 0;
    for k in 0..LANES {
        let number = numbers[k];
        let low = is_low(number);
        buffer[n + more] = Scalar::known(if low { 0 } else { number });
        more += !low as usize;
    }
    more
}

/// Reads the characters of sixteen units from index `at` on, if their surrogates are in pairs, and otherwise none. If
/// the last unit is a high surrogate, it reads the low one after it too.
#[inline(always)]
pub(crate) fn read_paired<O: ByteOrder>(
    input: &[u8],
    at: usize,
    buffer: &mut [Scalar],
    n: usize,
) -> Converted
    requires within { at ≤ length input.now }
    requires room { n + 16 ≤ length buffer.old }
    ensures many { result.n ≤ 16 }
    ensures read { IsReadForm (utf16 O.endian) input.now at buffer.old n result buffer.new }
{
    let rest = &input[at..];
    if rest.len() < 2 * LANES + 2 {
        return Converted { n: 0, used: 0 };
    }
    if is_low(O::two(rest, 0)) {
        return Converted { n: 0, used: 0 };
    }
    let Some(numbers) = paired_numbers::<O>(rest) else {
        return Converted { n: 0, used: 0 };
    };
    let behind = 2 * is_low(O::two(rest, 2 * LANES)) as usize;
    let more = put_paired(&numbers, buffer, n);
    Converted {
        n: more,
        used: 2 * LANES + behind,
    }
}
