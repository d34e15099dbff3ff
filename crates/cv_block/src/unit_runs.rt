//! Characters of one unit each, many at once.
ghost use Rattle.std.specs.Prelude.{◌≡◌, ◌+◌, ◌*◌, ◌≤◌, ◌<◌, ◌++◌, IsTrue, length, take, drop};
ghost use Rattle.std.specs.List.{flat_map};
ghost use Rattle.cv_base.specs.Scalars.{IsScalar};
ghost use Rattle.cv_base.specs.Units.{unit_of, unit_size};
ghost use Rattle.cv_block.specs.StatelessForms.{BytesOf, IsReadForm, IsWrittenForm};
ghost use Rattle.cv_block.specs.Units.{AreUnits, AreScalarsBelow, AreSingle, HasUnits};

use crate::stateless_form::{Converted, LANES};
use crate::unit::Unit;
use cv_base::Scalar;

/// Whether a number is that of a character. Both sides are always tested, so that LLVM vectorizes a loop over it.
#[inline(always)]
fn is_scalar(number: u32) -> bool
    ensures { IsTrue result → IsScalar number }
{
    (number < 0xd800) | ((number >= 0xe000) & (number < 0x11_0000))
}

/// The numbers of the units at the start of a text. None is tested, so that LLVM vectorizes the loop.
#[inline(always)]
pub(crate) fn numbers_of<U: Unit>(text: &[u8]) -> [u32; LANES]
    requires { unit_size U.form * 16 ≤ length text.now }
    ensures long { length result ≡ 16 }
    ensures units { AreUnits U.form text.now result 16 }
{
    let mut numbers = [0; LANES];
    let mut at = 0;
    for k in 0..LANES {
        numbers[k] = U::number(text, at);
        at += U::size();
    }
    numbers
}

/// Whether the numbers are those of characters. No early exit, so that LLVM vectorizes the loop.
#[inline(always)]
pub(crate) fn are_scalars(numbers: &[u32; LANES]) -> bool
    ensures { IsTrue result → AreScalarsBelow numbers.now 16 }
{
    let mut all = true;
    for k in 0..LANES {
        all &= is_scalar(numbers[k]);
    }
    all
}

/// Puts the characters of the numbers into a buffer, after its first `n`.
#[inline(always)]
pub fn put_characters(numbers: &[u32; LANES], buffer: &mut [Scalar], n: usize)
    requires long { length numbers.now ≡ 16 }
    requires scalars { AreScalarsBelow numbers.now 16 }
    requires room { n + 16 ≤ length buffer.old }
    ensures stand { take (n + 16) buffer.new ≡ take n buffer.old ++ numbers.now }
    ensures size { length buffer.new ≡ length buffer.old }
{
    for k in 0..LANES {
        buffer[n + k] = Scalar::known(numbers[k]);
    }
}

/// Fewer units at the end of a text are read faster one by one.
const FEW_UNITS: usize = 6;

/// Reads the units that are left of a text into a buffer after its first `n`, if they are fewer than sixteen and all of
/// them are characters by themselves, and otherwise none. It reads sixteen, with U+0000 after those of the text. If the
/// first unit is no character, it stops before that.
#[inline(always)]
fn read_last_units<U: Unit>(input: &[u8], at: usize, buffer: &mut [Scalar], n: usize) -> Converted
    requires within { at ≤ length input.now }
    requires few { length input.now < at + unit_size U.form * 16 }
    requires room { n + 16 ≤ length buffer.old }
    ensures many { result.n ≤ 16 }
    ensures read { (bytes_of : BytesOf) → HasUnits U.form bytes_of
        → IsReadForm bytes_of input.now at buffer.old n result buffer.new }
{
    let rest = &input[at..];
    let left = rest.len() / U::size();
    if left < FEW_UNITS || !is_scalar(U::number(rest, 0)) {
        return Converted { n: 0, used: 0 };
    }
    let used = U::size() * left;
    let mut sixteen = [0; 4 * LANES];
    sixteen[..used].copy_from_slice(&rest[..used]);
    let numbers = numbers_of::<U>(&sixteen);
    if !are_scalars(&numbers) {
        return Converted { n: 0, used: 0 };
    }
    put_characters(&numbers, buffer, n);
    Converted { n: left, used }
}

/// Reads sixteen units from index `at` on, or those that are left if they are fewer, into a buffer after its first `n`,
/// if all of them are characters by themselves, and otherwise none. It serves every encoding in which a character of
/// one unit has the bytes of its unit.
#[inline(always)]
pub fn read_units<U: Unit>(input: &[u8], at: usize, buffer: &mut [Scalar], n: usize) -> Converted
    requires within { at ≤ length input.now }
    requires room { n + 16 ≤ length buffer.old }
    ensures many { result.n ≤ 16 }
    ensures read { (bytes_of : BytesOf) → HasUnits U.form bytes_of
        → IsReadForm bytes_of input.now at buffer.old n result buffer.new }
{
    let used = U::size() * LANES;
    let rest = &input[at..];
    if rest.len() < used {
        return read_last_units::<U>(input, at, buffer, n);
    }
    let numbers = numbers_of::<U>(rest);
    if !are_scalars(&numbers) {
        return Converted { n: 0, used: 0 };
    }
    put_characters(&numbers, buffer, n);
    Converted { n: LANES, used }
}

/// The numbers of sixteen characters, from the `n`th on. All are read before any is written, so that LLVM vectorizes
/// the writing.
#[inline(always)]
pub(crate) fn values_of(characters: &[Scalar], n: usize) -> [u32; LANES]
    requires { n + 16 ≤ length characters.now }
    ensures values { result ≡ take 16 (drop n characters.now) }
    ensures scalars { AreScalarsBelow result 16 }
{
    let mut values = [0; LANES];
    for k in 0..LANES {
        values[k] = characters[n + k].value();
    }
    values
}

/// Whether many characters are one unit each. No early exit, so that LLVM vectorizes the loop.
#[inline(always)]
fn are_single<U: Unit>(values: &[u32; LANES]) -> bool
    ensures { IsTrue result → AreSingle U.form values.now 16 }
{
    let mut all = true;
    for k in 0..LANES {
        all &= U::fits(values[k]);
    }
    all
}

/// Writes many characters of one unit each. None is tested, so that LLVM vectorizes the loop.
#[inline(always)]
fn put_units<U: Unit>(values: &[u32; LANES], out: &mut [u8], at: usize)
    requires long { length values.now ≡ 16 }
    requires single { AreSingle U.form values.now 16 }
    requires room { at + unit_size U.form * 16 ≤ length out.old }
    ensures stand { take (at + unit_size U.form * 16) out.new
        ≡ take at out.old ++ flat_map (unit_of U.form) values.now }
    ensures size { length out.new ≡ length out.old }
{
    let mut index = at;
    for k in 0..LANES {
        U::write(out, index, values[k]);
        index += U::size();
    }
}

/// Writes sixteen characters from the `n`th on, if each is one unit, and otherwise none. It may also change the bytes
/// after them. It serves every encoding in which a character of one unit has the bytes of its unit.
#[inline(always)]
pub fn write_units<U: Unit>(characters: &[Scalar], n: usize, out: &mut [u8], at: usize) -> Converted
    requires within { n + 16 ≤ length characters.now }
    requires room { at + 64 ≤ length out.old }
    ensures many { result.n ≤ 16 }
    ensures written { (bytes_of : BytesOf) → HasUnits U.form bytes_of
        → IsWrittenForm bytes_of characters.now n out.old at result out.new }
{
    let used = U::size() * LANES;
    let values = values_of(characters, n);
    if !are_single::<U>(&values) {
        return Converted { n: 0, used: 0 };
    }
    put_units::<U>(&values, out, at);
    Converted { n: LANES, used }
}
