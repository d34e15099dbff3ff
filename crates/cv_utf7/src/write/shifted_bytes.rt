//! The bytes of shifted sequences: digits, and what closes them.
ghost use Rattle.std.specs.Prelude.{◌≡◌, ◌⊎◌, [], ◌∷◌, ◌++◌, ◌+◌, ◌*◌, ◌<◌, ◌≤◌, length, take, drop, Some};
ghost use Rattle.cv_base.specs.Places.{PutsAt};
ghost use Rattle.cv_base.specs.declared.state.WriteState.{WriteState};
ghost use Rattle.cv_utf7.specs.Sets.{digit_of};
ghost use Rattle.cv_utf7.specs.BitLists.{bits, bits_of, character_bits, digits};
ghost use Rattle.cv_utf7.specs.Utf7.{plus, last_digit, written_bits, utf7_closes};

use crate::read::items::NONE;
use crate::sets::digit_for;
use crate::write::base64_digits::Base64Digits;
use cv_base::put::write_slice;
use cv_base::{Bits, Piece, Put, Scalar, WriteState};

/// What closes a shifted sequence.
#[inline(always)]
#[tactic(auto, using(crate::proofs::Cuts::closings))]
pub(crate) fn closing(pending: Bits) -> Piece
    ensures { result ≡ utf7_closes (WriteState.Shifted pending) }
{
    if pending.count == 0 {
        return Piece::one(b'-');
    }
    Piece::two(closing_digit(pending), b'-')
}

/// The digit of pending bits, which are filled up with zero bits.
#[inline(always)]
#[tactic(auto, using(crate::proofs::Cuts::closing_digits))]
fn closing_digit(pending: Bits) -> u8
    requires { 0 < pending.count }
    ensures { last_digit (bits_of pending) ≡ result ∷ [] }
{
    if pending.count == 2 {
        return digit_for(pending.value as u32 * 16);
    }
    digit_for(pending.value as u32 * 4)
}

/// Writes the digits of a character.
#[inline(always)]
#[tactic(auto, using(crate::proofs::Cuts::spelled))]
fn put_digits(cut: Base64Digits, out: &mut [u8], at: usize) -> Put
    requires within { at ≤ length out.old }
    requires count { (cut.n ≡ 2) ⊎ (cut.n ≡ 3) ⊎ (cut.n ≡ 5) ⊎ (cut.n ≡ 6) }
    ensures { PutsAt (Some (digits (bits (6 * cut.n) cut.value), WriteState.Shifted cut.next))
        out.old at result out.new }
{
    if out.len() - at < cut.n {
        return Put::NoRoom;
    }
    let wrote = Put::Wrote {
        n: cut.n,
        next: WriteState::Shifted(cut.next),
    };
    if cut.n == 2 {
        write_slice(out, at, [cut.digit(1), cut.digit(0)]);
        return wrote;
    }
    if cut.n == 3 {
        write_slice(out, at, [cut.digit(2), cut.digit(1), cut.digit(0)]);
        return wrote;
    }
    let [b, c, d, e, f] = cut.last_five();
    if cut.n == 5 {
        write_slice(out, at, [b, c, d, e, f]);
        return wrote;
    }
    write_slice(out, at, [cut.digit(5), b, c, d, e, f]);
    wrote
}

/// Writes the digits of a code unit. Each count of pending bits has a branch of its own, in which the count of digits
/// is known.
#[inline(always)]
fn put_unit(pending: Bits, unit: u32, out: &mut [u8], at: usize) -> Put
    requires within { at ≤ length out.old }
    requires unit { unit < 0x10000 }
    ensures { PutsAt (Some (written_bits (bits_of pending ++ character_bits unit)))
        out.old at result out.new }
{
    match pending.count {
        // `NONE` is the same as `pending` here, and the compiler knows that it adds nothing.
        0 => put_digits(Base64Digits::of_unit(NONE, unit, 2, 4), out, at),
        2 => put_digits(Base64Digits::of_unit(pending, unit, 3, 0), out, at),
        _ => put_digits(Base64Digits::of_unit(pending, unit, 3, 2), out, at),
    }
}

/// Writes the digits of a character in a shifted sequence.
#[inline(always)]
pub(crate) fn put_shifted(pending: Bits, c: Scalar, out: &mut [u8], at: usize) -> Put
    requires { at ≤ length out.old }
    ensures { PutsAt (Some (written_bits (bits_of pending ++ character_bits c)))
        out.old at result out.new }
{
    let value = c.value();
    if value < 0x1_0000 {
        return put_unit(pending, value, out, at);
    }
    put_digits(Base64Digits::of_pair(pending, value), out, at)
}

/// Writes `+` and the digits of the first character of a shifted sequence.
#[inline(always)]
#[tactic(auto, using(crate::proofs::Cuts::spelled))]
pub(crate) fn put_first(cut: Base64Digits, out: &mut [u8], at: usize) -> Put
    requires within { at ≤ length out.old }
    requires count { (cut.n ≡ 2) ⊎ (cut.n ≡ 5) }
    ensures { PutsAt
        (Some (plus ∷ digits (bits (6 * cut.n) cut.value), WriteState.Shifted cut.next))
        out.old at result out.new }
{
    let n = cut.n + 1;
    if out.len() - at < n {
        return Put::NoRoom;
    }
    let wrote = Put::Wrote {
        n,
        next: WriteState::Shifted(cut.next),
    };
    if cut.n == 2 {
        write_slice(out, at, [b'+', cut.digit(1), cut.digit(0)]);
        return wrote;
    }
    let [b, c, d, e, f] = cut.last_five();
    write_slice(out, at, [b'+', b, c, d, e, f]);
    wrote
}

/// Writes a direct character after what closes the shifted sequence.
#[inline(always)]
#[tactic(auto, using(crate::proofs::Cuts::closings))]
pub(crate) fn put_closed(pending: Bits, byte: u8, out: &mut [u8], at: usize) -> Put
    requires { at ≤ length out.old }
    ensures { PutsAt
        (Some (utf7_closes (WriteState.Shifted pending) ++ byte ∷ [], WriteState.Start))
        out.old at result out.new }
{
    let room = out.len() - at;
    let next = WriteState::Start;
    if pending.count == 0 {
        if room < 2 {
            return Put::NoRoom;
        }
        write_slice(out, at, [b'-', byte]);
        return Put::Wrote { n: 2, next };
    }
    let digit = closing_digit(pending);
    if room < 3 {
        return Put::NoRoom;
    }
    write_slice(out, at, [digit, b'-', byte]);
    Put::Wrote { n: 3, next }
}
