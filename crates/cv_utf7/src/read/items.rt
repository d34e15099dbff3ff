//! The next item of a text.
ghost use Rattle.std.specs.Prelude.{◌≡◌, false, drop, ◌+◌, ◌<◌, ◌≤◌, length, get_or};
ghost use Rattle.cv_utf7.specs.Sets.{is_digit};
ghost use Rattle.cv_base.specs.Items.{IsNext};
ghost use Rattle.cv_block.specs.Surrogates.{IsSurrogate, IsHighUnit};
ghost use Rattle.cv_utf7.specs.Utf7.{utf7_reads};
ghost use Rattle.cv_utf7.specs.Private.ItemSteps.{IsUnit, NoUnit, IsEnding};

use crate::read::base64_unit::{Base64Unit, PartialUnit};
use crate::sets::{digit, may_stand};
use cv_base::{Bits, Item, ReadState, Scalar};
use cv_block::{from_surrogates, is_high, is_low, is_surrogate};

// No bits are pending.
pub(crate) const NONE: Bits = Bits { count: 0, value: 0 };

/// What is next outside a shifted sequence.
#[inline]
#[tactic(auto, using(crate::proofs::StartItems::starts))]
pub(crate) fn item_at_start(input: &[u8]) -> Item
    ensures { IsNext utf7_reads ReadState.Start input.now result }
{
    if input.is_empty() {
        return Item::End;
    }
    let a = input[0];
    if may_stand(a) {
        return Item::Char {
            c: Scalar::known(a as u32),
            n: 1,
            next: ReadState::Start,
        };
    }
    if a != b'+' {
        return Item::Ill;
    }
    if input.len() < 2 {
        return Item::Incomplete;
    }
    if input[1] == b'-' {
        return Item::Char {
            c: Scalar::known(b'+' as u32),
            n: 2,
            next: ReadState::Start,
        };
    }
    match digit(input[1]) {
        Some(_) => {
            let next = ReadState::Shifted(NONE);
            Item::Shift { n: 1, next }
        }
        None => Item::Ill,
    }
}

/// What is next in a shifted sequence.
#[inline(always)]
#[tactic(auto, using(crate::proofs::ShiftItems::shifts))]
pub(crate) fn item_in_shift(pending: Bits, input: &[u8]) -> Item
    ensures { IsNext utf7_reads (ReadState.Shifted pending) input.now result }
{
    if input.is_empty() {
        return Item::End;
    }
    match Base64Unit::next(pending, input) {
        None => {
            if digit(input[0]).is_none() {
                return item_of_end(pending, input);
            }
            item_of_few(pending, input)
        }
        Some(unit) => {
            if is_surrogate(unit.value) {
                return item_of_surrogate(pending, input, unit);
            }
            Item::Char {
                c: Scalar::known(unit.value),
                n: unit.n,
                next: ReadState::Shifted(unit.over),
            }
        }
    }
}

/// What is next if no digit is: the end of the sequence if the pending bits are zero and the byte may end it, and
/// otherwise ill-formed bytes.
#[inline(always)]
#[tactic(auto, using(crate::proofs::FewDigits::stops))]
fn item_of_end(pending: Bits, input: &[u8]) -> Item
    requires some { 0 < length input.now }
    requires none { is_digit (get_or input.now 0 0) ≡ false }
    ensures { IsNext utf7_reads (ReadState.Shifted pending) input.now result }
{
    if pending.value != 0 {
        return Item::Ill;
    }
    ending(input[0], 1)
}

/// What is next if the code unit of a surrogate is: a character if it is a high surrogate and a low one follows.
#[inline(always)]
#[tactic(auto, using(crate::proofs::ShiftItems::pairs))]
fn item_of_surrogate(pending: Bits, input: &[u8], high: Base64Unit) -> Item
    requires unit { IsUnit pending input.now high }
    requires surrogate { IsSurrogate high.value }
    ensures { IsNext utf7_reads (ReadState.Shifted pending) input.now result }
{
    if !is_high(high.value) {
        return Item::Ill;
    }
    let (_, rest) = input.split_at(high.n);
    let Some(low) = Base64Unit::next(high.over, rest) else {
        return item_of_partial(pending, input, high);
    };
    if !is_low(low.value) {
        return Item::Ill;
    }
    Item::Char {
        c: Scalar::known(from_surrogates(high.value, low.value)),
        n: high.n + low.n,
        next: ReadState::Shifted(low.over),
    }
}

/// What is next if a high surrogate is, and after it too few digits for a code unit.
#[tactic(auto, using(crate::proofs::GrownDigits::halves))]
fn item_of_partial(pending: Bits, input: &[u8], high: Base64Unit) -> Item
    requires unit { IsUnit pending input.now high }
    requires surrogate { IsHighUnit high.value }
    requires few { NoUnit high.over (drop high.n input.now) }
    ensures { IsNext utf7_reads (ReadState.Shifted pending) input.now result }
{
    let (_, rest) = input.split_at(high.n);
    let partial = PartialUnit::of(high.over, rest);
    if partial.n < rest.len() {
        return Item::Ill;
    }
    let (from, to) = partial.range();
    if from >= 0xE000 {
        return Item::Ill;
    }
    if to <= 0xDC00 {
        return Item::Ill;
    }
    Item::Incomplete
}

/// What is next if there are too few digits for a code unit: the end of the sequence, a prefix of a character, or
/// ill-formed bytes.
#[tactic(auto, using(crate::proofs::GrownDigits::fews))]
fn item_of_few(pending: Bits, input: &[u8]) -> Item
    requires few { NoUnit pending input.now }
    requires some { 0 < length input.now }
    ensures { IsNext utf7_reads (ReadState.Shifted pending) input.now result }
{
    let partial = PartialUnit::of(pending, input);
    if partial.n < input.len() {
        if partial.value != 0 {
            return Item::Ill;
        }
        return ending(input[partial.n], partial.n + 1);
    }
    let (from, to) = partial.range();
    if from < 0xDC00 {
        return Item::Incomplete;
    }
    if to > 0xE000 {
        return Item::Incomplete;
    }
    Item::Ill
}

/// The item that a byte ends after bits that are zero, or `Ill` if it ends none.
#[inline(always)]
#[tactic(auto, using(crate::proofs::FewDigits::ends))]
fn ending(last: u8, used: usize) -> Item
    ensures { IsEnding last used result }
{
    if last == b'-' {
        return Item::Shift {
            n: used,
            next: ReadState::Start,
        };
    }
    if !may_stand(last) {
        return Item::Ill;
    }
    match digit(last) {
        Some(_) => Item::Ill,
        None => Item::Char {
            c: Scalar::known(last as u32),
            n: used,
            next: ReadState::Start,
        },
    }
}
