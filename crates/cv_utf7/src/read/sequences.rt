//! Shifted sequences that are read by blocks.
ghost use Rattle.std.specs.Prelude.{◌≡◌, ◌≤◌, ◌<◌, ◌+◌, ◌↔◌, IsTrue, IfSome, MatchOption, length};
ghost use Rattle.cv_utf7.specs.Private.ReadSteps.{read_to, ReadsOn, AreThree, IsLone};

use crate::read::items::{item_at_start, item_in_shift};
use crate::read::sixteen_digits::{PLACES, read_sixteen};
use crate::sets::{ends_sequence, value_or_more};
use cv_base::{Bits, Item, ReadBlock, ReadState, Scalar};
use cv_block::is_surrogate;

/// How many bytes a shifted sequence of one character has with the byte that ends it.
const LONE: usize = 5;

/// How many characters a shifted sequence of one character may add to the buffer: its own, and the one that ends it.
pub(crate) const LONE_PLACES: usize = 2;

/// The number of 18 bits that three digits spell, if three are at index `at`.
#[inline(always)]
fn three_digits(input: &[u8], at: usize) -> Option<u32>
    requires { at + 3 ≤ length input.now }
    ensures { IfSome result (λ number. AreThree input.now at number) }
{
    let first = value_or_more(input[at]);
    let second = value_or_more(input[at + 1]);
    let third = value_or_more(input[at + 2]);
    // All are tested by one branch.
    if (first | second | third) >= 64 {
        return None;
    }
    Some((first * 64 + second) * 64 + third)
}

/// The character of a shifted sequence of one character, if such a sequence is at index `at` with the byte that ends
/// it.
#[inline(always)]
fn lone(input: &[u8], at: usize) -> Option<Scalar>
    requires { at + 5 ≤ length input.now }
    ensures { IfSome result (λ c. IsLone input.now at c) }
{
    // Most other sequences have a digit there.
    if input[at] != b'+' || !ends_sequence(input[at + 4]) {
        return None;
    }
    let number = three_digits(input, at + 1)?;
    let unit = number / 4;
    if number % 4 != 0 || is_surrogate(unit) {
        return None;
    }
    Some(Scalar::known(unit))
}

/// Reads a shifted sequence of one character, and the direct character that ends it if `-` does not. Returns how many
/// characters it read: none if no such sequence is next.
#[inline(always)]
#[tactic(auto, using(crate::proofs::LoneSequences::lone_reads))]
pub(crate) fn read_lone(input: &[u8], used: usize, buffer: &mut [Scalar], n: usize) -> usize
    requires within { used ≤ length input.now }
    requires room { n + 2 ≤ length buffer.old }
    ensures some { 0 < result → ReadsOn input.now (read_to ReadState.Start used n) buffer.old
        (read_to ReadState.Start (used + 5) (n + result)) buffer.new }
    ensures none { result ≡ 0 → buffer.new ≡ buffer.old }
{
    if input.len() - used < LONE {
        return 0;
    }
    let Some(c) = lone(input, used) else {
        return 0;
    };
    let last = input[used + 4];
    buffer[n] = c;
    buffer[n + 1] = Scalar::known(last as u32);
    if last == b'-' { 1 } else { 2 }
}

/// Reads the next item of a shifted sequence, if there is one.
#[inline(always)]
fn read_next(
    pending: Bits,
    input: &[u8],
    at: usize,
    buffer: &mut [Scalar],
    n: usize,
) -> Option<ReadBlock>
    requires within { at ≤ length input.now }
    requires room { n < length buffer.old }
    ensures { MatchOption result (buffer.new ≡ buffer.old)
        (λ to. ReadsOn input.now (read_to (ReadState.Shifted pending) at n) buffer.old to buffer.new
        × (at < to.used)) }
{
    match item_in_shift(pending, &input[at..]) {
        Item::Char { c, n: bytes, next } => {
            buffer[n] = c;
            Some(ReadBlock {
                n: n + 1,
                used: at + bytes,
                next,
            })
        }
        Item::Shift { n: bytes, next } => Some(ReadBlock {
            n,
            used: at + bytes,
            next,
        }),
        Item::Incomplete | Item::Ill | Item::End => None,
    }
}

/// Reads the characters of a shifted sequence, to its end. If the buffer is almost full, it stops where no bits are
/// pending.
#[inline(always)]
pub(crate) fn read_inside(
    pending: Bits,
    input: &[u8],
    used: usize,
    buffer: &mut [Scalar],
    n: usize,
) -> ReadBlock
    requires within { used ≤ length input.now }
    requires room { n ≤ length buffer.old }
    ensures { ReadsOn input.now (read_to (ReadState.Shifted pending) used n) buffer.old result
        buffer.new }
{
    let mut bits = pending;
    let mut at = used;
    let mut count = n;
    while count < buffer.len() {
        if bits.count == 0 && buffer.len() - count < PLACES {
            break;
        }
        if let Some(block) = read_sixteen(bits, input, at, buffer, count) {
            at = block.used;
            count = block.n;
            match block.next {
                ReadState::Shifted(over) => bits = over,
                _ => return block,
            }
            continue;
        }
        let Some(block) = read_next(bits, input, at, buffer, count) else {
            break;
        };
        at = block.used;
        count = block.n;
        match block.next {
            ReadState::Shifted(over) => bits = over,
            _ => return block,
        }
    }
    ReadBlock {
        n: count,
        used: at,
        next: ReadState::Shifted(bits),
    }
}

/// Reads the next shifted sequence, or `+-`. It may read nothing.
#[inline(always)]
pub(crate) fn read_sequence(input: &[u8], used: usize, buffer: &mut [Scalar], n: usize) -> ReadBlock
    requires within { used ≤ length input.now }
    requires room { n + 2 ≤ length buffer.old }
    ensures more { ReadsOn input.now (read_to ReadState.Start used n) buffer.old result buffer.new }
    ensures on { used ≤ result.used }
{
    let characters = read_lone(input, used, buffer, n);
    if characters > 0 {
        return ReadBlock {
            n: n + characters,
            used: used + LONE,
            next: ReadState::Start,
        };
    }
    match item_at_start(&input[used..]) {
        Item::Shift { n: bytes, next } => match next {
            ReadState::Shifted(pending) => { read_inside(pending, input, used + bytes, buffer, n) }
            _ => ReadBlock {
                n,
                used: used + bytes,
                next,
            },
        },
        Item::Char { c, n: bytes, next } => {
            buffer[n] = c;
            ReadBlock {
                n: n + 1,
                used: used + bytes,
                next,
            }
        }
        Item::Incomplete | Item::Ill | Item::End => ReadBlock {
            n,
            used,
            next: ReadState::Start,
        },
    }
}
