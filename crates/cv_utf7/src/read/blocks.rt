//! Blocks of characters that are read.
ghost use Rattle.std.specs.Prelude.{◌≡◌, ◌≤◌, ◌<◌, ◌+◌, MatchOption, IfSome, length};
ghost use Rattle.cv_utf7.specs.Private.ReadSteps.{read_to, ReadsOn};

use crate::read::runs::{read_direct, read_run};
use crate::read::sequences::{LONE_PLACES, read_inside, read_sequence};
use crate::utf7::Utf7;
use cv_base::{Codec, Item, ReadBlock, ReadState, Scalar};
use cv_simd::SIXTEEN;

/// Reads direct characters, and the sequences between them, as far as possible.
#[inline(always)]
fn read_outside(input: &[u8], start: usize, buffer: &mut [Scalar], n: usize) -> ReadBlock
    requires within { start ≤ length input.now }
    requires room { n ≤ length buffer.old }
    ensures { ReadsOn input.now (read_to ReadState.Start start n) buffer.old result buffer.new }
{
    let mut used = start;
    let mut count = n;
    while input.len() >= SIXTEEN && used < input.len() && buffer.len() - count >= LONE_PLACES {
        if input[used] != b'+' {
            let run = read_run(input, used, buffer, count);
            if run == 0 {
                return ReadBlock {
                    n: count,
                    used,
                    next: ReadState::Start,
                };
            }
            used += run;
            count += run;
            continue;
        }
        let block = read_sequence(input, used, buffer, count);
        match block.next {
            ReadState::Start if block.used > used => {
                used = block.used;
                count = block.n;
            }
            _ => return block,
        }
    }
    let run = read_direct(input, used, buffer, count);
    ReadBlock {
        n: count + run,
        used: used + run,
        next: ReadState::Start,
    }
}

/// Continues a block by one step, outside a shifted sequence or in one.
#[inline(always)]
pub(crate) fn read_on(input: &[u8], buffer: &mut [Scalar], from: ReadBlock) -> ReadBlock
    requires within { from.used ≤ length input.now }
    requires room { from.n ≤ length buffer.old }
    ensures { ReadsOn input.now from buffer.old result buffer.new }
{
    match from.next {
        ReadState::Start => read_outside(input, from.used, buffer, from.n),
        ReadState::Shifted(pending) => read_inside(pending, input, from.used, buffer, from.n),
        ReadState::Big | ReadState::Little => from,
    }
}

/// Reads the next item, if there is one and the buffer has room for its character. Otherwise returns `None`.
#[inline(never)]
pub(crate) fn read_one(input: &[u8], buffer: &mut [Scalar], from: ReadBlock) -> Option<ReadBlock>
    requires within { from.used ≤ length input.now }
    requires room { from.n ≤ length buffer.old }
    ensures one { IfSome result
        (λ to. ReadsOn input.now from buffer.old to buffer.new × (from.used < to.used)) }
    ensures none { MatchOption result (buffer.new ≡ buffer.old)
        (λ _. length buffer.new ≡ length buffer.old) }
{
    if from.n == buffer.len() {
        return None;
    }
    match Utf7.item(from.next, &input[from.used..]) {
        Item::Char { c, n, next } => {
            buffer[from.n] = c;
            Some(ReadBlock {
                n: from.n + 1,
                used: from.used + n,
                next,
            })
        }
        Item::Shift { n, next } => Some(ReadBlock {
            n: from.n,
            used: from.used + n,
            next,
        }),
        Item::Incomplete | Item::Ill | Item::End => None,
    }
}
