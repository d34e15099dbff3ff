//! Taking a block of characters.
ghost use Rattle.std.specs.Prelude.{◌≡◌, ◌≤◌, length, IfOk, OnErr};
ghost use Rattle.cv_pivot.specs.Private.Steps.{TakesSome};

use crate::outcome::States;
use crate::pair::Pair;
use crate::step::{NOTHING, Progress};
use cv_base::{BlockCodec, Scalar};

/// How many characters a short block has at most.
const SHORT_BLOCK: usize = 64;

/// How many characters a long block has at most.
const LONG_BLOCK: usize = 256;

/// How many long blocks are taken in a row, before a run of small characters is tried again.
const MOST_BLOCKS: usize = 4;

/// How many bytes a character has at most in any encoding.
const MOST_BYTES: usize = 8;

/// How long the next block is at most. It affects speed only: a long block spreads its fixed cost over more characters,
/// but a short one costs less to clear, and a run of ASCII may follow it.
#[derive(Clone, Copy, Debug)]
pub(crate) enum BlockSize {
    /// The first block, and the next after a run of small characters or an item by itself.
    Short,
    /// The next ones after a block, while enough bytes are left.
    Long,
    /// The next ones after windows that took few bytes: windows are not tried before them.
    Alone,
}

impl BlockSize {
    /// Tells whether the next block is a short one.
    #[inline(always)]
    pub(crate) fn is_short(self) -> bool {
        matches!(self, BlockSize::Short)
    }

    /// Tells whether windows are tried before the next block.
    #[inline(always)]
    pub(crate) fn allows_windows(self) -> bool {
        !matches!(self, BlockSize::Alone)
    }

    /// Returns the size after windows that took `used` bytes. After fewer than `many`, further windows are likely to
    /// take few again, and are not tried.
    #[inline(always)]
    pub(crate) fn behind_windows(used: usize, many: usize) -> BlockSize {
        if used >= many {
            BlockSize::Short
        } else {
            BlockSize::Alone
        }
    }

    /// Returns the size after `used` bytes were taken at once. If they are many, it is likely that more can be taken at
    /// once after the next block, which then is a short one.
    #[inline(always)]
    pub(crate) fn behind_many(self, used: usize) -> BlockSize {
        if used >= LONG_BLOCK {
            BlockSize::Short
        } else {
            self
        }
    }
}

/// What is tried next besides runs of small characters. It affects speed only.
#[derive(Clone, Copy)]
pub(crate) struct Pace {
    /// How long the next block is at most.
    pub(crate) size: BlockSize,
    /// Whether a copy or a loop without a buffer may still take some of the text. Once too little of the text or of the
    /// room is left, it is not asked again.
    pub(crate) at_once: bool,
    /// How many items are taken one by one before a block is tried again: as many as the target refused at once, since
    /// one of them is likely to end the run.
    pub(crate) items: usize,
}

/// The pace at the start of a text.
pub(crate) const START: Pace = Pace {
    size: BlockSize::Short,
    at_once: true,
    items: 0,
};

/// Takes a block of at most as many characters as the buffer has, if the source reads any, and the target writes them
/// under the policy. Otherwise it returns how many characters the target refused.
#[inline(always)]
fn block<F: BlockCodec, T: BlockCodec>(
    pair: Pair<'_, F, T>,
    buffer: &mut [Scalar],
    states: &mut States,
    rest: &[u8],
    out: &mut [u8],
    at: usize,
) -> Result<Progress, usize>
    requires room { at ≤ length out.old }
    requires few { length buffer.old ≤ 256 }
    ensures ok { IfOk result (λ step. TakesSome (F.reads pair.entry.from.now) (T.writes pair.entry.to.now)
        pair.entry.policy states.old rest.now out.old at step states.new out.new) }
    ensures err { OnErr result ((states.new ≡ states.old) × (out.new ≡ out.old)) }
{
    // The target is asked how many bytes a character may have only if the room may be too small for the block.
    let room = out.len() - at;
    let mut limit = buffer.len();
    if room / MOST_BYTES < limit {
        limit = limit.min(room / pair.to.most_bytes().max(1));
    }
    let read = pair
        .from
        .read_block(states.reading, rest, &mut buffer[..limit]);
    if read.used == 0 {
        return Err(0);
    }
    let characters = &buffer[..read.n];
    let Some(written) = pair
        .to
        .write_block(pair.policy, states.writing, characters, out, at)
    else {
        return Err(read.n);
    };
    *states = States {
        reading: read.next,
        writing: written.next,
    };
    Ok(Progress {
        read: read.used,
        written: written.wrote,
        replaced: written.count,
    })
}

/// Takes up to `MOST_BLOCKS` long blocks in a row, if there is one, through one buffer, which is cleared once for all
/// of them. After one that the target refuses comes a short one.
#[inline(always)]
fn long_blocks<F: BlockCodec, T: BlockCodec>(
    pair: Pair<'_, F, T>,
    states: &mut States,
    rest: &[u8],
    out: &mut [u8],
    at: usize,
) -> Result<Progress, usize>
    requires room { at ≤ length out.old }
    ensures ok { IfOk result (λ step. TakesSome (F.reads pair.entry.from.now) (T.writes pair.entry.to.now)
        pair.entry.policy states.old rest.now out.old at step states.new out.new) }
    ensures err { OnErr result ((states.new ≡ states.old) × (out.new ≡ out.old)) }
{
    pair.from.assert_valid();
    let mut buffer = [Scalar::known(0); LONG_BLOCK];
    let mut blocks = 0;
    let mut progress = NOTHING;
    while blocks < MOST_BLOCKS && rest.len() - progress.read >= LONG_BLOCK {
        let behind = &rest[progress.read..];
        let end = at + progress.written;
        let Ok(step) = block(pair, &mut buffer, states, behind, out, end) else {
            break;
        };
        blocks += 1;
        progress = progress.then(step);
    }
    if progress.read == 0 {
        return Err(0);
    }
    Ok(progress)
}

/// Takes a block of the current size, or several, if there is one. Otherwise it returns how many characters of a short
/// block the target refused. Sets the size of the next.
#[inline(always)]
pub(crate) fn sized_block<F: BlockCodec, T: BlockCodec>(
    pair: Pair<'_, F, T>,
    size: &mut BlockSize,
    states: &mut States,
    rest: &[u8],
    out: &mut [u8],
    at: usize,
) -> Result<Progress, usize>
    requires { at ≤ length out.old }
    ensures ok { IfOk result (λ step. TakesSome (F.reads pair.entry.from.now) (T.writes pair.entry.to.now)
        pair.entry.policy states.old rest.now out.old at step states.new out.new) }
    ensures err { OnErr result ((states.new ≡ states.old) × (out.new ≡ out.old)) }
{
    let step = match *size {
        BlockSize::Long | BlockSize::Alone
            if rest.len() >= LONG_BLOCK && out.len() - at >= SHORT_BLOCK => {
            long_blocks(pair, states, rest, out, at)
        }
        _ => {
            let buffer = &mut [Scalar::known(0); SHORT_BLOCK];
            block(pair, buffer, states, rest, out, at)
        }
    };
    *size = match step {
        Ok(_) => BlockSize::Long,
        Err(_) => BlockSize::Short,
    };
    step
}
