//! Blocks of the encodings in which each character is the byte with its value.
ghost use Rattle.std.specs.Prelude.{◌≡◌, ◌≤◌, ◌<◌, ◌+◌, [], ◌∷◌, ℕ, length, slice_index, Some, IsTrue};
ghost use Rattle.cv_base.specs.Scalars.{question};
ghost use Rattle.cv_base.specs.Chains.{output, written};
ghost use Rattle.cv_base.specs.Blocks.{IsWrittenBlock, MayWriteBlock};
ghost use Rattle.cv_base.specs.SingleBytes.{byte_writes};
ghost use Rattle.cv_base.specs.declared.policy.Policy.{Policy};
ghost use Rattle.cv_base.specs.declared.state.WriteState.{WriteState};

use crate::block::WrittenBlock;
use crate::policy::Policy;
use crate::scalar::Scalar;
use crate::state::WriteState;
use crate::substituting::{LANES, write_blocks};

/// How many of the first `most` bytes of a text are below a limit, up to the first that is not. A text that is all
/// US-ASCII is tested in one pass.
#[inline(always)]
pub(crate) fn below(limit: u32, input: &[u8], most: usize) -> usize
    requires { most ≤ length input.now }
    ensures within { result ≤ most }
    ensures below { (k : ℕ) → k < result → slice_index input.now k < limit }
{
    if limit >= 128 && input[..most].is_ascii() {
        return most;
    }
    let mut n = 0;
    while n < most && (input[n] as u32) < limit {
        n += 1;
    }
    n
}

/// The byte of a character and 0 if it is below a limit, and otherwise `?` and 1.
#[inline(always)]
fn byte_of(limit: u32, c: Scalar) -> (u8, u32)
    requires from { question < limit }
    requires to { limit ≤ 256 }
    ensures few { result.1 ≤ 1 }
    ensures is { written (byte_writes limit) WriteState.Start (Some c)
        ≡ output (result.0 ∷ []) result.1 WriteState.Start }
{
    let value = c.value();
    if value < limit {
        (value as u8, 0)
    } else {
        (b'?', 1)
    }
}

/// Whether all characters are below a limit, which is a power of two. It tests the bitwise OR of their numbers, so that
/// LLVM vectorizes the loop.
#[inline(always)]
fn are_below(limit: u32, characters: &[Scalar]) -> bool
    ensures { IsTrue result → (k : ℕ) → k < length characters.now
        → slice_index characters.now k < limit }
{
    let mut any_bits = 0;
    for k in 0..characters.len() {
        any_bits |= characters[k].value();
    }
    any_bits < limit
}

/// Writes characters if all are below a limit. They are tested beforehand, so that LLVM vectorizes the loop.
#[inline(always)]
fn narrow(limit: u32, characters: &[Scalar], out: &mut [u8], at: usize) -> Option<WrittenBlock>
    requires room { at + length characters.now ≤ length out.old }
    requires to { limit ≤ 256 }
    ensures { MayWriteBlock Policy.Strict (byte_writes limit) WriteState.Start characters.now
        out.old at result out.new }
{
    if !are_below(limit, characters) {
        return None;
    }
    for k in 0..characters.len() {
        out[at + k] = characters[k].value() as u8;
    }
    Some(WrittenBlock {
        wrote: characters.len(),
        count: 0,
        next: WriteState::Start,
    })
}

/// Writes characters below a limit, and `?` for others. All other bytes of the slice stay. It writes blocks of sixteen,
/// and the rest one by one.
#[inline(always)]
fn narrow_or_substitute(
    limit: u32,
    characters: &[Scalar],
    out: &mut [u8],
    at: usize,
) -> WrittenBlock
    requires few { length characters.now ≤ 256 }
    requires room { at + length characters.now ≤ length out.old }
    requires from { question < limit }
    requires to { limit ≤ 256 }
    ensures { IsWrittenBlock (byte_writes limit) WriteState.Start characters.now
        out.old at result out.new }
{
    let blocks = characters.len() / LANES;
    let mut count = write_blocks(limit, characters, blocks, out, at);
    for k in LANES * blocks..characters.len() {
        let (byte, lacking) = byte_of(limit, characters[k]);
        out[at + k] = byte;
        count += lacking;
    }
    WrittenBlock {
        wrote: characters.len(),
        count: count as usize,
        next: WriteState::Start,
    }
}

/// Writes characters below a limit as one byte each. If others are among them, it writes `?` for each under
/// `Substitute`. Under `Strict` it then writes nothing and returns `None`, as it does if the slice has too little room.
/// All other bytes of the slice stay.
#[inline(always)]
pub(crate) fn write_bytes(
    limit: u32,
    policy: Policy,
    characters: &[Scalar],
    out: &mut [u8],
    at: usize,
) -> Option<WrittenBlock>
    requires few { length characters.now ≤ 256 }
    requires room { at ≤ length out.old }
    requires from { question < limit }
    requires to { limit ≤ 256 }
    ensures { MayWriteBlock policy (byte_writes limit) WriteState.Start characters.now
        out.old at result out.new }
{
    if out.len() - at < characters.len() {
        return None;
    }
    match policy {
        Policy::Substitute => Some(narrow_or_substitute(limit, characters, out, at)),
        Policy::Strict => narrow(limit, characters, out, at),
    }
}
