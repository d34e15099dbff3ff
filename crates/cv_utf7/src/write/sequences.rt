//! Shifted sequences that are written by blocks.
ghost use Rattle.std.specs.Prelude.{◌≡◌, ◌≤◌, ◌<◌, ◌+◌, ◌-◌, ◌*◌, length};
ghost use Rattle.cv_utf7.specs.Private.WriteSteps.{written_to, WritesOn, MayWriteOn};

use crate::utf7::Utf7;
use crate::write::groups::{begin_groups, continue_groups, is_long, may_be_group};
use crate::write::lone::write_lone;
use cv_base::{Bits, Codec, Put, Scalar, WriteState};

/// The progress of writing: how many characters were written, where their bytes end, and the state after them.
#[derive(Clone, Copy)]
pub(crate) struct WriteProgress {
    pub(crate) n: usize,
    pub(crate) end: usize,
    pub(crate) next: WriteState,
}

/// Writes the next character.
#[inline(always)]
pub(crate) fn write_one(characters: &[Scalar], from: WriteProgress, out: &mut [u8]) -> WriteProgress
    requires some { from.n < length characters.now }
    requires room { from.end + 6 ≤ length out.old }
    ensures one { WritesOn characters.now from out.old result out.new }
    ensures counts { result.n ≡ from.n + 1 }
{
    match Utf7.put_at(from.next, characters[from.n], out, from.end) {
        Put::Wrote { n, next } => WriteProgress {
            n: from.n + 1,
            end: from.end + n,
            next,
        },
        Put::NoRoom | Put::Lacks => unreachable!(),
    }
}

/// Writes characters in a shifted sequence, up to the first that ends it.
#[inline(always)]
pub(crate) fn write_inside(
    pending: Bits,
    characters: &[Scalar],
    n: usize,
    out: &mut [u8],
    at: usize,
) -> WriteProgress
    requires some { n < length characters.now }
    requires room { at + 6 * (length characters.now - n) ≤ length out.old }
    ensures more { WritesOn characters.now (written_to (WriteState.Shifted pending) n at) out.old result
        out.new }
    ensures on { n < result.n }
{
    let mut bits = pending;
    let mut count = n;
    let mut end = at;
    loop {
        let from = WriteProgress {
            n: count,
            end,
            next: WriteState::Shifted(bits),
        };
        let reached = write_one(characters, from, out);
        if reached.n == characters.len() {
            return reached;
        }
        match reached.next {
            WriteState::Shifted(over) => {
                bits = over;
                count = reached.n;
                end = reached.end;
            }
            _ => return reached,
        }
    }
}

/// Writes what can be written at once at the start of a shifted sequence, if there is such.
#[inline(always)]
fn begin_at_once(
    characters: &[Scalar],
    n: usize,
    out: &mut [u8],
    at: usize,
) -> Option<WriteProgress>
    requires some { n < length characters.now }
    requires room { at + 6 * (length characters.now - n) ≤ length out.old }
    ensures { MayWriteOn characters.now (written_to WriteState.Start n at) out.old result out.new }
{
    if characters.len() - n < 2 || !is_long(characters, n) {
        return None;
    }
    if write_lone(characters, n, out, at) {
        return Some(WriteProgress {
            n: n + 2,
            end: at + 6,
            next: WriteState::Start,
        });
    }
    if !may_be_group(characters, n) {
        return None;
    }
    begin_groups(characters, n, out, at)
}

/// Writes what can be written at once in a shifted sequence with no bits pending. It may write nothing.
#[inline(always)]
fn continue_at_once(
    pending: Bits,
    characters: &[Scalar],
    n: usize,
    out: &mut [u8],
    at: usize,
) -> WriteProgress
    requires none { pending.count ≡ 0 }
    requires some { n < length characters.now }
    requires room { at + 6 * (length characters.now - n) ≤ length out.old }
    ensures { WritesOn characters.now (written_to (WriteState.Shifted pending) n at) out.old result out.new }
{
    if may_be_group(characters, n) {
        return continue_groups(characters, n, out, at);
    }
    WriteProgress {
        n,
        end: at,
        next: WriteState::Shifted(pending),
    }
}

/// Writes a character that is not direct, and the other characters of the shifted sequence that it begins.
#[inline(always)]
pub(crate) fn write_sequence(
    characters: &[Scalar],
    n: usize,
    out: &mut [u8],
    at: usize,
) -> WriteProgress
    requires some { n < length characters.now }
    requires room { at + 6 * (length characters.now - n) ≤ length out.old }
    ensures more { WritesOn characters.now (written_to WriteState.Start n at) out.old result out.new }
    ensures on { n < result.n }
{
    if let Some(reached) = begin_at_once(characters, n, out, at) {
        return reached;
    }
    let first = write_one(
        characters,
        WriteProgress {
            n,
            end: at,
            next: WriteState::Start,
        },
        out,
    );
    if first.n == characters.len() {
        return first;
    }
    match first.next {
        WriteState::Shifted(pending) => {
            write_inside(pending, characters, first.n, out, first.end)
        }
        _ => first,
    }
}

/// Continues a shifted sequence.
#[inline(always)]
pub(crate) fn continue_sequence(
    pending: Bits,
    characters: &[Scalar],
    n: usize,
    out: &mut [u8],
    at: usize,
) -> WriteProgress
    requires some { n < length characters.now }
    requires room { at + 6 * (length characters.now - n) ≤ length out.old }
    ensures more { WritesOn characters.now (written_to (WriteState.Shifted pending) n at) out.old result
        out.new }
    ensures on { n < result.n }
{
    if pending.count != 0 {
        let from = WriteProgress {
            n,
            end: at,
            next: WriteState::Shifted(pending),
        };
        return write_one(characters, from, out);
    }
    let reached = continue_at_once(pending, characters, n, out, at);
    if reached.n > n {
        return reached;
    }
    write_inside(pending, characters, n, out, at)
}
