//! Runs of direct characters that are read.
ghost use Rattle.std.specs.Prelude.{◌≡◌, ◌≤◌, ◌<◌, ◌+◌, ◌++◌, IsTrue, length, take, drop};
ghost use Rattle.cv_utf7.specs.Private.ReadSteps.{read_to, ReadsOn};

use crate::direct_bytes::direct_run;
use crate::read::digit_bytes::bytes_from;
use crate::sets::may_stand;
use cv_base::{ReadState, Scalar};
use cv_simd::SIXTEEN;
use std::simd::prelude::*;

/// Reads direct characters one by one, and returns how many it read.
#[inline(always)]
#[tactic(auto, using(crate::proofs::ReadRuns::reads_direct))]
pub(crate) fn read_direct(input: &[u8], used: usize, buffer: &mut [Scalar], n: usize) -> usize
    requires within { used ≤ length input.now }
    requires room { n ≤ length buffer.old }
    ensures { ReadsOn input.now (read_to ReadState.Start used n) buffer.old
        (read_to ReadState.Start (used + result) (n + result)) buffer.new }
{
    let most = (input.len() - used).min(buffer.len() - n);
    let mut run = 0;
    while run < most && may_stand(input[used + run]) {
        buffer[n + run] = Scalar::known(input[used + run] as u32);
        run += 1;
    }
    run
}

/// Puts sixteen bytes into the buffer as characters.
#[inline(always)]
fn put_many(bytes: u8x16, buffer: &mut [Scalar], n: usize)
    requires room { n + 16 ≤ length buffer.old }
    ensures { take (n + 16) buffer.new ≡ take n buffer.old ++ bytes }
{
    let bytes = bytes.to_array();
    for i in 0..SIXTEEN {
        buffer[n + i] = Scalar::known(bytes[i] as u32);
    }
}

/// Puts `many` bytes into the buffer as characters.
#[inline(always)]
fn put_rest(input: &[u8], at: usize, many: usize, buffer: &mut [Scalar], n: usize)
    requires within { at + many ≤ length input.now }
    requires room { n + many ≤ length buffer.old }
    ensures { take (n + many) buffer.new ≡ take n buffer.old ++ take many (drop at input.now) }
{
    for i in 0..many {
        buffer[n + i] = Scalar::known(input[at + i] as u32);
    }
}

/// Reads the direct characters of a run, at most sixteen. Returns how many it read. It may change places of the buffer
/// after theirs.
#[inline(always)]
pub(crate) fn read_run(input: &[u8], used: usize, buffer: &mut [Scalar], n: usize) -> usize
    requires many { 16 ≤ length input.now }
    requires within { used < length input.now }
    requires room { n ≤ length buffer.old }
    ensures run { ReadsOn input.now (read_to ReadState.Start used n) buffer.old
        (read_to ReadState.Start (used + result) (n + result)) buffer.new }
{
    let run = direct_run(input, used);
    if buffer.len() - n >= SIXTEEN {
        put_many(bytes_from(input, used), buffer, n);
        return run;
    }
    let rest = run.min(buffer.len() - n);
    put_rest(input, used, rest, buffer, n);
    rest
}
