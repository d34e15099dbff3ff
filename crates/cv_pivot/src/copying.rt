//! Copying text that stays unchanged because both encodings are the same.
ghost use Rattle.std.specs.Prelude.{◌≡◌, ◌≤◌, ◌+◌, ◌++◌, length, take, drop, MatchOption};
ghost use Rattle.cv_base.specs.declared.policy.Policy.{Policy};
ghost use Rattle.cv_pivot.specs.Private.Steps.{TakesSome};

use crate::outcome::States;
use crate::step::Progress;
use cv_base::BlockCodec;

/// Copies the first `n` bytes to an index of the output.
#[inline(always)]
fn copy_front(rest: &[u8], n: usize, out: &mut [u8], at: usize)
    requires stand { n ≤ length rest.now }
    requires fit { at + n ≤ length out.old }
    ensures { out.new ≡ take at out.old ++ take n rest.now ++ drop (at + n) out.old }
{
    out[at..at + n].copy_from_slice(&rest[..n]);
}

/// Copies the items at the start of a text that are written unchanged, as far as there is room, if there are any. Every
/// policy allows it. Kept out of line, so that the step that calls it stays small.
#[inline(never)]
pub(crate) fn copy_unchanged<C: BlockCodec>(
    codec: &C,
    states: States,
    rest: &[u8],
    out: &mut [u8],
    at: usize,
) -> Option<Progress>
    requires { at ≤ length out.old }
    ensures { MatchOption result (out.new ≡ out.old) (λ step. (policy : Policy)
        → TakesSome (C.reads codec.now) (C.writes codec.now) policy states rest.now
        out.old at step states out.new) }
{
    let most = rest.len().min(out.len() - at);
    let n = codec.unchanged(states.reading, states.writing, &rest[..most]);
    if n == 0 {
        return None;
    }
    copy_front(rest, n, out, at);
    Some(Progress {
        read: n,
        written: n,
        replaced: 0,
    })
}
