//! Writing a character, or `?` in its place.
ghost use Rattle.std.specs.Prelude.{◌≤◌, length, Some};
ghost use Rattle.cv_base.specs.Scalars.{question};
ghost use Rattle.cv_base.specs.Chains.{substituted, written};
ghost use Rattle.cv_base.specs.Places.{Places};
ghost use Rattle.cv_base.specs.declared.policy.Policy.{Policy};

use crate::codec::Codec;
use crate::policy::Policy;
use crate::put::Put;
use crate::scalar::Scalar;
use crate::state::WriteState;

/// The result of writing a character into a slice under a policy.
#[derive(Clone, Copy, Debug, PartialEq, Eq)]
pub enum Placed {
    /// `n` bytes were written. The count is 1 if they are `?` for another character, and otherwise 0.
    Wrote {
        n: usize,
        count: usize,
        next: WriteState,
    },
    /// The slice has no room for the bytes.
    NoRoom,
    /// The target lacks the character, and the policy is strict, whatever the room.
    Lacks,
}

/// Writes a character into a slice from index `at` on. If the target lacks it, writes `?` under `Substitute`, and
/// nothing under `Strict`. All other bytes of the slice stay.
#[inline(always)]
pub fn place_character<T: Codec>(
    to: &T,
    policy: Policy,
    state: WriteState,
    c: Scalar,
    out: &mut [u8],
    at: usize,
) -> Placed
    requires { at ≤ length out.old }
    ensures { Places policy (written (T.writes to.now) state (Some c))
        out.old at result out.new }
{
    match to.put_at(state, c, out, at) {
        Put::Wrote { n, next } => Placed::Wrote { n, count: 0, next },
        Put::NoRoom => Placed::NoRoom,
        Put::Lacks => match policy {
            Policy::Substitute => put_substitute(to, state, out, at),
            Policy::Strict => Placed::Lacks,
        },
    }
}

/// Writes `?` into a slice from index `at` on.
#[cold]
#[inline(never)]
fn put_substitute<T: Codec>(to: &T, state: WriteState, out: &mut [u8], at: usize) -> Placed
    requires { at ≤ length out.old }
    ensures { Places Policy.Substitute (substituted state (T.writes to.now state question))
        out.old at result out.new }
{
    to.assert_valid();
    match to.put_at(state, Scalar::substitute(), out, at) {
        Put::Wrote { n, next } => Placed::Wrote { n, count: 1, next },
        Put::NoRoom => Placed::NoRoom,
        Put::Lacks => unreachable!(),
    }
}
