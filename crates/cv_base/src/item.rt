//! The next item of a text.
ghost use Rattle.std.specs.Prelude.{◌≡◌};
ghost use Rattle.cv_base.specs.Scalars.{IsScalar};

use crate::scalar::Scalar;
use crate::state::ReadState;

/// What a text begins with in a reading state.
#[derive(Clone, Copy, Debug, PartialEq, Eq)]
pub enum Item {
    /// The character `c`, which uses `n` bytes, and the state after it.
    Char {
        c: Scalar,
        n: usize,
        next: ReadState,
    },
    /// A byte order mark or a shift, which uses `n` bytes and gives no character, and the state after it.
    Shift {
        n: usize,
        next: ReadState,
    },
    /// A prefix of an item, which needs more bytes (POSIX: EINVAL).
    Incomplete,
    /// Bytes that begin no item, whatever follows (POSIX: EILSEQ).
    Ill,
    /// The text is empty.
    End,
}

/// Returns the item of one character, given the character's number.
#[inline]
pub fn character(value: u32, n: usize, next: ReadState) -> Item
    requires { IsScalar value }
    ensures { result ≡ Item.Char value n next }
{
    Item::Char {
        c: Scalar::known(value),
        n,
        next,
    }
}
