//! Reading a stateless form by blocks.
ghost use Rattle.std.specs.Prelude.{◌≡◌, ◌≤◌, ◌+◌, length};
ghost use Rattle.cv_block.specs.StatelessForms.{IsReadForm, IsFormRead};

use crate::stateless_form::{Converted, LANES, StatelessForm};
use cv_base::{ReadBlock, ReadState, Scalar};

/// Reads up to `most` characters one by one into a buffer, after its first `n`. It stops after a character of `last`
/// bytes.
#[inline(always)]
fn read_few<S: StatelessForm>(
    input: &[u8],
    at: usize,
    buffer: &mut [Scalar],
    n: usize,
    most: usize,
    last: usize,
) -> Converted
    requires within { at ≤ length input.now }
    requires room { n + most ≤ length buffer.old }
    ensures { IsReadForm S.bytes_of input.now at buffer.old n result buffer.new }
{
    let mut more = 0;
    let mut used = 0;
    while more < most {
        let Some((c, size)) = S::read_at(input, at + used) else {
            break;
        };
        buffer[n + more] = c;
        more += 1;
        used += size;
        if size == last {
            break;
        }
    }
    Converted { n: more, used }
}

/// Reads some characters into a buffer, after its first `n`: many at once, or else one by one, up to a character of
/// `RESUME_SIZE` bytes, after which many may follow. If there is no room for many, it reads one by one until the buffer
/// is full: no character has 0 bytes.
#[inline(always)]
fn read_some<S: StatelessForm>(
    input: &[u8],
    at: usize,
    buffer: &mut [Scalar],
    n: usize,
) -> Converted
    requires within { at ≤ length input.now }
    requires room { n ≤ length buffer.old }
    ensures { IsReadForm S.bytes_of input.now at buffer.old n result buffer.new }
{
    let room = buffer.len() - n;
    if room < LANES {
        return read_few::<S>(input, at, buffer, n, room, 0);
    }
    let many = S::read_many(input, at, buffer, n);
    if many.n > 0 {
        return many;
    }
    read_few::<S>(input, at, buffer, n, LANES, S::RESUME_SIZE)
}

/// Reads the characters at the start of a text into the start of a buffer. After the first ones it stops if there is no
/// room for many: the next buffer takes the rest, many at once.
#[inline(never)]
fn read_prefix<S: StatelessForm>(input: &[u8], buffer: &mut [Scalar]) -> Converted
    ensures { IsReadForm S.bytes_of input.now 0 buffer.old 0 result buffer.new }
{
    let mut n = 0;
    let mut used = 0;
    while n == 0 || buffer.len() - n >= LANES {
        let some = read_some::<S>(input, used, buffer, n);
        if some.n == 0 {
            break;
        }
        n += some.n;
        used += some.used;
    }
    Converted { n, used }
}

/// Reads characters in a form from the start of a text into the start of a buffer. The state stays. It may read fewer
/// than possible, even none.
#[inline(always)]
pub fn read_stateless<S: StatelessForm>(
    state: ReadState,
    input: &[u8],
    buffer: &mut [Scalar],
) -> ReadBlock
    ensures block { IsFormRead S.bytes_of state input.now buffer.old result buffer.new }
    ensures size { length buffer.new ≡ length buffer.old }
{
    let read = read_prefix::<S>(input, buffer);
    ReadBlock {
        n: read.n,
        used: read.used,
        next: state,
    }
}
