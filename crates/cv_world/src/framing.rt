//! Makes room for frames, and writes bytes into memory that a vector has cleared already.
ghost use Rattle.std.specs.Prelude.{◌≡◌, ◌≤◌, ◌<◌, ◌+◌, ◌++◌, OnOk, length, take, drop, vec_len, vec_capacity};

use cv_base::Memory;

/// How many bytes the frame of a reply has at most, if it is not that of a conversion: its body is a piece, of up to 8
/// bytes. In the frame of a conversion's reply as many bytes precede the output.
pub(crate) const SMALL: usize = 21;

/// Makes capacity in a vector for n bytes from offset `at` on. It grows to at least twice what it was or, if that
/// allocation fails, to just what is needed.
pub(crate) fn make_room(bytes: &mut Vec<u8>, at: usize, n: usize) -> Result<(), Memory>
    requires { at ≤ vec_len bytes.old }
    ensures ok { OnOk result (at + n ≤ vec_capacity bytes.new) }
    ensures items { bytes.new.items ≡ bytes.old.items }
    ensures len { vec_len bytes.new ≡ vec_len bytes.old }
{
    let held = bytes.len() - at;
    if held < n && bytes.reserve(n - held).is_err() {
        bytes.reserve_exact(n - held)?;
    }
    Ok(())
}

/// Lengthens a vector to n bytes from offset `at` on, and clears up to `ahead` more, for later. The bytes before `at`
/// stay. It is rare, and is not inlined into those who ask whether it is needed.
#[inline(never)]
fn lengthen(bytes: &mut Vec<u8>, at: usize, n: usize, ahead: usize) -> Result<(), Memory>
    requires there { at ≤ vec_len bytes.old }
    requires more { vec_len bytes.old < at + n }
    ensures ok { OnOk result (at + n ≤ vec_len bytes.new) }
    ensures same { take at bytes.new.items ≡ take at bytes.old.items }
    ensures len { vec_len bytes.old ≤ vec_len bytes.new }
{
    make_room(bytes, at, n)?;
    let end = at + n;
    let ahead = ahead.min(bytes.capacity() - end);
    // The vector has this capacity, so nothing is allocated.
    let _ = bytes.resize(end + ahead, 0);
    Ok(())
}

/// Makes a vector so long that it has n bytes from offset `at` on. If bytes have to be cleared for that, up to `ahead`
/// more are cleared, for later. The bytes before `at` stay.
pub(crate) fn make_long(
    bytes: &mut Vec<u8>,
    at: usize,
    n: usize,
    ahead: usize,
) -> Result<(), Memory>
    requires { at ≤ vec_len bytes.old }
    ensures ok { OnOk result (at + n ≤ vec_len bytes.new) }
    ensures same { take at bytes.new.items ≡ take at bytes.old.items }
    ensures len { vec_len bytes.old ≤ vec_len bytes.new }
{
    if n <= bytes.len() - at {
        return Ok(());
    }
    lengthen(bytes, at, n, ahead)
}

/// Writes bytes from offset `at` on.
pub(crate) fn put(out: &mut Vec<u8>, at: usize, bytes: &[u8])
    requires { at + length bytes.now ≤ vec_len out.old }
    ensures written { take (at + length bytes.now) out.new.items ≡ take at out.old.items ++ bytes.now }
    ensures rest { drop (at + length bytes.now) out.new.items ≡ drop (at + length bytes.now) out.old.items }
    ensures len { vec_len out.new ≡ vec_len out.old }
{
    out[at..at + bytes.len()].copy_from_slice(bytes);
}
