//! A byte string and its character.
ghost use Rattle.std.specs.Prelude.{◌≡◌, ◌≤◌, length, take};

use cv_base::Scalar;
use std::marker::Model;

/// At most eight bytes, and the character that they encode. Contracts see the pair of them.
#[derive(Debug, Drop)]
pub struct Entry {
    bytes: [u8; 8],
    len: u8,
    character: Scalar,
}

impl Model for Entry {
    ghost use Rattle.std.specs.Prelude.{ℕ, List, ◌≡◌, ◌≤◌, take, length};

    ghost Value = { List ℕ × ℕ };

    ghost view = { λ e. (take e.len e.bytes, e.character) };

    ghost invariant = { λ e. record { few : e.len ≤ 8; padded : length e.bytes ≡ 8 } };
}

/// Pads bytes with zeros. Up to four are moved by registers: a copy whose size is not known at compile time is a call.
#[inline(always)]
fn padded(bytes: &[u8]) -> [u8; 8]
    requires { length bytes.now ≤ 8 }
    ensures bytes { take (length bytes.now) result ≡ bytes.now }
    ensures size { length result ≡ 8 }
{
    match bytes {
        [a] => [*a, 0, 0, 0, 0, 0, 0, 0],
        [a, b] => [*a, *b, 0, 0, 0, 0, 0, 0],
        [a, b, c] => [*a, *b, *c, 0, 0, 0, 0, 0],
        [a, b, c, d] => [*a, *b, *c, *d, 0, 0, 0, 0],
        _ => {
            let mut padded = [0u8; 8];
            padded[..bytes.len()].copy_from_slice(bytes);
            padded
        }
    }
}

impl Entry {
    /// Makes an entry of bytes and their character.
    pub(crate) fn new(bytes: &[u8], character: Scalar) -> Entry
        requires { length bytes.now ≤ 8 }
        ensures { result ≡ (bytes.now, character) }
    {
        Entry {
            bytes: padded(bytes),
            len: bytes.len() as u8,
            character,
        }
    }

    /// Returns its bytes, without the padding.
    #[inline]
    pub fn bytes(&self) -> &[u8]
        ensures value { result.now ≡ self.now.0 }
        ensures few { length result.now ≤ 8 }
    {
        &self.bytes[..self.len as usize]
    }

    /// Returns its bytes with the padding after them.
    #[inline]
    pub fn padded(&self) -> &[u8; 8]
        ensures bytes { take (length self.now.0) result.now ≡ self.now.0 }
        ensures few { length self.now.0 ≤ 8 }
        ensures size { length result.now ≡ 8 }
    {
        &self.bytes
    }

    /// Returns how many bytes it has, without the padding.
    #[inline]
    pub fn len(&self) -> usize
        ensures { result ≡ length self.now.0 }
    {
        self.len as usize
    }

    /// Returns its character.
    #[inline]
    pub fn character(&self) -> Scalar
        ensures { result ≡ self.now.1 }
    {
        self.character
    }
}
