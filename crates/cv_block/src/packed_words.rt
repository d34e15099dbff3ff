//! Writing sixteen characters at once by words: the bytes of each character are a prefix of its word.
ghost use Rattle.std.specs.Prelude.{◌≡◌, ℕ, ◌+◌, ◌≤◌, ◌++◌, length, take};
ghost use Rattle.std.specs.Int.{to_le_bytes, w32};
ghost use Rattle.std.specs.List.{flat_map};
ghost use Rattle.cv_base.specs.Scalars.{IsScalar};
ghost use Rattle.cv_base.specs.Items.{Begins};
ghost use Rattle.cv_block.specs.StatelessForms.{BytesOf, IsWrittenForm};
ghost use Rattle.cv_block.specs.Units.{AreScalarsBelow};
ghost use Rattle.cv_block.specs.PackedWords.{AreWords, AreSizes};

use crate::stateless_form::{Converted, LANES};
use crate::unit_runs::values_of;
use cv_base::Scalar;

/// A stateless form of at most four bytes for each character, whose words are computed many at once.
pub trait PackedWords {
    ghost bytes_of: { BytesOf };

    /// Returns a word for each character: a number whose bytes, the lowest first, begin with those of the character.
    /// The others may be anything.
    fn words(values: &[u32; LANES]) -> [u32; LANES]
        requires long { length values.now ≡ 16 }
        requires scalars { AreScalarsBelow values.now 16 }
        ensures long { length result ≡ 16 }
        ensures words { AreWords bytes_of values.now result 16 };

    /// Returns how many bytes each character has.
    fn sizes(values: &[u32; LANES]) -> [u32; LANES]
        requires { length values.now ≡ 16 }
        ensures long { length result ≡ 16 }
        ensures sizes { AreSizes bytes_of values.now result 16 };
}

/// Writes words one after the other, of each as many bytes as its size, and returns how many bytes these are together.
/// It may also change the bytes after them.
#[inline(always)]
fn put_words<W: PackedWords>(
    values: &[u32; LANES],
    words: &[u32; LANES],
    sizes: &[u32; LANES],
    out: &mut [u8],
    at: usize,
) -> usize
    requires long { length values.now ≡ 16 }
    requires long_words { length words.now ≡ 16 }
    requires long_sizes { length sizes.now ≡ 16 }
    requires words { AreWords W.bytes_of values.now words.now 16 }
    requires sizes { AreSizes W.bytes_of values.now sizes.now 16 }
    requires room { at + 64 ≤ length out.old }
    ensures few { result ≤ 64 }
    ensures bytes { result ≡ length (flat_map W.bytes_of values.now) }
    ensures stand { take (at + result) out.new
        ≡ take at out.old ++ flat_map W.bytes_of values.now }
    ensures size { length out.new ≡ length out.old }
{
    let mut used = 0;
    for k in 0..LANES {
        let start = at + used;
        out[start..start + 4].copy_from_slice(&words[k].to_le_bytes());
        used += sizes[k] as usize;
    }
    used
}

/// Writes sixteen characters from the `n`th on into a slice from index `at` on. It may also change the bytes after
/// them.
#[inline(always)]
pub fn write_words<W: PackedWords>(
    characters: &[Scalar],
    n: usize,
    out: &mut [u8],
    at: usize,
) -> Converted
    requires within { n + 16 ≤ length characters.now }
    requires room { at + 64 ≤ length out.old }
    ensures many { result.n ≤ 16 }
    ensures written { IsWrittenForm W.bytes_of characters.now n out.old at result out.new }
{
    let values = values_of(characters, n);
    let words = W::words(&values);
    let sizes = W::sizes(&values);
    let used = put_words::<W>(&values, &words, &sizes, out, at);
    Converted { n: LANES, used }
}
