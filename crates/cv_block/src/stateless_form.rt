//! Stateless forms: encodings, or states of them, in which the bytes of a character do not depend on its context.
ghost use Rattle.std.specs.Prelude.{◌≡◌, ◌≤◌, ◌+◌, ◌++◌, ℕ, length, take, IfSome};
ghost use Rattle.cv_block.specs.StatelessForms.{BytesOf, HasFourAtMost, IsFormAt, IsReadForm, IsWrittenForm};

use cv_base::Scalar;

/// How many characters a form reads or writes at once.
pub const LANES: usize = 16;

/// Characters that were read or written.
#[derive(Clone, Copy, Debug, PartialEq, Eq)]
pub struct Converted {
    /// How many characters.
    pub n: usize,
    /// How many bytes these characters have.
    pub used: usize,
}

/// A stateless form of all characters. Its type is known at compile time, so that each has loops of its own.
pub trait StatelessForm {
    ghost bytes_of: { BytesOf };

    ghost ZERO_SIZE: { ℕ };

    /// How many bytes U+0000 has.
    const ZERO_SIZE: usize;

    /// Does nothing. Its contract states how many bytes a character has at most, and U+0000, for callers that need it.
    fn assert_short()
        ensures short { HasFourAtMost bytes_of }
        ensures zero { ZERO_SIZE ≡ length (bytes_of 0) };

    /// The size in bytes of a character after which many may be read at once again, or 0 if none is such. It affects
    /// speed only.
    const RESUME_SIZE: usize;

    /// From how many characters on the last of a block are written faster at once, with U+0000 after them, than one by
    /// one. `LANES`: never. It affects speed only.
    const MIN_AT_ONCE: usize;

    /// Returns the character whose bytes begin at index `at`, and their number. `None` says nothing about the text.
    fn read_at(input: &[u8], at: usize) -> Option<(Scalar, usize)>
        requires { at ≤ length input.now }
        ensures { IfSome result (λ read. IsFormAt bytes_of input.now at read.0 read.1) };

    /// Reads up to 16 characters at once, from index `at` on, into a buffer after its first `n`. It may read none.
    fn read_many(input: &[u8], at: usize, buffer: &mut [Scalar], n: usize) -> Converted
        requires within { at ≤ length input.now }
        requires room { n + 16 ≤ length buffer.old }
        ensures many { result.n ≤ 16 }
        ensures read { IsReadForm bytes_of input.now at buffer.old n result buffer.new };

    /// Writes a character from index `at` on, and returns how many bytes it has. It may also change the bytes after
    /// them.
    fn write_at(c: Scalar, out: &mut [u8], at: usize) -> usize
        requires { at + 4 ≤ length out.old }
        ensures bytes { result ≡ length (bytes_of c) }
        ensures stand { take (at + result) out.new ≡ take at out.old ++ bytes_of c }
        ensures size { length out.new ≡ length out.old };

    /// Writes up to 16 characters at once, from the `n`th on. It may write none. It may also change the bytes after
    /// them.
    fn write_many(characters: &[Scalar], n: usize, out: &mut [u8], at: usize) -> Converted
        requires within { n + 16 ≤ length characters.now }
        requires room { at + 64 ≤ length out.old }
        ensures many { result.n ≤ 16 }
        ensures written { IsWrittenForm bytes_of characters.now n out.old at result out.new };
}
