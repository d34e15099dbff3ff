//! What every encoding offers.
ghost use Rattle.std.specs.Prelude.{◌≡◌, ◌≤◌, ℕ, List, length, IfSome};
ghost use Rattle.cv_base.specs.Items.{ItemRelation, IsNext};
ghost use Rattle.cv_base.specs.Codecs.{Writing, IsReadable, CanSubstitute, WritesAtMost};
ghost use Rattle.cv_base.specs.Ascii.{ReadsAscii, WritesAscii};
ghost use Rattle.cv_base.specs.Places.{PutsAt};
ghost use Rattle.cv_base.specs.declared.state.WriteState.{WriteState};

use crate::ascii_form::AsciiForm;
use crate::item::Item;
use crate::piece::Piece;
use crate::put::Put;
use crate::scalar::Scalar;
use crate::state::{ReadState, WriteState};

/// An encoding that can be read and written.
pub trait Codec {
    /// The item relation: which byte strings are items in a state, and what these give.
    ghost reads: { Self → ItemRelation };

    /// How each character is written: its bytes and the state after them.
    ghost writes: { Self → Writing };

    /// The bytes that close a shifted sequence at the end of a text.
    ghost closes: { Self → WriteState → List ℕ };

    /// Does nothing. Its contract states that the codec keeps what its type promises, for callers that need these laws.
    fn assert_valid(&self)
        ensures readable { IsReadable (reads self.now) }
        ensures substitutable { CanSubstitute (writes self.now) };

    /// Returns what is next in the input in this state.
    fn item(&self, state: ReadState, input: &[u8]) -> Item
        ensures { IsNext (reads self.now) state input.now result };

    /// Writes a character into a slice from index `at` on. All other bytes of the slice stay. If the slice has no room
    /// for it, or the encoding lacks it, nothing is written.
    fn put_at(&self, state: WriteState, c: Scalar, out: &mut [u8], at: usize) -> Put
        requires { at ≤ length out.old }
        ensures { PutsAt (writes self.now state c) out.old at result out.new };

    /// Returns the bytes of a character and the state after them, or `None` if the encoding lacks the character.
    fn put(&self, state: WriteState, c: Scalar) -> Option<(Piece, WriteState)>
        ensures { result ≡ writes self.now state c }
    {
        let mut buffer = [0; 8];
        // No character has more bytes than the buffer.
        let _most = self.most_bytes();
        match self.put_at(state, c, &mut buffer, 0) {
            Put::Wrote { n, next } => Some((Piece::of(&buffer[..n]), next)),
            Put::Lacks => None,
            Put::NoRoom => unreachable!(),
        }
    }

    /// Returns the bytes that close a shifted sequence at the end of a text.
    fn close(&self, state: WriteState) -> Piece
        ensures { result ≡ closes self.now state };

    /// Returns how many bytes one character has at most when it is written. It is at most 8.
    fn most_bytes(&self) -> usize
        ensures few { result ≤ 8 }
        ensures most { WritesAtMost result (writes self.now) };

    /// Returns a form if each ASCII character is read from one unit of that form in this state, and the state stays.
    /// `None` says nothing about the encoding.
    #[inline]
    fn reads_ascii(&self, _state: ReadState) -> Option<AsciiForm>
        ensures { IfSome result (λ form. ReadsAscii (reads self.now) _state form) }
    {
        None
    }

    /// Returns a form if each ASCII character is written as one unit of that form in this state, and the state stays.
    /// `None` says nothing about the encoding.
    #[inline]
    fn writes_ascii(&self, _state: WriteState) -> Option<AsciiForm>
        ensures { IfSome result (λ form. WritesAscii (writes self.now) _state form) }
    {
        None
    }
}
