//! Reading and writing many characters in one call, for speed.
ghost use Rattle.std.specs.Prelude.{◌≡◌, ◌≤◌, length, IfSome};
ghost use Rattle.cv_base.specs.Ascii.{ReadsBelow, WritesBelow};
ghost use Rattle.cv_base.specs.Blocks.{IsReadBlock, IsUnchanged, IsWrittenRun, MayWriteBlock};

use crate::ascii_form::AsciiForm;
use crate::block::{ReadBlock, WrittenBlock};
use crate::codec::Codec;
use crate::policy::Policy;
use crate::scalar::Scalar;
use crate::state::{ReadState, WriteState};

/// An encoding that reads and writes by blocks: several characters in one call.
pub trait BlockCodec: Codec {
    /// Reads characters from the start of a text into the start of a buffer. It may read fewer than possible, even
    /// none: then `item` reads the next one.
    fn read_block(&self, state: ReadState, input: &[u8], buffer: &mut [Scalar]) -> ReadBlock
        ensures block { IsReadBlock (Self.reads self.now) state input.now result buffer.new }
        ensures size { length buffer.new ≡ length buffer.old };

    /// Writes these characters, at most 256, into a slice from index `at` on. For a character that the encoding lacks
    /// it writes `?`, if the policy allows it. All other bytes of the slice stay. If the policy does not allow it, or
    /// the slice has too little room, it writes nothing and returns `None`. It may do so in other cases too: then the
    /// caller writes the characters one by one.
    fn write_block(
        &self,
        policy: Policy,
        state: WriteState,
        characters: &[Scalar],
        out: &mut [u8],
        at: usize,
    ) -> Option<WrittenBlock>
        requires few { length characters.now ≤ 256 }
        requires room { at ≤ length out.old }
        ensures { MayWriteBlock policy (Self.writes self.now) state characters.now
            out.old at result out.new };

    /// Returns how many bytes at the start of a text stay unchanged if the text is converted from this encoding to
    /// itself. It may return fewer than possible: the caller converts the rest by blocks, or one by one.
    #[inline]
    #[tactic(auto, using(crate::proofs::UnchangedLaws::none_unchanged))]
    fn unchanged(&self, _reading: ReadState, _writing: WriteState, _input: &[u8]) -> usize
        ensures { IsUnchanged (Self.reads self.now) (Self.writes self.now) _reading _writing
            _input.now result }
    {
        0
    }

    /// Writes the ASCII characters at the start of a text, whose units have this form, into a slice from index `at` on,
    /// each as one byte, and returns their number. It stops at the end of the slice, and before a character that this
    /// encoding does not write as that byte in this state, or that changes the state. It may write fewer than possible:
    /// the caller converts the rest by blocks, or one by one. All other bytes of the slice stay.
    #[inline]
    fn write_ascii_run(
        &self,
        _state: WriteState,
        _form: AsciiForm,
        _text: &[u8],
        _out: &mut [u8],
        _at: usize,
    ) -> usize
        requires { _at ≤ length _out.old }
        ensures { IsWrittenRun (Self.writes self.now) _state _form _text.now
            _out.old _at result _out.new }
    {
        0
    }

    /// Returns a form if each character below 256 is read from one unit of that form in this state, and the state
    /// stays. `None` says nothing about the encoding.
    #[inline]
    fn reads_latin(&self, _state: ReadState) -> Option<AsciiForm>
        ensures { IfSome result (λ form. ReadsBelow 256 (Self.reads self.now) _state form) }
    {
        None
    }

    /// Returns a form if each character below 256 is written as one unit of that form in this state, and the state
    /// stays. `None` says nothing about the encoding.
    #[inline]
    fn writes_latin(&self, _state: WriteState) -> Option<AsciiForm>
        ensures { IfSome result (λ form. WritesBelow 256 (Self.writes self.now) _state form) }
    {
        None
    }
}
