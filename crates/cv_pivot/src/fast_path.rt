//! Loops that convert from one encoding to another without a buffer of characters in between.
ghost use Rattle.std.specs.Prelude.{◌≡◌, ◌≤◌, ◌<◌, length, IfSome, MatchOption};
ghost use Rattle.cv_transcode.specs.Runs.{IsTranscoded};
ghost use Rattle.cv_pivot.specs.Encodings.{Own, form_of};
ghost use Rattle.cv_pivot.specs.Private.Steps.FastPaths.{IsReadAs, IsWrittenAs, fast_builtin};
ghost use Rattle.cv_pivot.specs.Private.Steps.FastPaths.{read_bytes, written_bytes};
ghost use Rattle.cv_utf16.specs.Utf32.{utf32};

use crate::blocks::BlockSize;
use crate::encoding::Encoding;
use crate::outcome::States;
use crate::text_starts::{few_windows_pay, may_begin_utf8, may_begin_utf16, may_begin_utf32};
use cv_base::{Endian, ReadState, WriteState};
use cv_block::{BigEndian, ByteOrder, LittleEndian};
use cv_transcode::{
    Run, begins_with_supplementary, latin1_to_utf8, may_begin_latin1, utf8_to_latin1,
    utf8_to_utf16, utf16_swapped, utf16_to_utf8, utf32_to_utf8, utf32_to_utf16,
};
use cv_utf16::Order;

/// A text of UTF-8 with so many bytes may begin with a character of four bytes.
const MANY_UTF8: usize = 128;

/// A text of UTF-16 with so many bytes may begin with a surrogate. After windows that took fewer, no others are tried
/// before the next block.
const MANY_UTF16: usize = 256;

/// In a text of UTF-8 with fewer bytes a character that ISO-8859-1 lacks is likely not the only one. Windows are not
/// tried again.
const MANY_LATIN1: usize = 256;

/// For a text of UTF-16 with so many bytes windows pay whatever follows the last.
const SOME_UTF16: usize = 128;

/// A text of UTF-32 with fewer bytes goes by blocks, and what follows windows that took fewer.
const MIN_INPUT_UTF32: usize = 512;

/// With less room few characters are written. A step of windows for them costs plain text less than a block, but text
/// with characters from U+10000 on more.
const MIN_ROOM: usize = 64;

/// An encoding whose text may be copied, or converted by a loop. A new one is an arm of each match below.
#[derive(Clone, Copy, PartialEq, Eq)]
pub(crate) enum FastForm {
    Latin1,
    Utf8,
    Utf16(Order),
    Utf32(Order),
}

impl FastForm {
    /// Returns the form of an encoding, if it has one. No other match over encodings is for speed alone.
    #[inline(always)]
    pub(crate) fn of(encoding: &Encoding) -> Option<FastForm>
        ensures { IfSome result (λ form. form_of encoding.now ≡ Own (fast_builtin form)) }
    {
        match encoding {
            Encoding::Latin1 => Some(FastForm::Latin1),
            Encoding::Utf8 => Some(FastForm::Utf8),
            Encoding::Utf16(order) => Some(FastForm::Utf16(*order)),
            Encoding::Utf32(order) => Some(FastForm::Utf32(*order)),
            Encoding::Ascii | Encoding::Utf7 | Encoding::Charmap(_) => None,
        }
    }

    /// Tells whether a text may begin with a character, by its first bytes. It affects speed only: if a fault follows a
    /// run of ASCII, a copy or a loop would read a window in vain.
    #[inline(always)]
    pub(crate) fn may_begin(self, rest: &[u8]) -> bool {
        match self {
            FastForm::Latin1 => true,
            FastForm::Utf8 => may_begin_utf8(rest, true),
            FastForm::Utf16(order) => may_begin_utf16(order, rest, true),
            FastForm::Utf32(order) => may_begin_utf32(order, rest),
        }
    }

    /// Tells whether a loop writes this form, and is likely to pay for what is left of a text of the form `from`, in so
    /// many bytes of room. If it is not, no loop is tried again for this text. It affects speed only.
    #[inline(always)]
    pub(crate) fn may_pay(self, from: FastForm, rest: &[u8], room: usize) -> bool {
        match (from, self) {
            (FastForm::Latin1 | FastForm::Utf16(_) | FastForm::Utf32(_), FastForm::Latin1) => false,
            (_, FastForm::Utf32(_)) => false,
            (FastForm::Utf8, FastForm::Latin1) => {
                room >= MIN_ROOM && (rest.len() >= MANY_LATIN1 || may_begin_latin1(rest))
            }
            (FastForm::Latin1, _) | (FastForm::Utf8, FastForm::Utf8 | FastForm::Utf16(_)) => {
                room >= MIN_ROOM
            }
            (FastForm::Utf16(order), _) => {
                room >= MIN_ROOM && (rest.len() >= SOME_UTF16 || few_windows_pay(order, rest))
            }
            (FastForm::Utf32(_), _) => rest.len() >= MIN_INPUT_UTF32 && room >= MIN_ROOM,
        }
    }

    /// Tells whether a loop from this form to another is likely to take much of a text, for which `may_pay` is true. It
    /// affects speed only. After a block of UTF-32 none is: such a text likely has many characters from U+10000 on,
    /// which go by blocks as fast.
    #[inline(always)]
    pub(crate) fn suits(self, to: FastForm, size: BlockSize, rest: &[u8]) -> bool {
        match (self, to) {
            (FastForm::Latin1, _) => true,
            (FastForm::Utf8, FastForm::Latin1) => may_begin_latin1(rest),
            (FastForm::Utf8, FastForm::Utf8 | FastForm::Utf16(_) | FastForm::Utf32(_)) => {
                may_begin_utf8(rest, rest.len() >= MANY_UTF8) && !begins_with_supplementary(rest)
            }
            (FastForm::Utf16(order), _) => may_begin_utf16(order, rest, rest.len() >= MANY_UTF16),
            (FastForm::Utf32(order), _) => size.is_short() && may_begin_utf32(order, rest),
        }
    }
}

/// The form of the characters that a loop reads.
#[derive(Clone, Copy)]
pub(crate) enum ReadForm {
    Latin1,
    Utf8,
    Utf16(Endian),
    Utf32(Endian),
}

/// The form of the characters that a loop writes.
#[derive(Clone, Copy)]
pub(crate) enum WrittenForm {
    Latin1,
    Utf8,
    Utf16(Endian),
}

impl ReadForm {
    /// Returns the form in which a loop reads an encoding, if reading does not leave this state.
    #[inline(always)]
    fn of(from: FastForm, state: ReadState) -> Option<ReadForm>
        ensures { IfSome result (λ form. IsReadAs form (Own (fast_builtin from)) state) }
    {
        match (from, state) {
            (FastForm::Latin1, ReadState::Start) => Some(ReadForm::Latin1),
            (FastForm::Utf8, ReadState::Start) => Some(ReadForm::Utf8),
            (FastForm::Utf16(order), _) => Some(ReadForm::Utf16(order.kept_reading(state)?)),
            (FastForm::Utf32(order), _) => Some(ReadForm::Utf32(order.kept_reading(state)?)),
            (FastForm::Latin1 | FastForm::Utf8, _) => None,
        }
    }
}

impl WrittenForm {
    /// Returns the form in which a loop writes an encoding, if writing does not leave this state.
    #[inline(always)]
    fn of(to: FastForm, state: WriteState) -> Option<WrittenForm>
        ensures { IfSome result (λ form. IsWrittenAs form (Own (fast_builtin to)) state) }
    {
        match (to, state) {
            (FastForm::Latin1, WriteState::Start) => Some(WrittenForm::Latin1),
            (FastForm::Utf8, WriteState::Start) => Some(WrittenForm::Utf8),
            (FastForm::Utf16(order), _) => Some(WrittenForm::Utf16(order.kept_writing(state)?)),
            (FastForm::Latin1 | FastForm::Utf8, _) => None,
            (FastForm::Utf32(_), _) => None,
        }
    }
}

/// Converts from UTF-32 in a byte order, if the loop takes any characters.
#[inline(always)]
fn from_utf32<O: ByteOrder>(to: WrittenForm, rest: &[u8], out: &mut [u8], at: usize) -> Option<Run>
    requires { at ≤ length out.old }
    ensures some { IfSome result (λ run. 0 < run.used) }
    ensures run { MatchOption result (out.new ≡ out.old) (λ run.
        IsTranscoded (utf32 O.endian) (written_bytes to) rest.now out.old at run out.new) }
{
    match to {
        WrittenForm::Latin1 => None,
        WrittenForm::Utf8 => utf32_to_utf8::<O>(rest, out, at),
        WrittenForm::Utf16(Endian::Big) => utf32_to_utf16::<O, BigEndian>(rest, out, at),
        WrittenForm::Utf16(Endian::Little) => utf32_to_utf16::<O, LittleEndian>(rest, out, at),
    }
}

/// A loop that converts without a buffer: the forms that it reads and writes. A new loop is an arm of `run`, and what
/// it reads and writes an arm of `ReadForm::of` or `WrittenForm::of`.
#[derive(Clone, Copy)]
pub(crate) struct FastPath {
    from: ReadForm,
    to: WrittenForm,
}

impl FastPath {
    /// Returns the loop from one encoding to another, if in these states each character has bytes of its own in both.
    #[inline(always)]
    pub(crate) fn choose(from: FastForm, to: FastForm, states: States) -> Option<FastPath>
        ensures { IfSome result (λ path. IsReadAs path.from (Own (fast_builtin from)) states.reading
            × IsWrittenAs path.to (Own (fast_builtin to)) states.writing) }
    {
        let from = ReadForm::of(from, states.reading)?;
        let to = WrittenForm::of(to, states.writing)?;
        Some(FastPath { from, to })
    }

    /// Returns the size of the next block after the loop took `used` bytes. It affects speed only.
    #[inline(always)]
    pub(crate) fn size_after(self, size: BlockSize, used: usize) -> BlockSize {
        match (self.from, self.to) {
            (ReadForm::Utf16(_), WrittenForm::Utf8) => {
                BlockSize::behind_windows(used, MANY_UTF16)
            }
            (ReadForm::Utf32(_), _) => BlockSize::behind_windows(used, MIN_INPUT_UTF32),
            (ReadForm::Latin1 | ReadForm::Utf8, _)
            | (ReadForm::Utf16(_), WrittenForm::Latin1 | WrittenForm::Utf16(_)) => {
                size.behind_many(used)
            }
        }
    }

    /// Converts the characters at the start of a text, if there is such a loop and it takes any. Kept out of line, so
    /// that the step that calls it stays small.
    #[inline(never)]
    pub(crate) fn run(self, rest: &[u8], out: &mut [u8], at: usize) -> Option<Run>
        requires { at ≤ length out.old }
        ensures some { IfSome result (λ run. 0 < run.used) }
        ensures run { MatchOption result (out.new ≡ out.old) (λ run.
            IsTranscoded (read_bytes self.from) (written_bytes self.to) rest.now out.old at run out.new) }
    {
        match (self.from, self.to) {
            (ReadForm::Latin1, WrittenForm::Utf8) => latin1_to_utf8(rest, out, at),
            (ReadForm::Utf8, WrittenForm::Latin1) => utf8_to_latin1(rest, out, at),
            (ReadForm::Utf8, WrittenForm::Utf16(Endian::Big)) => {
                utf8_to_utf16::<BigEndian>(rest, out, at)
            }
            (ReadForm::Utf8, WrittenForm::Utf16(Endian::Little)) => {
                utf8_to_utf16::<LittleEndian>(rest, out, at)
            }
            (ReadForm::Utf16(Endian::Big), WrittenForm::Utf8) => {
                utf16_to_utf8::<BigEndian>(rest, out, at)
            }
            (ReadForm::Utf16(Endian::Little), WrittenForm::Utf8) => {
                utf16_to_utf8::<LittleEndian>(rest, out, at)
            }
            (ReadForm::Utf16(Endian::Big), WrittenForm::Utf16(Endian::Little)) => {
                utf16_swapped::<BigEndian, LittleEndian>(rest, out, at)
            }
            (ReadForm::Utf16(Endian::Little), WrittenForm::Utf16(Endian::Big)) => {
                utf16_swapped::<LittleEndian, BigEndian>(rest, out, at)
            }
            (ReadForm::Utf32(Endian::Big), to) => from_utf32::<BigEndian>(to, rest, out, at),
            (ReadForm::Utf32(Endian::Little), to) => from_utf32::<LittleEndian>(to, rest, out, at),
            (ReadForm::Latin1, WrittenForm::Latin1 | WrittenForm::Utf16(_)) => None,
            (ReadForm::Utf8, WrittenForm::Utf8) => None,
            (ReadForm::Utf16(_), WrittenForm::Latin1 | WrittenForm::Utf16(_)) => None,
        }
    }
}
