//! The byte order of a text.
ghost use Rattle.std.specs.Prelude.{IfSome};
ghost use Rattle.cv_utf16.specs.KeptStates.{KeepsReading, KeepsWriting};

use cv_base::{Endian, ReadState, WriteState};

/// The byte order of a text in UTF-16 or UTF-32.
#[derive(Clone, Copy, Debug, PartialEq, Eq)]
pub enum Order {
    /// The high byte first. U+FEFF is a character like others.
    Be,
    /// The low byte first. U+FEFF is a character like others.
    Le,
    /// The order of the mark that begins the text, and without one the high byte first. What is written begins with a
    /// big-endian mark.
    Marked,
}

impl Order {
    /// Returns the byte order in which characters are read in this state, if reading does not leave it.
    #[inline(always)]
    pub fn kept_reading(self, state: ReadState) -> Option<Endian>
        ensures { IfSome result (λ endian. KeepsReading self state endian) }
    {
        match (self, state) {
            (Order::Be, ReadState::Start) => Some(Endian::Big),
            (Order::Le, ReadState::Start) => Some(Endian::Little),
            (Order::Marked, ReadState::Big) => Some(Endian::Big),
            (Order::Marked, ReadState::Little) => Some(Endian::Little),
            (Order::Be | Order::Le, ReadState::Big | ReadState::Little) => None,
            (Order::Marked, ReadState::Start) | (_, ReadState::Shifted(_)) => None,
        }
    }

    /// Returns the byte order in which characters are written in this state, if writing does not leave it.
    #[inline(always)]
    pub fn kept_writing(self, state: WriteState) -> Option<Endian>
        ensures { IfSome result (λ endian. KeepsWriting self state endian) }
    {
        match (self, state) {
            (Order::Be, WriteState::Start) => Some(Endian::Big),
            (Order::Le, WriteState::Start) => Some(Endian::Little),
            (Order::Marked, WriteState::Marked) => Some(Endian::Big),
            (Order::Be | Order::Le, WriteState::Marked) => None,
            (Order::Marked, WriteState::Start) | (_, WriteState::Shifted(_)) => None,
        }
    }

    /// The byte order in which characters are read and written in these states, if it is the same and both states stay.
    #[inline]
    pub(crate) fn kept(self, reading: ReadState, writing: WriteState) -> Option<Endian>
        ensures { IfSome result (λ endian. KeepsReading self reading endian × KeepsWriting self writing endian) }
    {
        let endian = self.kept_reading(reading)?;
        let written = self.kept_writing(writing)?;
        if endian == written {
            Some(endian)
        } else {
            None
        }
    }
}
