//! UTF-8.
ghost use Rattle.std.specs.Prelude.{◌≡◌, ◌+◌, ◌%◌, ◌<◌, ◌≤◌, ◌↔◌, IsTrue, [], length, get_or};
ghost use Rattle.cv_base.specs.Items.{IsNext};
ghost use Rattle.cv_utf8.specs.Utf8.{utf8_reads, utf8_writes};
ghost use Rattle.cv_utf8.specs.Private.Utf8Bytes.{IsTail, IsSecond};

use cv_base::put::write_slice;
use cv_base::{AsciiForm, Codec, Item, Piece, Put, ReadState, Scalar, WriteState, character};

/// UTF-8 (Unicode Standard, section 3.9, D92): one to four bytes for each character. It has no byte order mark: an
/// initial U+FEFF is a character. Its only state is `Start`.
#[derive(Clone, Copy, Debug, PartialEq, Eq)]
pub struct Utf8;

#[inline]
fn is_tail(byte: u8) -> bool
    ensures { IsTrue result ↔ IsTail byte }
{
    byte >= 0x80 && byte <= 0xbf
}

/// Whether `second` may follow `first` in a sequence of three or four bytes (Table 3-7).
#[inline]
fn fits_second(first: u8, second: u8) -> bool
    ensures { IsTrue result ↔ IsSecond first second }
{
    match first {
        0xe0 => second >= 0xa0 && second <= 0xbf,
        0xed => second >= 0x80 && second <= 0x9f,
        0xf0 => second >= 0x90 && second <= 0xbf,
        0xf4 => second >= 0x80 && second <= 0x8f,
        _ => second >= 0x80 && second <= 0xbf,
    }
}

/// The next item, if the first byte is that of a sequence of three or four bytes.
#[inline]
#[tactic(auto, using(crate::proofs::Utf8Items::steps))]
fn long_item(input: &[u8]) -> Item
    requires some { 0 < length input.now }
    requires first { 0xe0 ≤ get_or input.now 0 0 }
    requires last { get_or input.now 0 0 ≤ 0xf4 }
    ensures { (state : ReadState) → IsNext utf8_reads state input.now result }
{
    let first = input[0];
    if input.len() < 2 {
        return Item::Incomplete;
    }
    let second = input[1];
    if !fits_second(first, second) {
        return Item::Ill;
    }
    if input.len() < 3 {
        return Item::Incomplete;
    }
    let third = input[2];
    if !is_tail(third) {
        return Item::Ill;
    }
    let tails = (second as u32 % 64) * 64 + third as u32 % 64;
    if first < 0xf0 {
        return character((first as u32 % 16) * 4096 + tails, 3, ReadState::Start);
    }
    if input.len() < 4 {
        return Item::Incomplete;
    }
    let fourth = input[3];
    if !is_tail(fourth) {
        return Item::Ill;
    }
    character(
        (first as u32 % 8) * 262144 + tails * 64 + fourth as u32 % 64,
        4,
        ReadState::Start,
    )
}

/// The continuation byte that carries the lowest six bits of a number.
#[inline]
fn tail(bits: u32) -> u8
    ensures { result ≡ 0x80 + bits % 64 }
{
    (0x80 + bits % 64) as u8
}

impl Codec for Utf8 {
    ghost reads = { λ _. utf8_reads };

    ghost writes = { λ _. utf8_writes };

    ghost closes = { λ _ _. [] };

    #[tactic(auto, using(crate::proofs::Utf8Laws::utf8_readable))]
    fn assert_valid(&self) {}

    #[inline(always)]
    #[tactic(auto, using(crate::proofs::Utf8Items::steps))]
    fn item(&self, _state: ReadState, input: &[u8]) -> Item {
        if input.is_empty() {
            return Item::End;
        }
        let first = input[0];
        if first < 0x80 {
            return character(first as u32, 1, ReadState::Start);
        }
        if first < 0xc2 || first > 0xf4 {
            return Item::Ill;
        }
        if first >= 0xe0 {
            return long_item(input);
        }
        if input.len() < 2 {
            return Item::Incomplete;
        }
        let second = input[1];
        if !is_tail(second) {
            return Item::Ill;
        }
        character(
            (first as u32 % 32) * 64 + second as u32 % 64,
            2,
            ReadState::Start,
        )
    }

    #[inline]
    fn put_at(&self, _state: WriteState, c: Scalar, out: &mut [u8], at: usize) -> Put {
        let value = c.value();
        let room = out.len() - at;
        let next = WriteState::Start;
        if value < 0x80 {
            if room < 1 {
                return Put::NoRoom;
            }
            write_slice(out, at, [value as u8]);
            return Put::Wrote { n: 1, next };
        }
        if value < 0x800 {
            if room < 2 {
                return Put::NoRoom;
            }
            write_slice(out, at, [(0xc0 + value / 64) as u8, tail(value)]);
            return Put::Wrote { n: 2, next };
        }
        if value < 0x1_0000 {
            if room < 3 {
                return Put::NoRoom;
            }
            let first = (0xe0 + value / 4096) as u8;
            write_slice(out, at, [first, tail(value / 64), tail(value)]);
            return Put::Wrote { n: 3, next };
        }
        if room < 4 {
            return Put::NoRoom;
        }
        let first = (0xf0 + value / 262144) as u8;
        let second = tail(value / 4096);
        write_slice(out, at, [first, second, tail(value / 64), tail(value)]);
        Put::Wrote { n: 4, next }
    }

    fn close(&self, _state: WriteState) -> Piece {
        Piece::new()
    }

    #[tactic(auto, using(crate::proofs::Utf8Items::writes_four))]
    fn most_bytes(&self) -> usize {
        4
    }

    #[inline]
    #[tactic(auto, using(crate::proofs::Utf8Items::reads_bytes))]
    fn reads_ascii(&self, state: ReadState) -> Option<AsciiForm> {
        match state {
            ReadState::Start => Some(AsciiForm::Byte),
            _ => None,
        }
    }

    #[inline]
    fn writes_ascii(&self, state: WriteState) -> Option<AsciiForm> {
        match state {
            WriteState::Start => Some(AsciiForm::Byte),
            _ => None,
        }
    }
}
