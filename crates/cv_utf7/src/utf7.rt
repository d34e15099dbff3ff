//! UTF-7.
ghost use Rattle.std.specs.Prelude.{◌≡◌, ◌≤◌, length, Some};
ghost use Rattle.cv_base.specs.Places.{PutsAt};
ghost use Rattle.cv_utf7.specs.Utf7.{utf7_reads, utf7_writes, utf7_closes, writes_at_start};

use crate::read::items::{item_at_start, item_in_shift};
use crate::sets::stands;
use crate::write::base64_digits::Base64Digits;
use crate::write::shifted_bytes::{closing, put_closed, put_first, put_shifted};
use cv_base::put::write_slice;
use cv_base::{Codec, Item, Piece, Put, ReadState, Scalar, WriteState};

/// UTF-7 (RFC 2152). It reads the optional direct characters (set O) as themselves, and writes them in shifted
/// sequences.
#[derive(Clone, Copy, Debug, PartialEq, Eq)]
pub struct Utf7;

/// Writes a character outside a shifted sequence.
#[inline(always)]
#[tactic(auto, using(crate::proofs::Writes::starts))]
fn put_at_start(c: Scalar, out: &mut [u8], at: usize) -> Put
    requires { at ≤ length out.old }
    ensures { PutsAt (Some (writes_at_start c)) out.old at result out.new }
{
    let value = c.value();
    let room = out.len() - at;
    let next = WriteState::Start;
    if stands(value) {
        if room < 1 {
            return Put::NoRoom;
        }
        write_slice(out, at, [value as u8]);
        return Put::Wrote { n: 1, next };
    }
    if value == b'+' as u32 {
        if room < 2 {
            return Put::NoRoom;
        }
        write_slice(out, at, [b'+', b'-']);
        return Put::Wrote { n: 2, next };
    }
    put_first(Base64Digits::first(c), out, at)
}

impl Codec for Utf7 {
    ghost reads = { λ _. utf7_reads };

    ghost writes = { λ _. utf7_writes };

    ghost closes = { λ _. utf7_closes };

    #[tactic(auto, using(crate::proofs::OneItem::utf7_readable, crate::proofs::OneItem::utf7_substitutable))]
    fn assert_valid(&self) {}

    #[inline]
    #[tactic(auto, using(crate::proofs::StartItems::states))]
    fn item(&self, state: ReadState, input: &[u8]) -> Item {
        match state {
            ReadState::Shifted(pending) => item_in_shift(pending, input),
            ReadState::Start => item_at_start(input),
            ReadState::Big => item_at_start(input),
            ReadState::Little => item_at_start(input),
        }
    }

    #[inline(always)]
    #[tactic(auto, using(crate::proofs::Writes::writes))]
    fn put_at(&self, state: WriteState, c: Scalar, out: &mut [u8], at: usize) -> Put {
        let value = c.value();
        let WriteState::Shifted(pending) = state else {
            return put_at_start(c, out, at);
        };
        if stands(value) {
            return put_closed(pending, value as u8, out, at);
        }
        put_shifted(pending, c, out, at)
    }

    fn close(&self, state: WriteState) -> Piece {
        match state {
            WriteState::Shifted(pending) => closing(pending),
            WriteState::Start => Piece::new(),
            WriteState::Marked => Piece::new(),
        }
    }

    #[tactic(auto, using(crate::proofs::Writes::most))]
    fn most_bytes(&self) -> usize {
        6
    }
}
