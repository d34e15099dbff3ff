//! UTF-16 and UTF-32 in their byte orders: which order a state has, and the mark at the start of a text.
ghost use Rattle.std.specs.Prelude.{◌≡◌, ◌≤◌, ◌↔◌, ◌++◌, IsTrue, length, Some};
ghost use Rattle.cv_base.specs.Codecs.{WritesAtMost};
ghost use Rattle.cv_base.specs.Items.{Begins, IsNext};
ghost use Rattle.cv_base.specs.Places.{PutsAt};
ghost use Rattle.cv_base.specs.declared.endian.Endian.TheVariants.{Big};
ghost use Rattle.cv_utf16.specs.Orders.{reads_in, writes_in, mark};
ghost use Rattle.cv_utf16.specs.Private.AnyState.{always_first};

use crate::order::Order;
use crate::wide_form::WideForm;
use cv_base::{Endian, Item, Put, ReadState, Scalar, WriteState};
use cv_block::{BigEndian, ByteOrder, LittleEndian};

/// Whether the first bytes are a prefix of the others.
#[inline]
#[tactic(auto, using(crate::proofs::StartOfText::begins_test))]
fn begins(prefix: &[u8], text: &[u8]) -> bool
    ensures { IsTrue result ↔ Begins prefix.now text.now }
{
    text.starts_with(prefix)
}

/// What is next in a text that may begin with a mark.
#[tactic(auto, using(crate::proofs::StartOfText::steps))]
fn first_item<F: WideForm>(input: &[u8]) -> Item
    ensures { (state : ReadState) → IsNext (always_first F.form) state input.now result }
{
    F::assert_form();
    if input.is_empty() {
        return Item::End;
    }
    let big = F::mark(Endian::Big);
    if begins(big.as_slice(), input) {
        return Item::Shift {
            n: big.as_slice().len(),
            next: ReadState::Big,
        };
    }
    let little = F::mark(Endian::Little);
    if begins(little.as_slice(), input) {
        return Item::Shift {
            n: little.as_slice().len(),
            next: ReadState::Little,
        };
    }
    // A prefix of the big-endian mark needs no test: it is a prefix of U+FEFF, which is read below.
    if begins(input, little.as_slice()) {
        return Item::Incomplete;
    }
    F::item::<BigEndian>(input, ReadState::Big)
}

/// What is next in a text in a byte order and a state.
#[inline(always)]
pub(crate) fn item_in<F: WideForm>(order: Order, state: ReadState, input: &[u8]) -> Item
    ensures { IsNext (reads_in F.form order) state input.now result }
{
    match (order, state) {
        (Order::Be, _) => F::item::<BigEndian>(input, ReadState::Start),
        (Order::Le, _) => F::item::<LittleEndian>(input, ReadState::Start),
        (Order::Marked, ReadState::Big) => F::item::<BigEndian>(input, ReadState::Big),
        (Order::Marked, ReadState::Little) => F::item::<LittleEndian>(input, ReadState::Little),
        (Order::Marked, ReadState::Start) => first_item::<F>(input),
        (Order::Marked, ReadState::Shifted(_)) => first_item::<F>(input),
    }
}

/// Writes a character in a byte order into a slice from index `at` on.
#[inline]
fn put<F: WideForm, O: ByteOrder>(c: Scalar, out: &mut [u8], at: usize, next: WriteState) -> Put
    requires { at ≤ length out.old }
    ensures { PutsAt (Some (F.form O.endian c, next)) out.old at result out.new }
{
    let n = F::size(c);
    if out.len() - at < n {
        return Put::NoRoom;
    }
    F::write::<O>(c, out, at);
    Put::Wrote { n, next }
}

/// Writes the big-endian mark and a character into a slice from index `at` on.
#[inline]
fn put_marked<F: WideForm>(c: Scalar, out: &mut [u8], at: usize) -> Put
    requires { at ≤ length out.old }
    ensures { PutsAt (Some (F.form Big mark ++ F.form Big c, WriteState.Marked))
        out.old at result out.new }
{
    let mark = Scalar::known(0xfeff);
    let first = F::size(mark);
    let n = first + F::size(c);
    if out.len() - at < n {
        return Put::NoRoom;
    }
    F::write::<BigEndian>(mark, out, at);
    F::write::<BigEndian>(c, out, at + first);
    Put::Wrote {
        n,
        next: WriteState::Marked,
    }
}

/// Writes a character into a slice from index `at` on, in a byte order and a state.
#[inline]
pub(crate) fn put_in<F: WideForm>(
    order: Order,
    state: WriteState,
    c: Scalar,
    out: &mut [u8],
    at: usize,
) -> Put
    requires { at ≤ length out.old }
    ensures { PutsAt (writes_in F.form order state c) out.old at result out.new }
{
    match (order, state) {
        (Order::Be, _) => put::<F, BigEndian>(c, out, at, WriteState::Start),
        (Order::Le, _) => put::<F, LittleEndian>(c, out, at, WriteState::Start),
        (Order::Marked, WriteState::Marked) => {
            put::<F, BigEndian>(c, out, at, WriteState::Marked)
        }
        (Order::Marked, _) => put_marked::<F>(c, out, at),
    }
}

/// How many bytes one character has at most when it is written. The mark before the first one counts.
pub(crate) fn most_bytes_in<F: WideForm>(order: Order) -> usize
    ensures few { result ≤ 8 }
    ensures most { WritesAtMost result (writes_in F.form order) }
{
    F::assert_form();
    match order {
        Order::Be | Order::Le => 4,
        Order::Marked => 4 + F::size(Scalar::known(0xfeff)),
    }
}
