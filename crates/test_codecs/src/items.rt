//! Tables of items. A line is `INPUT: ITEM, ITEM ..`. The items follow each other from the start of the input. An item
//! is `char NUMBER BYTES`, `shift BYTES`, `incomplete`, `ill` or `end`. After an item `in STATE` is the reader's state
//! after it.
use cv_base::{Codec, Item, ReadState};
use std::alloc::{AllocError, Global};
use std::process::Abort;
use std::test::Fail;
use test_support::{bytes_of, sides};

/// Reads the items of each line, and compares them. The reader is in `state` before the first item of a line.
pub fn read_items<R: Abort + AllocGlobal, C: Codec>(
    rt: &R,
    codec: &C,
    state: ReadState,
    table: &str,
) -> Result<(), Fail> {
    for line in table.trim().lines() {
        let (input, items) = sides(line, ": ")?;
        let input = bytes_of(rt.alloc(), input)?;
        let read = are_read(rt.alloc(), codec, state, &input, items)?;
        assert!(rt; read, "{line}");
    }
    Ok(())
}

/// Whether a text has these items, one after the other.
fn are_read<C: Codec>(
    alloc: Global,
    codec: &C,
    mut state: ReadState,
    mut text: &[u8],
    items: &str,
) -> Result<bool, Fail> {
    for wanted in items.split(", ") {
        if wanted.starts_with("in ") {
            if wanted != state_name(state) {
                return Ok(false);
            }
            continue;
        }
        let item = codec.item(state, text);
        if told_item(alloc, &item)?.as_str() != wanted {
            return Ok(false);
        }
        (text, state) = behind(&item, text);
    }
    Ok(true)
}

/// The text and the state after an item. Nothing is after an item that ends the text.
fn behind<'a>(item: &Item, text: &'a [u8]) -> (&'a [u8], ReadState) {
    match *item {
        Item::Char { n, next, .. } | Item::Shift { n, next } => (
            text.get(n..).unwrap_or(&[]),
            next,
        ),
        Item::Incomplete | Item::Ill | Item::End => (&[], ReadState::Start),
    }
}

/// A state, in the words of a line.
fn state_name(state: ReadState) -> &'static str {
    match state {
        ReadState::Start => "in Start",
        ReadState::Big => "in Big",
        ReadState::Little => "in Little",
        ReadState::Shifted(_) => "in Shifted",
    }
}

/// An item, in the words of a line.
fn told_item(alloc: Global, item: &Item) -> Result<String, AllocError> {
    match *item {
        Item::Char { c, n, .. } => format!(in alloc; "char {:x} {n}", c.value()),
        Item::Shift { n, .. } => format!(in alloc; "shift {n}"),
        Item::Incomplete => String::from_str(alloc, "incomplete"),
        Item::Ill => String::from_str(alloc, "ill"),
        Item::End => String::from_str(alloc, "end"),
    }
}
