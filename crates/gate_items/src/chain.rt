//! Conversions item by item, without blocks.

use cv_base::{Codec, Item, Policy, Put, Scalar, WriteState};
use cv_pivot::{Conversion, Encoding, Outcome, States, Stop};
use std::alloc::{AllocError, Global};

/// The progress of a conversion after some items.
#[derive(Clone, Copy, Debug, PartialEq, Eq)]
struct Reached {
    used: usize,
    wrote: usize,
    count: usize,
    states: States,
}

/// The items at the start of a text, one after the other, and what is written for them if there is room for all.
#[derive(Drop)]
pub struct Chain {
    start: Reached,
    /// How far the conversion is after the first item, after the second, and so on.
    reached: Vec<Reached>,
    written: Vec<u8>,
    /// Why there is no further item.
    stop: Stop,
}

/// The result that a call must have.
#[derive(Clone, Copy, Debug)]
pub struct Expected<'a> {
    pub outcome: Outcome,
    pub states: States,
    pub written: &'a [u8],
}

/// The most bytes of a character in any encoding.
const MOST_BYTES: usize = 8;

/// Appends the bytes of a character, and returns the state after them, or `None` if the encoding lacks the character.
fn put(
    to: &Encoding,
    state: WriteState,
    c: Scalar,
    written: &mut Vec<u8>,
) -> Result<Option<WriteState>, AllocError> {
    let mut bytes = [0; MOST_BYTES];
    match to.put_at(state, c, &mut bytes, 0) {
        Put::Wrote { n, next } => {
            written.extend_from_slice(bytes.get(..n).unwrap_or(&bytes))?;
            Ok(Some(next))
        }
        Put::Lacks | Put::NoRoom => Ok(None),
    }
}

impl Chain {
    /// Returns the items of a text that comes next in a conversion.
    pub fn of(alloc: Global, conversion: &Conversion, text: &[u8]) -> Result<Chain, AllocError> {
        let start = Reached {
            used: 0,
            wrote: 0,
            count: 0,
            states: conversion.states,
        };
        let mut chain = Chain {
            start,
            reached: Vec::with_capacity(alloc, text.len())?,
            written: Vec::with_capacity(alloc, text.len())?,
            stop: Stop::Done,
        };
        let mut now = start;
        for _item in 0..=text.len() {
            let rest = text.get(now.used..).unwrap_or(&[]);
            match conversion.from.item(now.states.reading, rest) {
                Item::Char { c, n, next } => {
                    if !chain.write(conversion, c, &mut now)? {
                        chain.stop = Stop::Lacking;
                        break;
                    }
                    now.used = now.used.saturating_add(n);
                    now.states.reading = next;
                }
                Item::Shift { n, next } => {
                    now.used = now.used.saturating_add(n);
                    now.states.reading = next;
                }
                Item::Incomplete => {
                    chain.stop = Stop::Incomplete;
                    break;
                }
                Item::Ill => {
                    chain.stop = Stop::Ill;
                    break;
                }
                Item::End => break,
            }
            chain.reached.push(now)?;
        }
        Ok(chain)
    }

    /// Writes a character, or `?` if the encoding lacks it and the policy allows that. Returns whether it was written.
    fn write(
        &mut self,
        conversion: &Conversion,
        c: Scalar,
        now: &mut Reached,
    ) -> Result<bool, AllocError> {
        let to = &conversion.to;
        let state = now.states.writing;
        let next = match (put(to, state, c, &mut self.written)?, conversion.policy) {
            (Some(next), _) => next,
            (None, Policy::Strict) => return Ok(false),
            (None, Policy::Substitute) => {
                now.count = now.count.saturating_add(1);
                put(to, state, Scalar::substitute(), &mut self.written)?.unwrap_or(state)
            }
        };
        now.wrote = self.written.len();
        now.states.writing = next;
        Ok(true)
    }

    /// Returns how many bytes are written if there is room for all.
    pub fn most(&self) -> usize {
        self.written.len()
    }

    /// Returns the result that a call must have with an output of `room` bytes: that of the longest run of these items
    /// whose bytes fit.
    pub fn within(&self, text: &[u8], room: usize) -> Expected<'_> {
        let fit = self.reached.partition_point(|r| r.wrote <= room);
        let last = match fit.checked_sub(1) {
            Some(last) => self.reached.get(last).copied().unwrap_or(self.start),
            None => self.start,
        };
        let stop = if fit == self.reached.len() {
            self.stop
        } else {
            Stop::TooBig
        };
        Expected {
            outcome: Outcome {
                left: text.len().saturating_sub(last.used),
                room_left: room.saturating_sub(last.wrote),
                count: last.count,
                stop,
            },
            states: last.states,
            written: self.written.get(..last.wrote).unwrap_or(&[]),
        }
    }
}
