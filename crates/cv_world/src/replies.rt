//! A buffer of the frames of replies, one after another.
ghost use Rattle.std.specs.Prelude.{◌≡◌, ◌≤◌, ◌+◌, ◌*◌, ◌++◌, [], max, length, take, drop, vec_len, vec_capacity};
ghost use Rattle.std.specs.Prelude.{OnOk, OnErr, IfOk};
ghost use Rattle.cv_frame.specs.Message.{spelling};
ghost use Rattle.cv_frame.specs.declared.sizes.TheConstants.{FRAME_HEAD, MOST_BODY};
ghost use Rattle.cv_world.specs.Private.Replying.{small_message, converted_message};
ghost use Rattle.cv_world.specs.declared.framing.TheConstants.{SMALL};
ghost use Rattle.cv_world.specs.declared.replies.TheConstants.{SURPLUS};

use crate::answer::status_of;
use crate::framing::{SMALL, make_long, make_room, put};
use crate::stages::ConvOutcome;
use cv_base::{Memory, Piece};
use cv_frame::{Bytes, FRAME_HEAD, Reply, Request, Status, frame_head};
use std::alloc::Global;
use std::marker::Model;

/// How many bytes are kept besides those of the longest batch of replies and an eighth more.
const SURPLUS: usize = 2_048;

/// How many more bytes are cleared than are needed, so that the next replies need no clearing.
const AHEAD: usize = 1_024;

/// Frees all the memory of a vector.
fn free(bytes: &mut Vec<u8>)
    ensures none { vec_len bytes.new ≡ 0 }
    ensures lean { vec_capacity bytes.new ≡ 0 }
{
    bytes.clear();
    bytes.shrink_to(0);
}

/// Drops the replies. Frees the memory beyond what the longest batch of replies needed, an eighth more, and `SURPLUS`.
/// What is kept stays cleared, so that a stream whose replies are as long again needs no clearing.
fn forget(bytes: &mut Vec<u8>, used: &mut usize, most: &mut usize)
    ensures none { used.new ≡ 0 }
    ensures most { most.new ≡ max most.old used.old }
    ensures lean { 8 * vec_capacity bytes.new ≤ 9 * most.new + 8 * SURPLUS }
{
    *most = (*most).max(*used);
    *used = 0;
    let kept = most.saturating_add(*most / 8 + SURPLUS);
    if bytes.capacity() <= kept {
        return;
    }
    bytes.truncate(kept);
    bytes.shrink_to(kept);
    if bytes.capacity() > kept {
        free(bytes);
    }
}

/// The frames of replies, one after another. Contracts see their bytes. The vector may be longer than they are: the
/// bytes after them stay from earlier replies, so that a conversion finds memory there that needs no clearing.
#[derive(Drop)]
pub struct Replies {
    pub(crate) bytes: Vec<u8>,
    pub(crate) used: usize,
    /// The most bytes that a batch of replies had.
    most: usize,
}

impl Model for Replies {
    ghost use Rattle.std.specs.Prelude.{ℕ, List, ◌≤◌, take, vec_len};

    ghost Value = { List ℕ };

    ghost view = { λ r. take r.used r.bytes.items };

    ghost invariant = { λ r. r.used ≤ vec_len r.bytes };
}

impl Replies {
    /// Makes a buffer without replies, and allocates nothing.
    pub fn new(alloc: Global) -> Replies
        ensures { result ≡ [] }
    {
        Replies {
            bytes: Vec::new(alloc),
            used: 0,
            most: 0,
        }
    }

    /// Drops all replies. Keeps memory for others: at most that of the longest batch of replies, an eighth more, and
    /// `SURPLUS`.
    pub fn clear(&mut self)
        ensures { self.new ≡ [] }
    {
        forget(&mut self.bytes, &mut self.used, &mut self.most);
    }

    /// Drops all replies, and frees all memory.
    pub fn give_back(&mut self)
        ensures { self.new ≡ [] }
    {
        self.used = 0;
        free(&mut self.bytes);
    }

    /// Returns the bytes of all replies.
    pub fn as_slice(&self) -> &[u8]
        ensures { result.now ≡ self.now }
    {
        &self.bytes[..self.used]
    }

    /// Makes room for `n` more bytes.
    pub fn reserve(&mut self, n: usize) -> Result<(), Memory>
        ensures { self.new ≡ self.old }
    {
        make_room(&mut self.bytes, self.used, n)
    }

    /// Appends the frame of a reply. If an allocation fails, nothing changes.
    pub fn push(&mut self, reply: &Reply) -> Result<(), Memory>
        ensures ok { OnOk result (self.new ≡ self.old ++ spelling reply.now) }
        ensures err { OnErr result (self.new ≡ self.old) }
    {
        let first = reply.head.as_slice();
        let second = reply.tail.as_slice();
        let n = first.len() + second.len();
        make_long(&mut self.bytes, self.used, FRAME_HEAD + n, AHEAD)?;
        let head = frame_head(reply.caller, reply.tag, reply.status.number(), n);
        let body_at = self.used + FRAME_HEAD;
        put(&mut self.bytes, self.used, &head);
        put(&mut self.bytes, body_at, first);
        put(&mut self.bytes, body_at + first.len(), second);
        self.used = body_at + n;
        Ok(())
    }

    /// Returns the bytes, without a copy.
    pub(crate) fn into_bytes(self) -> Bytes
        ensures { result ≡ self }
    {
        let mut bytes = self.bytes;
        bytes.truncate(self.used);
        Bytes::of(bytes)
    }

    /// Begins a frame: appends `SMALL` bytes, which are written when the frame is finished. Returns where the frame
    /// begins.
    pub(crate) fn begin(&mut self) -> Result<usize, Memory>
        ensures ok { IfOk result (λ start. (start ≡ length self.old) × (length self.new ≡ start + SMALL)
            × (take start self.new ≡ self.old)) }
        ensures err { OnErr result (self.new ≡ self.old) }
    {
        let start = self.used;
        make_long(&mut self.bytes, start, SMALL, AHEAD)?;
        self.used = start + SMALL;
        Ok(start)
    }

    /// Finishes the frame of the reply to a request, which has only a small body.
    pub(crate) fn finish_small(
        &mut self,
        start: usize,
        request: &Request,
        status: Status,
        body: &Piece,
    )
        requires { start + SMALL ≤ length self.old }
        ensures { self.new ≡ take start self.old ++ spelling (small_message request.now status body.now) }
    {
        let body = body.as_slice();
        let head = frame_head(request.caller, request.tag, status.number(), body.len());
        put(&mut self.bytes, start, &head);
        put(&mut self.bytes, start + FRAME_HEAD, body);
        self.used = start + FRAME_HEAD + body.len();
    }

    /// Finishes the frame of the reply to a conversion, whose output was appended.
    pub(crate) fn finish_converted(&mut self, start: usize, request: &Request, outcome: ConvOutcome)
        requires output { start + SMALL ≤ length self.old }
        requires fits { length self.old ≤ start + FRAME_HEAD + MOST_BODY }
        ensures { self.new ≡ take start self.old
            ++ spelling (converted_message request.now outcome (drop (start + SMALL) self.old)) }
    {
        let n = self.used - start - FRAME_HEAD;
        let body_at = start + FRAME_HEAD;
        let status = status_of(outcome.stop);
        let head = frame_head(request.caller, request.tag, status.number(), n);
        put(&mut self.bytes, start, &head);
        put(&mut self.bytes, body_at, &outcome.left.to_be_bytes());
        put(&mut self.bytes, body_at + 4, &outcome.count.to_be_bytes());
    }
}
