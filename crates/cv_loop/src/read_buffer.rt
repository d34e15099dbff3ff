//! The bytes of a stream that were read and are not answered yet.

ghost use Rattle.std.specs.Prelude.{◌≡◌, ◌≤◌, ◌<◌, ◌+◌, ◌-◌, ◌*◌, ◌^◌, ◌==◌, nat_lt, [], ℕ, List, true, false, IfOk};
ghost use Rattle.std.specs.Prelude.{IfErr, OnOk, OnErr, vec_len, length, min, take, drop, slice_range, if◌then◌else◌};
ghost use Rattle.std.specs.Io.KnownBytes.{Consumes, IsAtEnd};
ghost use Rattle.cv_loop.specs.Private.Buffers.{MakesRoom};
ghost use Rattle.cv_loop.specs.Private.Draining.{ReadsMore};
ghost use Rattle.cv_loop.specs.declared.read_buffer.TheConstants.{MOST_READ};

use crate::ends::Source;
use crate::fault::ServeFault;
use cv_base::Memory;
use cv_world::Replies;
use std::alloc::Global;
use std::marker::Model;

/// How many bytes one read takes at most.
const MOST_READ: usize = 65_536;

/// How many bytes the first read of a stream takes at most. After a read that brings as many as it may, the next may
/// bring twice as many. So a stream of few bytes takes little memory.
const FIRST_READ: usize = 4_096;

/// Bytes that were read and are not answered yet. They are in a buffer, and the next read goes after them. When the
/// buffer grows, it at least doubles. The bytes move to the start of the buffer only if at least as many before them
/// have been answered. So the cost of reading is linear in the bytes and the reads, however the stream is cut.
#[derive(Drop)]
pub struct ReadBuffer {
    buffer: Vec<u8>,
    start: usize,
    end: usize,
    /// How many bytes the next read takes at most.
    room: usize,
}

impl Model for ReadBuffer {
    ghost use Rattle.std.specs.Prelude.{◌≤◌, ◌<◌, ℕ, List, vec_len, slice_range};
    ghost use Rattle.cv_loop.specs.declared.read_buffer.TheConstants.{MOST_READ};

    ghost Value = { List ℕ };

    ghost view = { λ h. slice_range h.buffer.items h.start h.end };

    ghost invariant = { λ h. (h.start ≤ h.end) × (h.end ≤ vec_len h.buffer) × (0 < h.room) × (h.room ≤ MOST_READ) };
}

/// Makes room for a read of `room` bytes after those that are held. If none are held and the buffer is large enough,
/// the read goes to its start. If an allocation fails, frees the memory of `replies` and tries once more.
fn make_room(
    buffer: &mut Vec<u8>,
    start: &mut usize,
    end: &mut usize,
    room: usize,
    replies: &mut Replies,
) -> Result<(), Memory>
    requires start { start.old ≤ end.old }
    requires end { end.old ≤ vec_len buffer.old }
    requires room { room ≤ MOST_READ }
    ensures start { start.new ≤ end.new }
    ensures end { end.new ≤ vec_len buffer.new }
    ensures same { slice_range buffer.new.items start.new end.new ≡ slice_range buffer.old.items start.old end.old }
    ensures room { OnOk result (end.new + room ≤ vec_len buffer.new) }
    ensures cost { OnOk result (MakesRoom room start.old end.old (vec_len buffer.old) start.new (vec_len buffer.new)) }
    ensures gave_back { OnErr result (replies.new ≡ []) }
{
    let held = *end - *start;
    if held > 0 && buffer.len() - *end >= room {
        return Ok(());
    }
    if held <= *start && room <= buffer.len() - held {
        // The held bytes go to the start. The two ranges do not overlap, so it is one memcpy.
        let (before, after) = buffer.split_at_mut(*start);
        before[..held].copy_from_slice(&after[..held]);
        *start = 0;
        *end = held;
        return Ok(());
    }
    let size = (2 * buffer.len()).max(*end + room);
    if buffer.resize(size, 0).is_err() {
        replies.give_back();
        buffer.resize(size, 0)?;
    }
    Ok(())
}

impl ReadBuffer {
    /// Makes an empty buffer, and allocates nothing.
    pub fn new(alloc: Global) -> ReadBuffer
        ensures { result ≡ [] }
    {
        ReadBuffer {
            buffer: Vec::new(alloc),
            start: 0,
            end: 0,
            room: FIRST_READ,
        }
    }

    /// Returns the bytes that are held.
    pub fn as_slice(&self) -> &[u8]
        ensures { result.now ≡ self.now }
    {
        &self.buffer[self.start..self.end]
    }

    /// Removes the first `n` bytes.
    pub fn forget(&mut self, n: usize)
        requires { n ≤ length self.old }
        ensures { self.new ≡ drop n self.old }
    {
        self.start += n;
    }

    /// Reads once, and holds what came. Returns false at the end of the stream. If an allocation fails, frees the
    /// memory of `replies` and tries once more.
    pub fn read_more<S: Source>(
        &mut self,
        reader: &mut S,
        replies: &mut Replies,
    ) -> Result<bool, ServeFault>
        requires pulls { S.pulls reader.old < 2 ^ 64 - 1 }
        requires goes_on { S.met_end reader.old ≡ false }
        requires works { S.has_failed reader.old ≡ false }
        ensures bytes { (bytes : List ℕ) × Consumes (S.left reader.old) (S.left reader.new) bytes
            × ReadsMore result self.old self.new bytes (S.met_end reader.new) (S.has_failed reader.new) }
        ensures end { IfOk result (λ more. more ≡ false → IsAtEnd (S.left reader.new)) }
        ensures pulls { S.pulls reader.new ≤ S.pulls reader.old + 1 }
        ensures counts { OnOk result (S.pulls reader.new ≡ S.pulls reader.old + 1) }
    {
        let room = self.room;
        make_room(
            &mut self.buffer,
            &mut self.start,
            &mut self.end,
            room,
            replies,
        )?;
        let n = match reader.pull(&mut self.buffer[self.end..self.end + room]) {
            Ok(n) => n,
            Err(_) => return Err(ServeFault::Read),
        };
        self.end += n;
        if n == room {
            self.room = (2 * room).min(MOST_READ);
        }
        Ok(n > 0)
    }
}
