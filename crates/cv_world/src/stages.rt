//! Appends the output of a conversion to replies. Memory is allocated and cleared only as far as it is used.
ghost use Rattle.std.specs.Prelude.{◌≡◌, ◌≢◌, ◌≤◌, ◌<◌, ◌+◌, ◌^◌, true, length, take, IfOk, OnErr};
ghost use Rattle.cv_frame.specs.declared.sizes.TheConstants.{MOST_BODY};
ghost use Rattle.cv_world.specs.Private.Stages.{Appends};
ghost use Rattle.cv_world.specs.declared.stages.TheConstants.{GUESSES};

use crate::framing::make_long;
use crate::replies::Replies;
use cv_base::{Codec, Memory};
use cv_pivot::{Conversion, Stop};

/// How many bytes are cleared at once.
const CLEAR_AT_ONCE: usize = 2_048;

/// How many bytes have to be cleared already, so that they are used before others are cleared.
const ENOUGH: usize = 1_024;

/// How many times the room of a stage is guessed, after the first one. Then a stage uses all the room.
const GUESSES: usize = 2;

/// What a conversion came to: why it stopped, how many bytes of the input are left, and how many characters `?`
/// replaces.
#[derive(Clone, Copy, Debug)]
pub(crate) struct ConvOutcome {
    pub(crate) stop: Stop,
    pub(crate) left: u32,
    pub(crate) count: u32,
}

/// Returns whether a conversion stopped for another cause than too little room.
fn has_room(stop: Stop) -> bool
    ensures { result ≡ true → stop ≢ Stop.TooBig }
{
    match stop {
        Stop::Done | Stop::Ill | Stop::Lacking | Stop::Incomplete => true,
        Stop::TooBig => false,
    }
}

/// Returns the room of the next stage: what the rest of a text is likely to need, if its bytes are written as those of
/// the last stage were. After the first stage it is an eighth more, which is kept for later replies. If that was too
/// little, it is one more byte for each byte of the rest: so markup before letters that are written in two bytes, or in
/// three from two, does not mislead it. After `GUESSES` guesses it is all the room that is left.
fn next_room(guess: usize, read: usize, written: usize, left: usize, size_left: usize) -> usize
    requires small { written < 2 ^ 32 }
    requires short { left ≤ MOST_BODY }
    ensures fits { result ≤ size_left }
    ensures last { GUESSES ≤ guess → result ≡ size_left }
{
    if guess >= GUESSES {
        return size_left;
    }
    let likely = left * written / read.max(1);
    let more = if guess == 0 { likely / 8 } else { left };
    size_left.min(likely + more)
}

/// Converts as much of the input as fits in `room` bytes. If they are cleared already, nothing is allocated.
pub(crate) fn convert_stage(
    conversion: &mut Conversion,
    input: &[u8],
    output: &mut Replies,
    room: usize,
) -> Result<ConvOutcome, Memory>
    requires small { room < 2 ^ 32 }
    requires short { length input.now ≤ MOST_BODY }
    ensures appends { IfOk result (λ o. Appends conversion.old conversion.new input.now room o output.old output.new) }
    ensures few { IfOk result (λ o. (o.left ≤ length input.now) × (o.count ≤ length input.now)) }
    ensures err { OnErr result ((conversion.new ≡ conversion.old) × (output.new ≡ output.old)) }
{
    let at = output.used;
    make_long(&mut output.bytes, at, room, 0)?;
    let end = at + room;
    let outcome = conversion.convert(input, &mut output.bytes[at..end]);
    output.used = end - outcome.room_left;
    Ok(ConvOutcome {
        stop: outcome.stop,
        left: outcome.left as u32,
        count: outcome.count as u32,
    })
}

/// Converts as much of the input as fits in `size` bytes. What was written so far says how much the rest is likely to
/// need. The result is that of one `Conversion::convert` into `size` bytes, but they are not all cleared.
pub(crate) fn convert_in_stages(
    conversion: &mut Conversion,
    input: &[u8],
    output: &mut Replies,
    size: usize,
) -> Result<ConvOutcome, Memory>
    requires small { size < 2 ^ 32 }
    requires short { length input.now ≤ MOST_BODY }
    ensures appends { IfOk result (λ o. Appends conversion.old conversion.new input.now size o output.old output.new) }
    ensures kept { conversion.new ≡ record conversion.old { states = conversion.new.states } }
    ensures same { OnErr result (take (length output.old) output.new ≡ output.old) }
{
    conversion.from.assert_valid();
    let mut sum = ConvOutcome {
        stop: Stop::TooBig,
        left: input.len() as u32,
        count: 0,
    };
    let mut rest = input;
    let mut size_left = size;
    // What is cleared already is used first. So a stream that repeats its requests needs no allocation and no clearing,
    // though little more is kept than its replies took.
    let mut room = output.bytes.len() - output.used;
    if room < ENOUGH {
        room = CLEAR_AT_ONCE;
    }
    room = room.min(size);
    let mut guess = 0;
    loop {
        let before = output.used;
        let part = convert_stage(conversion, rest, output, room)?;
        sum = ConvOutcome {
            count: sum.count + part.count,
            ..part
        };
        if room == size_left || has_room(part.stop) {
            return Ok(sum);
        }
        let read = rest.len() - part.left as usize;
        let written = output.used - before;
        rest = &rest[read..];
        size_left -= written;
        room = next_room(guess, read, written, rest.len(), size_left);
        guess += 1;
    }
}
