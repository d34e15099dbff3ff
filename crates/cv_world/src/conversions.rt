//! Uses and changes the conversions of all callers, each under its key.
ghost use Rattle.std.specs.Prelude.{◌≡◌, ◌≢◌, ◌≤◌, ◌<◌, ◌^◌, ℕ, [], length, Some, IfOk, OnOk, OnErr, IsErr, Ok};
ghost use Rattle.cv_frame.specs.declared.sizes.TheConstants.{MOST_BODY};
ghost use Rattle.slab.specs.Slab.{ContainsKey, HasRoomFor, get as held};
ghost use Rattle.cv_pivot.specs.Conversions.{start};
ghost use Rattle.cv_pivot.specs.Encodings.{form_of, form_closes, IsForm};
ghost use Rattle.cv_pivot.specs.declared.conversion.Conversion.{Conversion as Kept};
ghost use Rattle.cv_world.specs.Private.Stages.{Appends};

use crate::op::ConvRequest;
use crate::replies::Replies;
use crate::stages::{ConvOutcome, convert_in_stages};
use cv_base::{Memory, Piece};
use cv_pivot::{Conversion, TooBig};
use slab::Slab;

/// Makes room for one more conversion, under a key of 32 bits.
pub(crate) fn reserve_one(conversions: &mut Slab<Conversion>) -> Result<(), Memory>
    ensures rest_kept { conversions.new ≡ record conversions.old { capacity = conversions.new.capacity } }
    ensures room { OnOk result (HasRoomFor conversions.new 1) }
    ensures narrow { OnOk result (conversions.new.capacity < 2 ^ 32) }
{
    conversions.reserve(1)?;
    if conversions.capacity() > u32::MAX as usize {
        return Err(Memory);
    }
    Ok(())
}

/// Converts as much of the input as fits in the room by the conversion under a key, and appends the output. Allocates
/// no more than the input can need.
pub(crate) fn convert_in(
    conversions: &mut Slab<Conversion>,
    key: usize,
    conv: ConvRequest<'_>,
    output: &mut Replies,
) -> Result<ConvOutcome, Memory>
    requires there { ContainsKey conversions.old key }
    requires short { length conv.input.now ≤ MOST_BODY }
    ensures form { (v : Kept) → held conversions.old key ≡ Some v → IsForm (form_of v.from) }
    ensures appends { IfOk result (λ o. (v : Kept) → held conversions.old key ≡ Some v
        → (w : Kept) × (held conversions.new key ≡ Some w)
        × Appends v w conv.entry.input.now conv.entry.room o output.old output.new) }
    ensures others { (other : ℕ) → other ≢ key → held conversions.new other ≡ held conversions.old other }
    ensures err { OnErr result ((held conversions.new key ≡ held conversions.old key) × (output.new ≡ output.old)) }
{
    let conversion = &mut conversions[key];
    conversion.from.assert_form();
    let size = (conv.room as usize).min(conversion.most_output(conv.input.len()));
    if output.bytes.capacity() == 0 {
        // All at once, so that bytes are not copied as the buffer grows.
        output.bytes.reserve_exact(size)?;
    }
    let states = conversion.states;
    let start = output.used;
    match convert_in_stages(conversion, conv.input, output, size) {
        Ok(written) => Ok(written),
        Err(lack) => {
            conversion.states = states;
            output.used = start;
            Err(lack)
        }
    }
}

/// Takes the conversion under a key back to its start. Returns the bytes that close the target's shift, or none with
/// room 0. If they do not fit in the room, nothing changes.
pub(crate) fn reset_in(
    conversions: &mut Slab<Conversion>,
    key: usize,
    room: u32,
) -> Result<Piece, TooBig>
    requires { ContainsKey conversions.old key }
    ensures gives_up { (v : Kept) → held conversions.old key ≡ Some v → room ≡ 0
        → (result ≡ Ok []) × (held conversions.new key ≡ Some (record v { states = start })) }
    ensures closes { (v : Kept) → held conversions.old key ≡ Some v → 0 < room → length (form_closes
        (form_of v.to) v.states.writing) ≤ room → (result ≡ Ok (form_closes (form_of v.to) v.states.writing))
        × (held conversions.new key ≡ Some (record v { states = start })) }
    ensures too_big { (v : Kept) → held conversions.old key ≡ Some v → 0 < room → room < length (form_closes
        (form_of v.to) v.states.writing) → IsErr result × (held conversions.new key ≡ held conversions.old key) }
    ensures others { (other : ℕ) → other ≢ key → held conversions.new other ≡ held conversions.old other }
{
    conversions[key].reset(room as usize)
}
