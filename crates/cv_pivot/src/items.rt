//! Items one by one.
ghost use Rattle.std.specs.Prelude.{◌≤◌, length};
ghost use Rattle.cv_pivot.specs.Encodings.{form_of, form_reads, form_writes};
ghost use Rattle.cv_pivot.specs.Private.Steps.{Finishes, IsWithin, TakesOrStops};

use crate::encoding::Encoding;
use crate::outcome::{Outcome, States, Stop};
use crate::pair::Pair;
use crate::step::Progress;
use cv_base::{Ascii, Codec, Item, Latin1, Placed, place_character};
use cv_utf7::Utf7;
use cv_utf8::Utf8;
use cv_utf16::{Utf16, Utf32};

/// Fewer bytes than these are converted faster item by item than by blocks, whose buffers are cleared and copied. It
/// affects speed only.
pub(crate) const FEW_BYTES: usize = 12;

/// Takes the next item, if there is one, the policy allows it and its bytes fit after the first `at` bytes of the
/// output.
#[inline(always)]
#[tactic(auto, using(cv_base::proofs::AllWritten::none_allowed))]
pub(crate) fn one_step<F: Codec, T: Codec>(
    pair: Pair<'_, F, T>,
    states: &mut States,
    rest: &[u8],
    out: &mut [u8],
    at: usize,
) -> Result<Progress, Stop>
    requires { at ≤ length out.old }
    ensures { TakesOrStops (F.reads pair.entry.from.now) (T.writes pair.entry.to.now) pair.entry.policy
        states.old rest.now out.old at result states.new out.new }
{
    match pair.from.item(states.reading, rest) {
        Item::Char { c, n, next } => match place_character(
            pair.to,
            pair.policy,
            states.writing,
            c,
            out,
            at,
        ) {
            Placed::Wrote {
                n: written,
                count,
                next: then,
            } => {
                states.reading = next;
                states.writing = then;
                Ok(Progress {
                    read: n,
                    written,
                    replaced: count,
                })
            }
            Placed::NoRoom => Err(Stop::TooBig),
            Placed::Lacks => Err(Stop::Lacking),
        },
        Item::Shift { n, next } => {
            states.reading = next;
            Ok(Progress {
                read: n,
                written: 0,
                replaced: 0,
            })
        }
        Item::Incomplete => Err(Stop::Incomplete),
        Item::Ill => Err(Stop::Ill),
        Item::End => Err(Stop::Done),
    }
}

/// Converts what is left of a text item by item. Each pair of encodings has a loop of its own, so that no item is
/// dispatched on its encoding.
#[inline(always)]
fn each_item<F: Codec, T: Codec>(
    pair: Pair<'_, F, T>,
    states: &mut States,
    start: Progress,
    input: &[u8],
    out: &mut [u8],
) -> Outcome
    requires { IsWithin start input.now out.old }
    ensures { Finishes (F.reads pair.entry.from.now) (T.writes pair.entry.to.now) pair.entry.policy input.now
        states.old start out.old result states.new out.new }
{
    pair.from.assert_valid();
    let mut progress = start;
    'items: loop {
        let rest = &input[progress.read..];
        match one_step(pair, states, rest, out, progress.written) {
            Ok(step) => {
                progress = progress.then(step);
                if progress.read == input.len() {
                    return progress.outcome(Stop::Done, input.len(), out.len());
                }
            }
            Err(stop) => return progress.outcome(stop, input.len(), out.len()),
        }
    }
}

/// Converts what is left as `each_item` does, after dispatching on the target encoding.
#[inline(always)]
fn each_item_to<F: Codec>(
    pair: Pair<'_, F, Encoding>,
    states: &mut States,
    start: Progress,
    input: &[u8],
    out: &mut [u8],
) -> Outcome
    requires { IsWithin start input.now out.old }
    ensures { Finishes (F.reads pair.entry.from.now) (form_writes (form_of pair.entry.to.now)) pair.entry.policy
        input.now states.old start out.old result states.new out.new }
{
    let Pair { from, to, policy } = pair;
    dispatch!(to, to => each_item(Pair { from, to, policy }, states, start, input, out))
}

/// Converts what is left of a text, if it is short. Kept out of line, so that the loop that calls it stays small.
#[inline(never)]
pub(crate) fn few_items(
    pair: &Pair<'_, Encoding, Encoding>,
    states: &mut States,
    start: &Progress,
    input: &[u8],
    out: &mut [u8],
) -> Outcome
    requires { IsWithin start.now input.now out.old }
    ensures { Finishes (form_reads (form_of pair.now.from.now)) (form_writes (form_of pair.now.to.now))
        pair.now.policy input.now states.old start.now out.old result states.new out.new }
{
    let Pair { from, to, policy } = *pair;
    dispatch!(from, from => each_item_to(Pair { from, to, policy }, states, *start, input, out))
}
