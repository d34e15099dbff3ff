//! One descriptor's conversion.
ghost use Rattle.std.specs.Prelude.{◌≡◌, ◌≤◌, ◌<◌, ◌*◌, ◌^◌, [], length, IsErr};
ghost use Rattle.cv_pivot.specs.Conversions.{Converts, IsMostOutput, start};
ghost use Rattle.cv_pivot.specs.Encodings.{form_of, form_reads, form_writes, form_closes};

use crate::blocks::{BlockSize, START};
use crate::convert::{ascii_or_latin1_run, larger_step, last_step};
use crate::encoding::Encoding;
use crate::items::FEW_BYTES;
use crate::outcome::{Outcome, States, Stop, TooBig};
use crate::pair::Pair;
use crate::step::NOTHING;
use cv_base::{Codec, Piece, Policy};

/// A conversion from one encoding to another. It keeps its states from one call to the next.
#[derive(Drop)]
pub struct Conversion {
    pub to: Encoding,
    pub from: Encoding,
    pub policy: Policy,
    pub states: States,
}

impl Conversion {
    /// Makes a conversion that is at its start.
    pub fn new(to: Encoding, from: Encoding, policy: Policy) -> Conversion
        ensures { result ≡ record { to = to; from = from; policy = policy; states = start } }
    {
        Conversion {
            to,
            from,
            policy,
            states: States::start(),
        }
    }

    /// Converts the longest run of items whose bytes fit in `out`. A character that the target lacks is written as `?`
    /// and counted, or ends the run if the policy is strict. Bytes of `out` past the output stay. Returns why it
    /// stopped, and how many bytes of the input and of `out` are left.
    // A function of its own, so that a caller's loop keeps nothing across it.
    #[inline(never)]
    pub fn convert(&mut self, input: &[u8], out: &mut [u8]) -> Outcome
        ensures converts { Converts (form_reads (form_of self.old.from)) (form_writes (form_of self.old.to))
            self.old.policy self.old.states input.now out.old result self.new.states out.new }
        ensures same { (self.new.from ≡ self.old.from) × (self.new.to ≡ self.old.to)
            × (self.new.policy ≡ self.old.policy) }

        // So the counts fit if the lengths do.
        ensures few { (result.left ≤ length input.now) × (result.count ≤ length input.now)
            × (result.room_left ≤ length out.old) }
        ensures size { length out.new ≡ length out.old }
    {
        self.from.assert_valid();
        let pair = Pair {
            from: &self.from,
            to: &self.to,
            policy: self.policy,
        };
        let states = &mut self.states;
        let mut progress = NOTHING;
        let mut pace = START;
        'steps: loop {
            if progress.read == input.len() {
                return progress.outcome(Stop::Done, input.len(), out.len());
            }
            let rest = &input[progress.read..];
            let at = progress.written;
            if let Some(step) = ascii_or_latin1_run(pair.from, pair.to, *states, rest, out, at) {
                pace.size = BlockSize::Short;
                progress = progress.then(step);
                continue;
            }
            if rest.len() < FEW_BYTES {
                return last_step(pair, states, progress, input, out);
            }
            match larger_step(pair, &mut pace, states, rest, out, at) {
                Ok(step) => progress = progress.then(step),
                Err(stop) => return progress.outcome(stop, input.len(), out.len()),
            }
        }
    }

    /// Returns an upper bound of how many bytes any input of at most `len` bytes is written as, in any states.
    pub fn most_output(&self, len: usize) -> usize
        requires { 8 * len < 2 ^ 64 }
        ensures { IsMostOutput (form_reads (form_of self.now.from)) (form_writes (form_of self.now.to)) len result }
    {
        self.from.assert_valid();
        self.to.most_bytes() * len
    }

    /// Goes back to the start, under the same policy. With room 0 it drops both states and writes nothing. With room
    /// above 0 it returns the bytes that close the target's shift, or `TooBig` if they do not fit, and then the
    /// conversion is unchanged.
    pub fn reset(&mut self, room: usize) -> Result<Piece, TooBig>
        ensures gives_up { room ≡ 0 → (result ≡ Ok []) × (self.new ≡ record self.old { states = start }) }
        ensures closes { 0 < room → length (form_closes (form_of self.old.to) self.old.states.writing) ≤ room
            → (result ≡ Ok (form_closes (form_of self.old.to) self.old.states.writing))
            × (self.new ≡ record self.old { states = start }) }
        ensures too_big { 0 < room → room < length (form_closes (form_of self.old.to) self.old.states.writing)
            → IsErr result × (self.new ≡ self.old) }
    {
        let closing = if room == 0 {
            Piece::new()
        } else {
            self.to.close(self.states.writing)
        };
        if closing.as_slice().len() > room {
            return Err(TooBig);
        }
        self.states = States::start();
        Ok(closing)
    }
}
