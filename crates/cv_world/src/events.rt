//! Runs one op.
ghost use Rattle.std.specs.Prelude.{◌≡◌};
ghost use Rattle.cv_machine.specs.Machine.{with_table};
ghost use Rattle.cv_world.specs.Actions.{asked, InputFits};
ghost use Rattle.cv_world.specs.Answers.{AnswerFits};
ghost use Rattle.cv_world.specs.Private.Replying.{IsOther};
ghost use Rattle.cv_world.specs.Turn.{Acts};
ghost use Rattle.cv_world.specs.Worlds.{world_tables};

use crate::answer::Answer;
use crate::op::{ConvRequest, Op};
use crate::world::World;
use cv_frame::Status;
use std::alloc::Global;

impl World {
    /// Does what an op asks for with the caller's table, and returns the answer. No other caller's table changes. A
    /// refusal leaves every table unchanged.
    pub fn step(&mut self, alloc: Global, caller: u32, op: Op<'_>) -> Answer
        requires { InputFits op }
        ensures acts { Acts (world_tables self.old caller) (asked op.entry) (world_tables self.new caller) result }
        ensures others { world_tables self.new
            ≡ with_table (world_tables self.old) caller (world_tables self.new caller) }
        ensures fits { AnswerFits result }
    {
        match op {
            Op::Conv {
                number,
                room,
                input,
            } => {
                let conv = ConvRequest {
                    number,
                    room,
                    input,
                };
                self.conv(alloc, caller, conv)
            }
            op => self.step_small(alloc, caller, op),
        }
    }

    /// Does what an op other than a CONV asks for. The body of its reply is small.
    pub(crate) fn step_small(&mut self, alloc: Global, caller: u32, op: Op<'_>) -> Answer
        requires { IsOther (asked op) }
        ensures acts { Acts (world_tables self.old caller) (asked op.entry) (world_tables self.new caller) result }
        ensures others { world_tables self.new
            ≡ with_table (world_tables self.old) caller (world_tables self.new caller) }
        ensures fits { AnswerFits result }
    {
        match op {
            Op::Put(charmap) => self.put(alloc, caller, charmap),
            Op::DropMap(name) => {
                let answer = self.drop_map(caller, name);
                self.forget_empty(caller);
                answer
            }
            Op::Open { to, from, policy } => self.open(alloc, caller, to, from, policy),
            Op::Reset { number, room } => self.reset(caller, number, room),
            Op::Close(number) => {
                let answer = self.close(caller, number);
                self.forget_empty(caller);
                answer
            }
            Op::Bye => self.bye(caller),
            Op::Part(bytes) => {
                let answer = self.part(alloc, caller, bytes);
                self.forget_empty(caller);
                answer
            }
            // A CONV is excluded by the contract.
            Op::Bad | Op::Conv { .. } => Answer::Refused(Status::BadRequest),
        }
    }
}
