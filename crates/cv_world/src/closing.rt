//! Removes callers that leave or have nothing left.
ghost use Rattle.std.specs.Prelude.{◌≡◌, ◌<◌, ℕ, None, false, slice_index_or};
ghost use Rattle.cv_caller.specs.Tables.{empty_table, descriptor_at};
ghost use Rattle.cv_caller.specs.declared.limits.TheConstants.{DESCRIPTORS};
ghost use Rattle.cv_machine.specs.Machine.{with_table};
ghost use Rattle.cv_world.specs.Actions.{Close, Bye};
ghost use Rattle.cv_world.specs.Answers.{AnswerFits};
ghost use Rattle.cv_world.specs.Turn.{Acts};
ghost use Rattle.cv_world.specs.Worlds.{world_tables};
ghost use Rattle.cv_world.specs.declared.answer.Answer.{Answer as Answered};

use crate::answer::Answer;
use crate::callers::bound_in;
use crate::changing::{forget_empty, remove_in};
use crate::world::World;
use cv_caller::DESCRIPTORS;

impl World {
    /// Returns for each number of a caller whether it is bound.
    fn bound_numbers(&self, caller: u32) -> [bool; DESCRIPTORS]
        ensures { (number : ℕ) → number < DESCRIPTORS → slice_index_or result number false ≡ false
            → descriptor_at (world_tables self.now caller) number ≡ None }
    {
        bound_in(&self.callers.map, caller)
    }

    /// Frees a number, if it is bound.
    fn close_bound(&mut self, caller: u32, number: u32, is_bound: bool)
        requires { is_bound ≡ false → descriptor_at (world_tables self.old caller) number ≡ None }
        ensures acts { (answer : Answered)
            × Acts (world_tables self.old caller) (Close number) (world_tables self.new caller) answer }
        ensures others { world_tables self.new
            ≡ with_table (world_tables self.old) caller (world_tables self.new caller) }
    {
        if !is_bound {
            return;
        }
        let _ = self.close(caller, number);
    }

    /// Frees all numbers of a caller. For all that are free already, the caller is looked up only once.
    fn close_all(&mut self, caller: u32)
        ensures closed { (number : ℕ) → descriptor_at (world_tables self.new caller) number ≡ None }
        ensures others { world_tables self.new
            ≡ with_table (world_tables self.old) caller (world_tables self.new caller) }
    {
        let bound = self.bound_numbers(caller);
        for number in 0..DESCRIPTORS as u32 {
            self.close_bound(caller, number, bound[number as usize]);
        }
        // There are no other numbers.
        self.assert_table(caller);
    }

    /// Frees the memory of a caller that has no bound number.
    fn forget(&mut self, caller: u32)
        requires { (number : ℕ) → descriptor_at (world_tables self.old caller) number ≡ None }
        ensures { world_tables self.new ≡ with_table (world_tables self.old) caller empty_table }
    {
        remove_in(&mut self.callers, caller);
    }

    /// Runs a BYE. It allocates nothing.
    pub(crate) fn bye(&mut self, caller: u32) -> Answer
        ensures acts { Acts (world_tables self.old caller) Bye (world_tables self.new caller) result }
        ensures others { world_tables self.new
            ≡ with_table (world_tables self.old) caller (world_tables self.new caller) }
        ensures fits { AnswerFits result }
    {
        self.close_all(caller);
        self.forget(caller);
        Answer::Empty
    }

    /// Frees the memory of a caller that has nothing left.
    pub(crate) fn forget_empty(&mut self, caller: u32)
        ensures { world_tables self.new ≡ world_tables self.old }
    {
        forget_empty(&mut self.callers, caller);
    }
}
