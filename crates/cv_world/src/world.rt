//! The callers of a shard.
ghost use Rattle.std.specs.Prelude.{◌≡◌, ◌≤◌, ◌++◌, length, IfOk, IfErr};
ghost use Rattle.cv_cache.specs.Compiled.{compiled};
ghost use Rattle.cv_machine.specs.Machine.{with_table};
ghost use Rattle.cv_caller.specs.Tables.{Table as WorldTable, IsTable};
ghost use Rattle.cv_world.specs.Actions.{Put, DropMap, Open, Reset, Close, Part};
ghost use Rattle.cv_world.specs.Answers.{AnswerFits};
ghost use Rattle.cv_world.specs.Private.Replying.{IsConvOutput, conversion};
ghost use Rattle.cv_world.specs.Requests.{turn};
ghost use Rattle.cv_world.specs.Turn.{Acts};
ghost use Rattle.cv_world.specs.Worlds.{world_tables, no_tables};
ghost use Rattle.cv_world.specs.declared.answer.Answer.TheVariants as answers;

use crate::answer::Answer;
use crate::budget::{Budget, UNLIMITED};
use crate::callers::{assert_keyed, gather_in, place_in, prepare_in};
use crate::changing::{bind_in, drop_in, make_room, may_hold_map, part_in, put_in, unbind_in};
use crate::conversions::{convert_in, reserve_one, reset_in};
use crate::counted::Callers;
use crate::laws::{one_answer, some_answer};
use crate::op::ConvRequest;
use crate::opening::Opening;
use crate::outcomes::{add_answer, drop_answer, part_answer};
use crate::replies::Replies;
use crate::stages::ConvOutcome;
use cv_base::{Memory, Policy};
use cv_caller::Place;
use cv_charmap::CompileFault;
use cv_frame::{MOST_BODY, Status};
use cv_machine::Machine;
use cv_pivot::Conversion;
use cv_trie::Charmap;
use slab::Slab;
use std::alloc::Global;
use std::marker::Model;
use std::sync::Arc;

/// The most room that a request may ask for, in bytes.
pub(crate) const MOST_ROOM: u32 = 1_000_000;

/// The callers of a shard, each with its own table; their conversions are in one slab. Contracts see each caller's
/// table.
#[derive(Drop)]
pub struct World {
    pub(crate) callers: Callers,
    pub(crate) conversions: Slab<Conversion>,
}

impl Model for World {
    ghost use Rattle.std.specs.Prelude.{ℕ, List};
    ghost use Rattle.cv_caller.specs.Tables.{Table};

    ghost Value = { List (ℕ × Table) };

    ghost use Rattle.slab.specs.Slab.{get};
    ghost use Rattle.cv_world.specs.Worlds.{tables_in, keyed_in, IsWorld};

    ghost view = { λ w. tables_in w.callers.map.entries w.conversions };

    ghost invariant = { λ w. IsWorld (keyed_in w.callers.map) (get w.conversions) };
}

impl Machine for World {
    ghost Table = { WorldTable };

    ghost turn = { turn };

    ghost tables = { world_tables };

    fn assert_valid(&self) {
        one_answer();
        some_answer();
    }
}

impl World {
    /// Makes a world without a budget, in which no caller has asked yet.
    pub fn new(alloc: Global) -> World
        ensures { world_tables result ≡ no_tables }
    {
        World::within(alloc, UNLIMITED)
    }

    /// Makes a world in which no caller has asked yet. What the callers hold stays within a budget. A request that
    /// would pass the budget is refused as if an allocation failed.
    pub fn within(alloc: Global, budget: Budget) -> World
        ensures { world_tables result ≡ no_tables }
    {
        World {
            callers: Callers::new(alloc, budget),
            conversions: Slab::new(alloc),
        }
    }

    /// States the invariant of a caller's table. It does nothing.
    pub fn assert_table(&self, caller: u32)
        ensures { IsTable (world_tables self.now caller) }
    {
        assert_keyed(&self.callers.map, caller);
    }

    /// Returns the text of an upload: the caller's part, followed by the body.
    pub fn gather(&self, alloc: Global, caller: u32, body: &[u8]) -> Result<Vec<u8>, Memory>
        ensures { IfOk result (λ text. text.items ≡ (world_tables self.now caller).part ++ body.now) }
    {
        gather_in(alloc, &self.callers.map, caller, body)
    }

    /// Runs an OPEN. Every allocation is made before anything changes.
    pub(crate) fn open(
        &mut self,
        alloc: Global,
        caller: u32,
        to: &[u8],
        from: &[u8],
        policy: Policy,
    ) -> Answer
        ensures acts { Acts (world_tables self.old caller) (Open to.now from.now policy)
            (world_tables self.new caller) result }
        ensures others { world_tables self.new
            ≡ with_table (world_tables self.old) caller (world_tables self.new caller) }
        ensures fits { AnswerFits result }
    {
        let opening = match prepare_in(&self.callers.map, caller, to, from, policy) {
            Ok(opening) => opening,
            Err(status) => return Answer::Refused(status),
        };
        if reserve_one(&mut self.conversions).is_err() {
            return Answer::Refused(Status::NoMemory);
        }
        if make_room(&mut self.callers, alloc, caller).is_err() {
            return Answer::Refused(Status::NoMemory);
        }
        let Opening {
            number,
            to,
            from,
            conversion,
        } = opening;
        let key = self.conversions.insert_reserved(conversion);
        let place = Place {
            key: key as u32,
            to,
            from,
        };
        bind_in(&mut self.callers, caller, number, place);
        Answer::Number(number)
    }

    /// Runs a CONV, and appends its output. Returns the status if the CONV is refused.
    pub(crate) fn conv_output(
        &mut self,
        caller: u32,
        conv: ConvRequest<'_>,
        output: &mut Replies,
    ) -> Result<ConvOutcome, Status>
        requires { length conv.input.now ≤ MOST_BODY }
        ensures done { IfOk result (λ o. IsConvOutput (world_tables self.old caller)
            (world_tables self.new caller) conv.entry o output.old output.new) }
        ensures refused { IfErr result (λ status. (output.new ≡ output.old) × Acts (world_tables self.old caller)
            (conversion conv.entry) (world_tables self.new caller) (answers.Refused status)) }
        ensures others { world_tables self.new
            ≡ with_table (world_tables self.old) caller (world_tables self.new caller) }
    {
        let Some(place) = place_in(&self.callers.map, caller, conv.number) else {
            return Err(Status::BadDescriptor);
        };
        if conv.room > MOST_ROOM {
            return Err(Status::Room);
        }
        let key = place.key as usize;
        let Ok(written) = convert_in(&mut self.conversions, key, conv, output) else {
            return Err(Status::NoMemory);
        };
        Ok(written)
    }

    /// Runs a CONV whose output becomes part of the answer.
    pub(crate) fn conv(&mut self, alloc: Global, caller: u32, conv: ConvRequest<'_>) -> Answer
        requires { length conv.input.now ≤ MOST_BODY }
        ensures acts { Acts (world_tables self.old caller) (conversion conv.entry)
            (world_tables self.new caller) result }
        ensures others { world_tables self.new
            ≡ with_table (world_tables self.old) caller (world_tables self.new caller) }
        ensures fits { AnswerFits result }
    {
        let mut output = Replies::new(alloc);
        match self.conv_output(caller, conv, &mut output) {
            Ok(written) => Answer::Converted {
                stop: written.stop,
                left: written.left,
                count: written.count,
                bytes: output.into_bytes(),
            },
            Err(status) => Answer::Refused(status),
        }
    }

    /// Runs a RESET.
    pub(crate) fn reset(&mut self, caller: u32, number: u32, room: u32) -> Answer
        ensures acts { Acts (world_tables self.old caller) (Reset number room) (world_tables self.new caller) result }
        ensures others { world_tables self.new
            ≡ with_table (world_tables self.old) caller (world_tables self.new caller) }
        ensures fits { AnswerFits result }
    {
        let Some(place) = place_in(&self.callers.map, caller, number) else {
            return Answer::Refused(Status::BadDescriptor);
        };
        if room > MOST_ROOM {
            return Answer::Refused(Status::Room);
        }
        let Ok(closing) = reset_in(&mut self.conversions, place.key as usize, room) else {
            return Answer::Refused(Status::TooBig);
        };
        Answer::Written(closing)
    }

    /// Runs a PUT.
    pub(crate) fn put(
        &mut self,
        alloc: Global,
        caller: u32,
        charmap: Result<Arc<Charmap>, CompileFault>,
    ) -> Answer
        ensures acts { Acts (world_tables self.old caller) (Put (compiled charmap))
            (world_tables self.new caller) result }
        ensures others { world_tables self.new
            ≡ with_table (world_tables self.old) caller (world_tables self.new caller) }
        ensures fits { AnswerFits result }
    {
        let charmap = match charmap {
            Ok(charmap) => charmap,
            Err(CompileFault::Map(fault)) => return Answer::BadMap(fault),
            Err(CompileFault::Memory) => {
                self.callers.is_full = !may_hold_map(&self.callers, caller);
                return Answer::Refused(Status::NoMemory);
            }
        };
        let count = charmap.len() as u32;
        assert_keyed(&self.callers.map, caller);
        let added = put_in(&mut self.callers, alloc, caller, charmap);
        add_answer(count, added)
    }

    /// Runs a CLOSE.
    pub(crate) fn close(&mut self, caller: u32, number: u32) -> Answer
        ensures acts { Acts (world_tables self.old caller) (Close number) (world_tables self.new caller) result }
        ensures others { world_tables self.new
            ≡ with_table (world_tables self.old) caller (world_tables self.new caller) }
        ensures fits { AnswerFits result }
    {
        let Some(place) = place_in(&self.callers.map, caller, number) else {
            return Answer::Refused(Status::BadDescriptor);
        };
        unbind_in(&mut self.callers, caller, number);
        self.conversions.try_remove(place.key as usize);
        Answer::Empty
    }

    /// Runs a DROP.
    pub(crate) fn drop_map(&mut self, caller: u32, name: &[u8]) -> Answer
        ensures acts { Acts (world_tables self.old caller) (DropMap name.now) (world_tables self.new caller) result }
        ensures others { world_tables self.new
            ≡ with_table (world_tables self.old) caller (world_tables self.new caller) }
        ensures fits { AnswerFits result }
    {
        let dropped = drop_in(&mut self.callers, caller, name);
        drop_answer(dropped)
    }

    /// Runs a PART.
    pub(crate) fn part(&mut self, alloc: Global, caller: u32, bytes: &[u8]) -> Answer
        ensures acts { Acts (world_tables self.old caller) (Part bytes.now) (world_tables self.new caller) result }
        ensures others { world_tables self.new
            ≡ with_table (world_tables self.old) caller (world_tables self.new caller) }
        ensures fits { AnswerFits result }
    {
        let parted = part_in(&mut self.callers, alloc, caller, bytes);
        part_answer(parted)
    }
}
