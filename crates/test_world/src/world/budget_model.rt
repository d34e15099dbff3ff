//! Many pseudorandom requests of a few callers within a budget, compared with a model that counts everything anew after
//! each.
use crate::numbers::Numbers;
use cv_base::Policy;
use cv_cache::{Compiler, Plain};
use cv_caller::{CALLER_BYTES, DESCRIPTOR_BYTES};
use cv_charmap::CompileFault;
use cv_frame::Status;
use cv_trie::Charmap;
use cv_world::{Answer, Budget, Op, UNLIMITED, World};
use std::alloc::Global;
use std::sync::Arc;
use std::test::Fail;

/// The names of charmaps that are put and dropped.
const NAMES: [&str; 3] = ["A", "B", "C"];

/// What a caller has.
#[derive(Clone, Copy, Drop)]
struct Own {
    /// A bit for each number that is bound.
    numbers: u32,
    /// A bit for each charmap that is held.
    maps: u32,
    part: u64,
}

const NOTHING: Own = Own {
    numbers: 0,
    maps: 0,
    part: 0,
};

impl Own {
    fn is_nothing(&self) -> bool {
        self.numbers == 0 && self.maps == 0 && self.part == 0
    }

    /// How many bytes are counted for this, if `map` bytes are counted for each charmap.
    fn bytes(&self, map: u64) -> u64 {
        if self.is_nothing() {
            return 0;
        }
        let descriptors = DESCRIPTOR_BYTES.saturating_mul(u64::from(self.numbers.count_ones()));
        let maps = map.saturating_mul(u64::from(self.maps.count_ones()));
        CALLER_BYTES
            .saturating_add(descriptors)
            .saturating_add(maps)
            .saturating_add(self.part)
    }
}

/// What all callers have, and their budget.
#[derive(Drop)]
struct Model {
    own: Vec<Own>,
    budget: Budget,
    /// How many bytes are counted for each charmap.
    map: u64,
}

impl Model {
    fn bytes(&self) -> u64 {
        let mut sum = 0u64;
        for own in &self.own {
            sum = sum.saturating_add(own.bytes(self.map));
        }
        sum
    }

    fn callers(&self) -> u32 {
        let mut count = 0u32;
        for own in &self.own {
            if !own.is_nothing() {
                count = count.saturating_add(1);
            }
        }
        count
    }

    /// Gives a caller this, if all callers are within the budget then. Returns whether they are.
    fn accept(&mut self, caller: u32, new: Own) -> bool {
        let Some(own) = self.own.get_mut(caller as usize) else {
            return false;
        };
        let old = *own;
        *own = new;
        if self.bytes() <= self.budget.bytes && self.callers() <= self.budget.callers {
            return true;
        }
        if let Some(own) = self.own.get_mut(caller as usize) {
            *own = old;
        }
        false
    }
}

fn is_refused(answer: &Answer, wanted: Status) -> bool {
    match answer {
        Answer::Refused(status) => status.number() == wanted.number(),
        _ => false,
    }
}

/// A compiled charmap of one mapping, as a PUT has it.
fn compiled(alloc: Global, name: &str) -> Result<Result<Arc<Charmap>, CompileFault>, Fail> {
    let text = format!(in alloc;
        "<code_set_name> {name}\nCHARMAP\n<question-mark> \\x3F\nEND CHARMAP\n"
    )?;
    Ok(Plain.compile(&(), alloc, text.as_bytes()))
}

/// Sends OPEN, and returns whether the answer is the expected one.
fn opens(alloc: Global, world: &mut World, model: &mut Model, caller: u32, own: Own) -> bool {
    let op = Op::Open {
        to: b"UTF-8",
        from: b"US-ASCII",
        policy: Policy::Strict,
    };
    let answer = world.step(alloc, caller, op);
    let free = own.numbers.trailing_ones();
    if free >= 16 {
        return is_refused(&answer, Status::TooManyDescriptors);
    }
    let numbers = own.numbers | 1u32.wrapping_shl(free);
    if !model.accept(caller, Own { numbers, ..own }) {
        return is_refused(&answer, Status::NoMemory);
    }
    matches!(answer, Answer::Number(number) if number == free)
}

/// Sends CLOSE, and returns whether the answer is the expected one.
fn closes(
    alloc: Global,
    world: &mut World,
    model: &mut Model,
    caller: u32,
    own: Own,
    number: u32,
) -> bool {
    let answer = world.step(alloc, caller, Op::Close(number));
    let bit = 1u32.wrapping_shl(number);
    if own.numbers & bit == 0 {
        return is_refused(&answer, Status::BadDescriptor);
    }
    let numbers = own.numbers & !bit;
    model.accept(caller, Own { numbers, ..own }) && matches!(answer, Answer::Empty)
}

/// Sends PART, and returns whether the answer is the expected one.
fn parts(
    alloc: Global,
    world: &mut World,
    model: &mut Model,
    caller: u32,
    own: Own,
    bytes: &[u8],
) -> bool {
    let answer = world.step(alloc, caller, Op::Part(bytes));
    let part = match bytes.len() as u64 {
        0 => 0,
        more => own.part.saturating_add(more),
    };
    if !model.accept(caller, Own { part, ..own }) {
        return is_refused(&answer, Status::NoMemory);
    }
    matches!(answer, Answer::Count(count) if u64::from(count) == part)
}

/// Sends PUT, and returns whether the answer is the expected one.
fn puts(
    alloc: Global,
    world: &mut World,
    model: &mut Model,
    caller: u32,
    own: Own,
    number: u32,
) -> Result<bool, Fail> {
    let name = NAMES.get(number as usize).map_or("D", |name| *name);
    let answer = world.step(alloc, caller, Op::Put(compiled(alloc, name)?));
    let bit = 1u32.wrapping_shl(number);
    if own.maps & bit != 0 {
        return Ok(is_refused(&answer, Status::Exists));
    }
    let maps = own.maps | bit;
    let new = Own {
        maps,
        part: 0,
        ..own
    };
    if !model.accept(caller, new) {
        return Ok(is_refused(&answer, Status::NoMemory));
    }
    Ok(matches!(answer, Answer::Count(1)))
}

/// Sends DROP, and returns whether the answer is the expected one.
fn drops(
    alloc: Global,
    world: &mut World,
    model: &mut Model,
    caller: u32,
    own: Own,
    number: u32,
) -> bool {
    let name = NAMES.get(number as usize).map_or("D", |name| *name);
    let answer = world.step(alloc, caller, Op::DropMap(name.as_bytes()));
    let bit = 1u32.wrapping_shl(number);
    if own.maps & bit == 0 {
        return is_refused(&answer, Status::NoName);
    }
    let maps = own.maps & !bit;
    model.accept(caller, Own { maps, ..own }) && matches!(answer, Answer::Empty)
}

/// Sends BYE, and returns whether the answer is the expected one.
fn leaves(alloc: Global, world: &mut World, model: &mut Model, caller: u32) -> bool {
    let answer = world.step(alloc, caller, Op::Bye);
    model.accept(caller, NOTHING) && matches!(answer, Answer::Empty)
}

/// Sends a pseudorandom request, and returns whether the answer is the expected one.
fn turn(
    alloc: Global,
    world: &mut World,
    model: &mut Model,
    numbers: &mut Numbers,
    text: &[u8],
) -> Result<bool, Fail> {
    let caller = numbers.below(4);
    let own = model.own.get(caller as usize).map_or(NOTHING, |own| *own);
    let size = numbers.one_of(&[0, 1, 400, 3_000]) as usize;
    let bytes = text.get(..size).unwrap_or(text);
    Ok(match numbers.below(12) {
        0..5 => opens(alloc, world, model, caller, own),
        5 => leaves(alloc, world, model, caller),
        6 => closes(alloc, world, model, caller, own, numbers.below(16)),
        7 => drops(alloc, world, model, caller, own, numbers.below(3)),
        8 | 9 => parts(alloc, world, model, caller, own, bytes),
        _ => puts(alloc, world, model, caller, own, numbers.below(3))?,
    })
}

/// How many bytes are counted for a charmap of one mapping.
fn map_bytes(alloc: Global) -> Result<u64, Fail> {
    let mut world = World::within(alloc, UNLIMITED);
    world.step(alloc, 1, Op::Put(compiled(alloc, "A")?));
    Ok(world.usage().bytes.saturating_sub(CALLER_BYTES))
}

#[test]
fn what_is_held_is_the_sum_and_within_the_budget(rt: HostRuntime) -> Result<(), Fail> {
    let alloc = rt.alloc();
    let text = vec![in alloc; b'x'; 3_000]?;
    let budget = Budget {
        bytes: 12_000,
        callers: 3,
    };
    let mut model = Model {
        own: vec![in alloc; NOTHING; 4]?,
        budget,
        map: map_bytes(alloc)?,
    };
    let mut world = World::within(alloc, budget);
    let mut numbers = Numbers { state: 7 };
    for time in 0..4_000 {
        let is_due = turn(alloc, &mut world, &mut model, &mut numbers, &text)?;
        let usage = world.usage();
        assert!(rt; is_due, "{time}");
        assert_eq!(rt; usage.bytes, model.bytes(), "{time}");
        assert_eq!(rt; usage.callers, model.callers(), "{time}");
    }
    Ok(())
}
