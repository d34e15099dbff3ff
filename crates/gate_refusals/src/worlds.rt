//! Steps of a world, and its answers to requests.
ghost use Rattle.std.specs.Prelude.{IfOk};
ghost use Rattle.cv_world.specs.Actions.{InputFits};
ghost use Rattle.cv_world.specs.Answers.{AnswerFits};

use crate::again::{Trouble, say_lacking};
use crate::asked::{Texts, requests};
use crate::texts::{HEAD, REST};
use cv_base::Policy;
use cv_cache::{Compiler, Plain};
use cv_commands::show_replies;
use cv_frame::{Reply, Request, Status, write_reply};
use cv_world::{Answer, Op, World};
use std::alloc::Global;
use std::sync::Arc;

/// The caller.
const CALLER: u32 = 7;

/// A step other than PUT.
#[derive(Clone, Copy)]
enum Step {
    Part,
    Open,
    Conv,
    Reset,
    Close,
    Drop,
    Bye,
}

/// The steps after the PUT.
const STEPS: [Step; 7] = [
    Step::Open,
    Step::Conv,
    Step::Reset,
    Step::Close,
    Step::Drop,
    Step::Part,
    Step::Bye,
];

fn op_of(step: Step) -> Op<'static>
    ensures { InputFits result }
{
    match step {
        Step::Part => Op::Part(HEAD),
        Step::Open => Op::Open {
            to: b"UTF-8",
            from: b"TOY",
            policy: Policy::Substitute,
        },
        Step::Conv => Op::Conv {
            number: 0,
            room: 9,
            input: b"\x80\x31\x81\x40\x41",
        },
        Step::Reset => Op::Reset { number: 0, room: 9 },
        Step::Close => Op::Close(0),
        Step::Drop => Op::DropMap(b"TOY"),
        Step::Bye => Op::Bye,
    }
}

fn is_lacking(answer: &Answer) -> bool {
    matches!(answer, Answer::Refused(Status::NoMemory))
}

/// Makes a step, and makes it again if it got ENOMEM. The world has not changed then.
fn stepped<R: Eprint>(rt: &R, alloc: Global, world: &mut World, step: Step) -> Answer
    ensures { AnswerFits result }
{
    let answer = world.step(alloc, CALLER, op_of(step));
    if !is_lacking(&answer) {
        return answer;
    }
    say_lacking(rt, "World::step");
    world.step(alloc, CALLER, op_of(step))
}

/// Makes a PUT of the part that is held and of this text.
fn put<R: Eprint>(rt: &R, alloc: Global, world: &mut World, rest: &[u8]) -> Result<Answer, Trouble>
    ensures { IfOk result AnswerFits }
{
    let text = again!(rt, "World::gather", world.gather(alloc, CALLER, rest))?;
    let charmap = again!(rt, "Plain::compile", Plain.compile(&(), alloc, &text))?;
    let shared = Arc::try_clone(&charmap)?;
    let answer = world.step(alloc, CALLER, Op::Put(Ok(charmap)));
    if !is_lacking(&answer) {
        return Ok(answer);
    }
    say_lacking(rt, "World::step");
    Ok(world.step(alloc, CALLER, Op::Put(Ok(shared))))
}

/// Appends the replies to all steps.
fn replies_to_steps<R: Eprint>(
    rt: &R,
    alloc: Global,
    replies: &mut Vec<u8>,
) -> Result<(), Trouble> {
    let mut world = World::new(alloc);
    let held = stepped(rt, alloc, &mut world, Step::Part);
    write_reply(replies, &held.reply(alloc, CALLER, 1))?;
    let added = put(rt, alloc, &mut world, REST)?;
    write_reply(replies, &added.reply(alloc, CALLER, 2))?;
    for step in STEPS {
        let answer = stepped(rt, alloc, &mut world, step);
        write_reply(replies, &answer.reply(alloc, CALLER, 3))?;
    }
    Ok(())
}

/// Returns the reply lines of all steps.
pub fn tell_steps<R: Eprint>(rt: &R, alloc: Global) -> Result<Vec<u8>, Trouble> {
    let mut replies = Vec::new(alloc);
    replies_to_steps(rt, alloc, &mut replies)?;
    Ok(show_replies(alloc, &replies)?)
}

/// Makes a request, and makes it again if it got ENOMEM.
fn answered<R: Eprint>(rt: &R, alloc: Global, world: &mut World, request: &Request) -> Reply {
    let reply = world.answer(&Plain, rt, alloc, request);
    if reply.status != Status::NoMemory {
        return reply;
    }
    say_lacking(rt, "World::answer");
    world.answer(&Plain, rt, alloc, request)
}

/// Returns the reply lines of all requests.
pub fn tell_answers<R: Eprint>(rt: &R, alloc: Global) -> Result<Vec<u8>, Trouble> {
    let texts = Texts::new(alloc)?;
    let mut world = World::new(alloc);
    let mut replies = Vec::new(alloc);
    for request in requests(alloc, &texts)?.iter() {
        let reply = answered(rt, alloc, &mut world, request);
        write_reply(&mut replies, &reply)?;
    }
    Ok(show_replies(alloc, &replies)?)
}
