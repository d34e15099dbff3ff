//! Answers one request by a world and a compiler of charmap texts.
ghost use Rattle.std.specs.Prelude.{◌≡◌, ◌++◌, ◌≤◌, [], false, true, length, OnOk, OnErr};
ghost use Rattle.cv_cache.specs.Compiled.{IsCompiled};
ghost use Rattle.cv_frame.specs.Message.{Message, spelling};
ghost use Rattle.cv_machine.specs.Machine.{Steps};
ghost use Rattle.cv_world.specs.Actions.{asked, InputFits};
ghost use Rattle.cv_world.specs.Answers.{answer_body, answer_status};
ghost use Rattle.cv_world.specs.Private.Replying.{IsSmall, Answers};
ghost use Rattle.cv_world.specs.Requests.{Asks, turn};
ghost use Rattle.cv_world.specs.Worlds.{world_tables};

use crate::answer::{Answer, fault_piece, number_piece, status_of, two_numbers};
use crate::callers::has_part_in;
use crate::changing::{may_hold_map, may_open};
use crate::op::{ConvRequest, Op};
use crate::replies::Replies;
use crate::stages::ConvOutcome;
use crate::world::World;
use cv_base::{Memory, Piece};
use cv_cache::Compiler;
use cv_charmap::CompileFault;
use cv_frame::ops::{BYE, CLOSE, CONV, DROP, OPEN, PART, PUT, RESET};
use cv_frame::{
    Bytes, OpenBody, Reply, Request, Status, read_conv, read_name, read_number, read_open,
    read_reset,
};
use cv_trie::Charmap;
use std::alloc::Global;
use std::sync::Arc;

/// Compiles what a PUT uploads: the part that is held for its caller, followed by the body. If no part is held, the
/// body is the whole text, and is compiled without a copy. Nothing is compiled if the budget has no room for any
/// charmap.
fn compile_put<R, C: Compiler<R>>(
    world: &World,
    compiler: &C,
    rt: &R,
    alloc: Global,
    request: &Request,
) -> Result<Arc<Charmap>, CompileFault>
    requires { C.ready compiler.now }
    ensures { IsCompiled ((world_tables world.now request.now.caller).part ++ request.now.body) result }
{
    let caller = request.caller;
    if !may_hold_map(&world.callers, caller) {
        return Err(CompileFault::Memory);
    }
    if !world.has_part(caller) {
        return compiler.compile(rt, alloc, request.body);
    }
    let Ok(text) = world.gather(alloc, caller, request.body) else {
        return Err(CompileFault::Memory);
    };
    compiler.compile(rt, alloc, &text)
}

/// Returns what a request asks for. The text of a PUT is compiled here, just before the PUT runs.
fn read<'a, R, C: Compiler<R>>(
    world: &World,
    compiler: &C,
    rt: &R,
    alloc: Global,
    request: &Request<'a>,
) -> Op<'a>
    requires { C.ready compiler.now }
    ensures asks { Asks (world_tables world.now request.now.caller).part request.now.code request.now.body
        (asked result) }
    ensures fits { InputFits result }
{
    let body = request.body;
    match request.op {
        PUT => Op::Put(compile_put(world, compiler, rt, alloc, request)),
        DROP => match read_name(body) {
            Some(name) => Op::DropMap(name),
            None => Op::Bad,
        },
        OPEN => match read_open(body) {
            Some(OpenBody { to, from, policy }) => Op::Open { to, from, policy },
            None => Op::Bad,
        },
        CONV => match read_conv(body) {
            Some((number, room, input)) => Op::Conv {
                number,
                room,
                input,
            },
            None => Op::Bad,
        },
        RESET => match read_reset(body) {
            Some((number, room)) => Op::Reset { number, room },
            None => Op::Bad,
        },
        CLOSE => match read_number(body) {
            Some(number) => Op::Close(number),
            None => Op::Bad,
        },
        BYE if body.is_empty() => Op::Bye,
        PART => Op::Part(body),
        _ => Op::Bad,
    }
}

/// A reply without the output of a conversion.
#[derive(Drop)]
pub(crate) struct Small {
    pub(crate) status: Status,
    pub(crate) body: Piece,
}

/// Returns the reply of an answer that is not a conversion's.
fn small_of(answer: Answer) -> Small
    requires { IsSmall answer }
    ensures status { result.status ≡ answer_status answer }
    ensures body { result.body ≡ answer_body answer }
    ensures few { length result.body ≤ 8 }
{
    let (status, body) = match answer {
        Answer::Number(n) => (Status::Ok, number_piece(n)),
        Answer::Count(n) => (Status::Ok, number_piece(n)),
        Answer::Written(bytes) => (Status::Ok, bytes),
        Answer::BadMap(fault) => (Status::BadMap, fault_piece(fault)),
        Answer::Refused(status) => (status, Piece::new()),
        Answer::Empty => (Status::Ok, Piece::new()),
        // Excluded by the contract.
        Answer::Converted { bytes: _output, .. } => (Status::Ok, Piece::new()),
    };
    Small { status, body }
}

fn lacks_memory(status: Status) -> bool
    ensures { result ≡ true → status ≡ Status.NoMemory }
{
    matches!(status, Status::NoMemory)
}

impl World {
    /// Returns whether a part of an upload is held for a caller.
    fn has_part(&self, caller: u32) -> bool
        ensures { result ≡ false → (world_tables self.now caller).part ≡ [] }
    {
        has_part_in(&self.callers.map, caller)
    }

    /// Returns whether a request that was answered ENOMEM may succeed after the compiler frees what it keeps. It cannot
    /// if the budget refused it. The budget never refuses a CONV.
    fn may_retry(&self, op: u8, caller: u32) -> bool {
        match op {
            CONV => true,
            OPEN => may_open(&self.callers, caller),
            _ => !self.callers.is_full,
        }
    }

    /// Answers a request: appends the output of a conversion, and returns any other reply as `Err`. If an allocation
    /// failed, which changes nothing, and the compiler can free what it keeps, the request is tried once more after
    /// that.
    fn attempt_twice<R, C: Compiler<R>>(
        &mut self,
        compiler: &C,
        rt: &R,
        alloc: Global,
        request: &Request,
        output: &mut Replies,
    ) -> Result<ConvOutcome, Small>
        requires { C.ready compiler.now }
        ensures { Answers (world_tables self.old) (world_tables self.new) request.now output.old output.new result }
    {
        let caller = request.caller;
        let mut retries_left = 1u32;
        loop {
            let answer = match read(self, compiler, rt, alloc, request) {
                Op::Conv {
                    number,
                    room,
                    input,
                } => {
                    let conv = ConvRequest {
                        number,
                        room,
                        input,
                    };
                    match self.conv_output(caller, conv, output) {
                        Ok(written) => return Ok(written),
                        Err(status) => Answer::Refused(status),
                    }
                }
                op => self.step_small(alloc, caller, op),
            };
            let small = small_of(answer);
            if retries_left == 0
                || !lacks_memory(small.status)
                || !self.may_retry(request.op, caller)
                || !compiler.give_up(rt)
            {
                return Err(small);
            }
            retries_left -= 1;
        }
    }

    /// Answers one request, and returns the reply. If an allocation failed, which changes nothing, and the compiler can
    /// free what it keeps, the request is tried once more after that.
    pub fn answer<R, C: Compiler<R>>(
        &mut self,
        compiler: &C,
        rt: &R,
        alloc: Global,
        request: &Request,
    ) -> Reply
        requires { C.ready compiler.now }
        ensures { Steps turn (world_tables self.old) request.now result (world_tables self.new) }
    {
        let mut output = Replies::new(alloc);
        let (caller, tag) = (request.caller, request.tag);
        match self.attempt_twice(compiler, rt, alloc, request, &mut output) {
            Ok(o) => {
                let body = two_numbers(o.left, o.count);
                Reply::new(caller, tag, status_of(o.stop), body, output.into_bytes())
            }
            Err(small) => Reply::new(caller, tag, small.status, small.body, Bytes::new(alloc)),
        }
    }

    /// Answers one request, and appends the frame of the reply. Returns `Memory` if there is no memory for a small
    /// reply: then the request has not run. A CONV without memory for its output is answered ENOMEM.
    pub fn answer_into<R, C: Compiler<R>>(
        &mut self,
        compiler: &C,
        rt: &R,
        alloc: Global,
        request: &Request,
        replies: &mut Replies,
    ) -> Result<(), Memory>
        requires { C.ready compiler.now }
        ensures ok { OnOk result ((reply : Message) × Steps turn (world_tables self.old) request.now reply
            (world_tables self.new) × (replies.new ≡ replies.old ++ spelling reply)) }
        ensures err { OnErr result ((world_tables self.new ≡ world_tables self.old) × (replies.new ≡ replies.old)) }
    {
        let start = replies.begin()?;
        match self.attempt_twice(compiler, rt, alloc, request, replies) {
            Ok(o) => replies.finish_converted(start, request, o),
            Err(Small { status, body }) => replies.finish_small(start, request, status, &body),
        }
        Ok(())
    }
}
