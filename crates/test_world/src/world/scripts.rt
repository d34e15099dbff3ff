//! Scripts of requests to a world. A line is `CALLER REQUEST = ANSWER`. The request is written as in the program's
//! scripts, and in its text `|` means a line feed. An answer is `empty`, `number NUMBER`, `count COUNT`, `STOP LEFT
//! COUNT OUTPUT`, `written CLOSING`, `BADMAP LINE`, or the name of another status.
use crate::words::{policy_of, text_of};
use cv_cache::{Compiler, Plain};
use cv_world::{Answer, Op, World};
use std::alloc::{AllocError, Global};
use std::process::Abort;
use std::test::Fail;
use test_support::{bytes_of, first_word, sides};

/// Sends the requests of all lines to one new world, and compares the answers.
pub fn ask<R: Abort + AllocGlobal>(rt: &R, script: &str) -> Result<(), Fail> {
    let mut world = World::new(rt.alloc());
    for line in script.trim().lines() {
        let answered = is_answered(rt.alloc(), &mut world, line)?;
        assert!(rt; answered, "{line}");
    }
    Ok(())
}

/// Sends the request of a line to a world, and returns whether the answer is the one of the line.
pub fn is_answered(alloc: Global, world: &mut World, line: &str) -> Result<bool, Fail> {
    let (asked, wanted) = sides(line, " = ")?;
    let (caller, request) = sides(asked, " ")?;
    let caller = caller.parse::<u32>()?;
    let answer = answer(alloc, world, caller, request)?;
    is_told(alloc, &answer, wanted)
}

/// The answer to a request.
fn answer(alloc: Global, world: &mut World, caller: u32, request: &str) -> Result<Answer, Fail> {
    let (command, rest) = first_word(request);
    match command {
        "put" => put(alloc, world, caller, rest),
        "part" => part(alloc, world, caller, rest),
        "open" => open(alloc, world, caller, rest),
        "conv" => conv(alloc, world, caller, rest),
        "reset" => reset(alloc, world, caller, rest),
        "close" => {
            let number = rest.parse::<u32>()?;
            Ok(world.step(alloc, caller, Op::Close(number)))
        }
        "drop" => Ok(world.step(alloc, caller, Op::DropMap(rest.as_bytes()))),
        "bye" => Ok(world.step(alloc, caller, Op::Bye)),
        _ => Err("no such request".into()),
    }
}

/// `put TEXT`: the caller's part and this text are compiled.
fn put(alloc: Global, world: &mut World, caller: u32, text: &str) -> Result<Answer, Fail> {
    let body = text_of(alloc, text)?;
    let text = world.gather(alloc, caller, &body)?;
    let charmap = Plain.compile(&(), alloc, &text);
    Ok(world.step(alloc, caller, Op::Put(charmap)))
}

/// `part TEXT`
fn part(alloc: Global, world: &mut World, caller: u32, text: &str) -> Result<Answer, Fail> {
    let body = text_of(alloc, text)?;
    Ok(world.step(alloc, caller, Op::Part(&body)))
}

/// `open TARGET SOURCE [strict]`
fn open(alloc: Global, world: &mut World, caller: u32, rest: &str) -> Result<Answer, Fail> {
    let (to, rest) = sides(rest, " ")?;
    let (from, policy) = first_word(rest);
    let op = Op::Open {
        to: to.as_bytes(),
        from: from.as_bytes(),
        policy: policy_of(policy),
    };
    Ok(world.step(alloc, caller, op))
}

/// `conv DESCRIPTOR ROOM BYTES`
fn conv(alloc: Global, world: &mut World, caller: u32, rest: &str) -> Result<Answer, Fail> {
    let (number, rest) = sides(rest, " ")?;
    let (room, input) = sides(rest, " ")?;
    let number = number.parse::<u32>()?;
    let room = room.parse::<u32>()?;
    let input = bytes_of(alloc, input)?;
    let input = input.as_slice();
    let op = Op::Conv {
        number,
        room,
        input: &input[..input.len().min(1_048_567)],
    };
    Ok(world.step(alloc, caller, op))
}

/// `reset DESCRIPTOR ROOM`
fn reset(alloc: Global, world: &mut World, caller: u32, rest: &str) -> Result<Answer, Fail> {
    let (number, room) = sides(rest, " ")?;
    let number = number.parse::<u32>()?;
    let room = room.parse::<u32>()?;
    Ok(world.step(alloc, caller, Op::Reset { number, room }))
}

/// Whether an answer is the one of a line.
fn is_told(alloc: Global, answer: &Answer, wanted: &str) -> Result<bool, Fail> {
    let told = told(alloc, answer)?;
    match output(answer) {
        Some(output) => ends_in(alloc, told.as_str(), output, wanted),
        None => Ok(told.as_str() == wanted),
    }
}

/// An answer in the words of a line, without its output.
fn told(alloc: Global, answer: &Answer) -> Result<String, AllocError> {
    match answer {
        Answer::Empty => String::from_str(alloc, "empty"),
        Answer::Number(number) => format!(in alloc; "number {number}"),
        Answer::Count(count) => format!(in alloc; "count {count}"),
        Answer::Converted {
            stop,
            left,
            count,
            ..
        } => format!(in alloc; "{stop:?} {left} {count}"),
        Answer::Written(_) => String::from_str(alloc, "written"),
        Answer::BadMap(fault) => format!(in alloc; "BADMAP {}", fault.line),
        Answer::Refused(status) => String::from_str(alloc, status.name()),
    }
}

/// The output of an answer that has one.
fn output(answer: &Answer) -> Option<&[u8]> {
    match answer {
        Answer::Converted { bytes, .. } => Some(bytes.as_slice()),
        Answer::Written(closing) => Some(closing.as_slice()),
        _ => None,
    }
}

/// Whether the wanted words are `told`, and then the output.
fn ends_in(alloc: Global, told: &str, output: &[u8], wanted: &str) -> Result<bool, Fail> {
    let Some((front, bytes)) = wanted.rsplit_once(' ') else {
        return Ok(false);
    };
    if front != told {
        return Ok(false);
    }
    let bytes = bytes_of(alloc, bytes)?;
    Ok(bytes.as_slice() == output)
}
